//! The classes and objects that a report is on.

ghost use Rattle.std.specs.Prelude.{◌≡◌, ◌↔◌, ℕ, IsTrue, MatchOption};
ghost use Rattle.hprof_items.specs.FactValue.{value_of};
ghost use Rattle.hprof_keeps.specs.Chosen.{ClassesAscend};
ghost use Rattle.hprof_keeps.specs.Gathered.{Includes, IsChosenObject, has_class_dumps};

use hprof_histogram::Kind;
use hprof_items::Fact;

/// The classes and objects that the report `biggest` is on.
#[derive(Clone, Copy, Debug)]
pub enum Choice<'a> {
    /// The objects of a class, or the arrays of a type.
    Of(Kind),
    /// The objects of several classes.
    OfClasses {
        /// The classes, which ascend strictly.
        classes: &'a [u64],
        /// Whether the report is also on class dumps without an object dump.
        with_class_dumps: bool,
    },
}

/// Returns whether a choice has the objects of a kind.
#[inline(always)]
fn includes(choice: &Choice<'_>, kind: Kind) -> bool
    requires { ClassesAscend choice.now }
    ensures { IsTrue result ↔ Includes choice.now kind }
{
    match (*choice, kind) {
        (Choice::Of(wanted), _) => kind == wanted,
        (Choice::OfClasses { classes, .. }, Kind::Class(class)) => {
            classes.binary_search(&class).is_ok()
        }
        (Choice::OfClasses { .. }, Kind::Prim(_)) => false,
    }
}

/// Returns whether a choice has class dumps without an object dump.
pub(crate) fn has_class_dumps(choice: &Choice<'_>) -> bool
    ensures { result ≡ has_class_dumps choice.now }
{
    match *choice {
        Choice::Of(_) => false,
        Choice::OfClasses {
            with_class_dumps,
            ..
        } => with_class_dumps,
    }
}

/// Returns the identifier of an object dump that a choice has, or `None` of another fact.
#[inline(always)]
pub(crate) fn chosen_object(choice: &Choice<'_>, fact: &Fact<'_>) -> Option<u64>
    requires { ClassesAscend choice.now }
    ensures { MatchOption result ((node : ℕ) → IsChosenObject choice.now (value_of fact.now) node → ⊥)
        (IsChosenObject choice.now (value_of fact.now)) }
{
    match *fact {
        Fact::Instance { id, class, .. } if includes(choice, Kind::Class(class)) => Some(id),
        Fact::ObjArray { id, class, .. } if includes(choice, Kind::Class(class)) => Some(id),
        Fact::PrimArray { id, elem, .. } if includes(choice, Kind::Prim(elem)) => Some(id),
        _ => None,
    }
}
