//! The identifiers of objects.

ghost use Rattle.std.specs.Prelude.{◌≡◌};
ghost use Rattle.hprof_items.specs.FactValue.{value_of};
ghost use Rattle.hprof_facts.specs.ObjectKeys.{object_key};

use hprof_items::Fact;

/// Returns the identifier of an object, or `None` if the fact is no object dump.
#[inline(always)]
pub fn object_id(fact: &Fact<'_>) -> Option<u64>
    ensures { result ≡ object_key (value_of fact.now) }
{
    match *fact {
        Fact::Instance { id, .. } | Fact::ObjArray { id, .. } | Fact::PrimArray { id, .. } => {
            Some(id)
        }
        _ => None,
    }
}
