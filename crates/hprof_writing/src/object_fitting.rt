//! Tests whether the sub-record of a fact can be encoded.

ghost use Rattle.std.specs.Prelude.{◌≡◌, ◌↔◌, IsTrue, Some};
ghost use Rattle.hprof_values.specs.declared.sub_tag.SubTag.TheVariants as tags;
ghost use Rattle.hprof_items.specs.FactValue.{value_of, ListsHave};
ghost use Rattle.hprof_items.specs.Spelling.{Fits};
ghost use Rattle.hprof_items.specs.ObjectTag.{object_of};
ghost use Rattle.hprof_writing.specs.SubFronts.{HasSubFront};

use crate::class_front::class_front;
use crate::front_fitting::front_fits;
use crate::sub_front::sub_front;
use hprof_items::Fact;
use hprof_values::{IdSize, numbers_fit};

/// Returns whether a root, an instance or an array can be encoded.
#[inline(always)]
pub(crate) fn sub_fits(fact: &Fact<'_>, ids: IdSize) -> bool
    requires { HasSubFront (value_of fact.now) }
    ensures { IsTrue result ↔ (Fits ids (value_of fact.now) × ListsHave ids fact.now) }
{
    let Some(front) = sub_front(fact, ids) else {
        return false;
    };
    front_fits(&front.fields[..front.count], front.more.len() + 1, ids)
}

/// Returns whether a class dump can be encoded. Its lists are never too long.
pub(crate) fn class_fits(fact: &Fact<'_>, ids: IdSize) -> bool
    requires { object_of (value_of fact.now) ≡ Some tags.ClassDump }
    ensures { IsTrue result ↔ (Fits ids (value_of fact.now) × ListsHave ids fact.now) }
{
    let Some(front) = class_front(fact, ids) else {
        return false;
    };
    numbers_fit(&front.fields, ids)
}
