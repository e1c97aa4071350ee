//! Tests whether the record of a fact can be encoded.

ghost use Rattle.std.specs.Prelude.{◌↔◌, IsTrue, IsSome};
ghost use Rattle.hprof_items.specs.FactValue.{value_of, ListsHave};
ghost use Rattle.hprof_items.specs.Spelling.{Fits};
ghost use Rattle.hprof_items.specs.RecordBody.{record_of};

use crate::front_fitting::front_fits;
use crate::record_front::record_front;
use hprof_items::Fact;
use hprof_values::IdSize;

/// Returns whether the record of a fact can be encoded.
#[inline(always)]
pub(crate) fn record_fits(fact: &Fact<'_>, ids: IdSize) -> bool
    requires { IsSome (record_of (value_of fact.now)) }
    ensures { IsTrue result ↔ (Fits ids (value_of fact.now) × ListsHave ids fact.now) }
{
    let Some(front) = record_front(fact, ids) else {
        return false;
    };
    front_fits(&front.fields[..front.count], front.more.len(), ids)
}
