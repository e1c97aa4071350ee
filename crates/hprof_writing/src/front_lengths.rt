//! The lengths of records and sub-records.

ghost use Rattle.std.specs.Prelude.{◌≡◌, length, IsSome, Some};
ghost use Rattle.hprof_values.specs.declared.sub_tag.SubTag.TheVariants as tags;
ghost use Rattle.hprof_items.specs.RecordBody.{record_of};
ghost use Rattle.hprof_items.specs.ObjectTag.{object_of};
ghost use Rattle.hprof_items.specs.Spelling.{spelling, Fits};
ghost use Rattle.hprof_items.specs.FactValue.{value_of, ListsHave};
ghost use Rattle.hprof_writing.specs.SubFronts.{HasSubFront};

use crate::class_front::class_front;
use crate::record_front::record_front;
use crate::sub_front::sub_front;
use hprof_items::{Fact, HEAD_LEN};
use hprof_values::{IdSize, numbers_len};

/// Returns the number of bytes of a fact's record.
#[inline(always)]
pub(crate) fn record_len(fact: &Fact<'_>, ids: IdSize) -> usize
    requires is { IsSome (record_of (value_of fact.now)) }
    requires fits { Fits ids (value_of fact.now) }
    requires lists { ListsHave ids fact.now }
    ensures { result ≡ length (spelling ids (value_of fact.now)) }
{
    let Some(front) = record_front(fact, ids) else {
        unreachable!()
    };
    HEAD_LEN + numbers_len(&front.fields[..front.count], ids) + front.more.len()
}

/// Returns the number of bytes of the sub-record of a root, an instance or an array.
#[inline(always)]
pub(crate) fn sub_len(fact: &Fact<'_>, ids: IdSize) -> usize
    requires has { HasSubFront (value_of fact.now) }
    requires fits { Fits ids (value_of fact.now) }
    requires lists { ListsHave ids fact.now }
    ensures { result ≡ length (spelling ids (value_of fact.now)) }
{
    let Some(front) = sub_front(fact, ids) else {
        unreachable!()
    };
    1 + numbers_len(&front.fields[..front.count], ids) + front.more.len()
}

/// Returns the number of bytes of a class dump.
pub(crate) fn class_len(fact: &Fact<'_>, ids: IdSize) -> usize
    requires is { object_of (value_of fact.now) ≡ Some tags.ClassDump }
    requires fits { Fits ids (value_of fact.now) }
    requires lists { ListsHave ids fact.now }
    ensures { result ≡ length (spelling ids (value_of fact.now)) }
{
    let Some(front) = class_front(fact, ids) else {
        unreachable!()
    };
    let entries = front.constants.bytes.len() + front.statics.bytes.len() + front.own.bytes.len();
    numbers_len(&front.fields, ids) + 6 + entries
}
