//! The facts that can be encoded, and the lengths of their encodings.

ghost use Rattle.std.specs.Prelude.{◌≡◌, ◌↔◌, IsTrue, length};
ghost use Rattle.hprof_items.specs.Spelling.{spelling, Fits};
ghost use Rattle.hprof_items.specs.FactValue.{value_of, ListsHave};

use crate::front_lengths::{class_len, record_len, sub_len};
use crate::object_fitting::{class_fits, sub_fits};
use crate::record_fitting::record_fits;
use hprof_items::Fact;
use hprof_values::IdSize;

/// Returns whether a fact can be encoded with this identifier size: its identifiers and lists have that size, no element of an array is
/// cut, and its length fits the length field.
pub fn fits(fact: &Fact<'_>, ids: IdSize) -> bool
    ensures { IsTrue result ↔ (Fits ids (value_of fact.now) × ListsHave ids fact.now) }
{
    match *fact {
        // An arm for each form: with `record_fits` and `sub_fits` in place, its fields are known there.
        Fact::Name { .. } => record_fits(fact, ids),
        Fact::Load { .. } => record_fits(fact, ids),
        Fact::Unload { .. } => record_fits(fact, ids),
        Fact::Frame { .. } => record_fits(fact, ids),
        Fact::Trace { .. } => record_fits(fact, ids),
        Fact::Start { .. } => record_fits(fact, ids),
        Fact::End { .. } => record_fits(fact, ids),
        Fact::Root(_) => sub_fits(fact, ids),
        Fact::Instance { .. } => sub_fits(fact, ids),
        Fact::ObjArray { .. } => sub_fits(fact, ids),
        Fact::PrimArray { .. } => sub_fits(fact, ids),
        Fact::Class { .. } => class_fits(fact, ids),
    }
}

/// Returns the number of bytes of a fact's encoding.
pub fn spelled_len(fact: &Fact<'_>, ids: IdSize) -> u64
    requires fits { Fits ids (value_of fact.now) }
    requires lists { ListsHave ids fact.now }
    ensures { result ≡ length (spelling ids (value_of fact.now)) }
{
    let len = match *fact {
        Fact::Name { .. } => record_len(fact, ids),
        Fact::Load { .. } => record_len(fact, ids),
        Fact::Unload { .. } => record_len(fact, ids),
        Fact::Frame { .. } => record_len(fact, ids),
        Fact::Trace { .. } => record_len(fact, ids),
        Fact::Start { .. } => record_len(fact, ids),
        Fact::End { .. } => record_len(fact, ids),
        Fact::Root(_) => sub_len(fact, ids),
        Fact::Instance { .. } => sub_len(fact, ids),
        Fact::ObjArray { .. } => sub_len(fact, ids),
        Fact::PrimArray { .. } => sub_len(fact, ids),
        Fact::Class { .. } => class_len(fact, ids),
    };
    len as u64
}
