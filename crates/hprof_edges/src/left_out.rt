//! A table of fields whose references are left out.

ghost use Rattle.std.specs.Prelude.{◌≡◌, ◌↔◌, [], Contains};
ghost use Rattle.std.specs.List.Sorted.{IsNonDecreasingBy, IsSorted};
ghost use Rattle.hprof_edges.specs.declared.field_place.FieldPlace.{FieldPlace};

use crate::field_place::FieldPlace;
use std::alloc::Global;

/// A table of fields whose references are left out, when edges are put or followed. Which fields these are is for the caller to say.
#[derive(Drop)]
pub struct LeftOut {
    fields: Vec<FieldPlace>,
    ghost sorted: { IsSorted ⟦<FieldPlace as Ord>⟧.cmp fields.items },
}

/// Returns the fields of a class, by binary search. They ascend by place. `fields` is sorted.
fn fields_of(fields: &[FieldPlace], class: u64) -> &[FieldPlace]
    requires { IsSorted ⟦<FieldPlace as Ord>⟧.cmp fields.now }
    ensures exact { (field : FieldPlace) → Contains result.now field ↔ (Contains fields.now field × (field.class ≡ class)) }
    ensures ascend { IsNonDecreasingBy (λ (field : FieldPlace). field.place) result.now }
{
    let start = fields.partition_point(|field| field.class < class);
    let (_, rest) = fields.split_at(start);
    let count = rest.partition_point(|field| field.class <= class);
    let (run, _) = rest.split_at(count);
    run
}

impl LeftOut {
    ghost use Rattle.hprof_edges.specs.LeftOut.{fields_in};

    /// Returns the table of no fields. Allocates nothing.
    pub fn none(alloc: Global) -> LeftOut
        ensures { fields_in result ≡ [] }
    {
        LeftOut {
            fields: Vec::new(alloc),
        }
    }

    /// Returns the table of these fields, which may come in any order and more than once. Allocates nothing.
    pub fn new(fields: Vec<FieldPlace>) -> LeftOut
        ensures { (field : FieldPlace) → Contains (fields_in result) field ↔ Contains fields.items field }
    {
        let mut sorted = fields;
        sorted.sort_unstable();
        LeftOut { fields: sorted }
    }

    /// Returns the fields of a class that are left out, which ascend by place. In a table of no fields none is looked up.
    #[inline(always)]
    pub fn of(&self, class: u64) -> &[FieldPlace]
        ensures exact { (field : FieldPlace) → Contains result.now field ↔ (Contains (fields_in self.now) field × (field.class ≡ class)) }
        ensures ascend { IsNonDecreasingBy (λ (field : FieldPlace). field.place) result.now }
    {
        if self.fields.is_empty() {
            return &self.fields;
        }
        fields_of(&self.fields, class)
    }
}
