//! The referents of layouts, as lists that share their ends: a class has its own before those of its superclass.

ghost use Rattle.std.specs.Prelude.{◌≡◌, ◌≤◌, ◌+◌, ◌++◌, List, Option, Some, IfOk, OnOk, length, option_map, slice_get};
ghost use Rattle.hprof_items.specs.FactValue.{FactValue};
ghost use Rattle.hprof_layouts.specs.declared.slot.Slot.{Slot};
ghost use Rattle.hprof_edges.specs.declared.field_place.FieldPlace.{FieldPlace};
ghost use Rattle.hprof_weak.specs.declared.links.Link.{Link};
ghost use Rattle.hprof_weak.specs.Links.{AreFlags, Extends, Leads, PushesReferents, link_behind, nexts_in};

use hprof_edges::FieldPlace;
use std::alloc::{AllocError, Global};

/// A referent of a layout.
#[derive(Clone, Copy, Debug, PartialEq, Eq)]
pub(crate) struct Link {
    /// The number of fields before it.
    pub(crate) before: u64,
    /// The number of the link to the next referent.
    pub(crate) number: usize,
}

/// Returns the first referent of a layout with one more field, which is none, before all others.
fn behind_one(first: Option<Link>) -> Option<Link>
    ensures { result ≡ option_map link_behind first }
{
    let link = first?;
    Some(Link {
        before: link.before.saturating_add(1),
        number: link.number,
    })
}

/// For each referent the link to the next one, counted from the field behind it, or `None` behind the last.
#[derive(Drop)]
pub(crate) struct Links {
    pub(crate) nexts: Vec<Option<Link>>,
}

impl Links {
    /// Puts the own fields of a class before those of its superclass, whose first referent is `above`. Returns the first referent of all.
    /// If memory runs out, the answer is `AllocError` and the links are unspecified.
    pub(crate) fn put_own(
        &mut self,
        flags: Vec<bool>,
        above: Option<Link>,
    ) -> Result<Option<Link>, AllocError>
        ensures extends { IfOk result (λ first. Extends (nexts_in self.old) (nexts_in self.new)) }
        ensures leads { IfOk result (λ first. (facts : List FactValue) (own slots : List Slot) → AreFlags facts flags.items own
            → Leads facts (nexts_in self.old) above slots → Leads facts (nexts_in self.new) first (own ++ slots)) }
    {
        let mut left = flags;
        let mut first = above;
        while let Some(is_referent) = left.pop() {
            if is_referent {
                let number = self.nexts.len();
                self.nexts.push(first)?;
                first = Some(Link { before: 0, number });
            } else {
                first = behind_one(first);
            }
        }
        Ok(first)
    }

    /// Returns the link to the next referent, or `None` behind the last.
    fn next(&self, number: usize) -> Option<Link>
        ensures { (next : Option Link) → slice_get (nexts_in self.now) number ≡ Some next → result ≡ next }
    {
        let next = self.nexts.get(number)?;
        *next
    }

    /// Appends the referents of a layout whose places are below `room`, as fields of the class. Returns whether all referents are below.
    pub(crate) fn push_referents(
        &self,
        class: u64,
        first: Link,
        room: u64,
        fields: &mut Vec<FieldPlace>,
    ) -> Result<bool, AllocError>
        ensures pushes { IfOk result (λ all. (facts : List FactValue) (slots : List Slot)
            → Leads facts (nexts_in self.now) (Some first) slots
            → PushesReferents facts class slots room all fields.old.items fields.new.items) }
        ensures few { OnOk result (length fields.new.items ≤ length fields.old.items + room) }
    {
        let mut place = first.before;
        let mut number = first.number;
        while place < room {
            fields.push(FieldPlace { class, place })?;
            let Some(next) = self.next(number) else {
                return Ok(true);
            };
            place = place.saturating_add(1).saturating_add(next.before);
            number = next.number;
        }
        Ok(false)
    }
}
