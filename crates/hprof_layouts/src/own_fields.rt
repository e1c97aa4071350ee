//! The own fields of classes, as plans store them.

ghost use Rattle.std.specs.Prelude.{◌≡◌, ◌++◌, ◌+◌, ◌≤◌, ◌<◌, ◌^◌, List, length, drop, vec_len, IsTrue, IfOk, OnOk};
ghost use Rattle.std.specs.Option.{SomeIff};
ghost use Rattle.byteorder.specs.Endian.{big_number};
ghost use Rattle.hprof_values.specs.Ids.{width_of};
ghost use Rattle.hprof_heap.specs.ClassDump.{class_value};
ghost use Rattle.hprof_layouts.specs.declared.slot.Slot.{Slot};
ghost use Rattle.hprof_layouts.specs.Fields.{width_of_slots};
ghost use Rattle.hprof_layouts.specs.Layout.{own_slots};
ghost use Rattle.hprof_layouts.specs.OwnFields.{IsOwn, references_in};
ghost use Rattle.hprof_layouts.specs.Plan.{most, reference_behind};
ghost use Rattle.hprof_layouts.specs.References.{wanted_of};
ghost use Rattle.hprof_layouts.specs.Refers.{NoneRefers};

use crate::reference::{Reference, Wanted, refers};
use hprof_heap::ClassDump;
use hprof_values::IdSize;
use hprof_values::number::id_at;
use std::alloc::{AllocError, Global};

/// The most references in the own fields of several classes that one plan covers.
const MOST_TOGETHER: usize = 32;

/// An own field of a class that is a reference.
#[derive(Clone, Copy, Debug, PartialEq, Eq)]
pub(crate) struct OwnReference {
    /// The number of bytes of the own fields before it.
    pub(crate) offset: usize,
    /// The number of own fields before it.
    pub(crate) place: u64,
}

/// The own fields of a class, or of several classes, one after the other.
#[derive(Drop)]
pub(crate) struct OwnLayout {
    /// The number of bytes of the own fields.
    pub(crate) width: usize,
    /// The number of own fields.
    pub(crate) count: u64,
    /// The own fields that are references, in order.
    pub(crate) references: Vec<OwnReference>,
}

/// Returns the own fields of a class, with this identifier size.
pub(crate) fn own_fields(
    alloc: Global,
    dump: &ClassDump<'_>,
    ids: IdSize,
) -> Result<OwnLayout, AllocError>
    ensures { IfOk result (IsOwn ids (own_slots (class_value dump.now))) }
{
    let mut references = Vec::new(alloc);
    let mut width = 0;
    let mut count = 0;
    for field in dump.fields.iter() {
        if refers(field.basic) {
            references.push(OwnReference {
                offset: width,
                place: count,
            })?;
        }
        width += field.basic.width(ids) as usize;
        count += 1;
    }
    Ok(OwnLayout {
        width,
        count,
        references,
    })
}

/// Returns the identifier at `offset`, or `None` if the bytes end before its end.
#[inline(always)]
fn id_behind(bytes: &[u8], offset: usize, ids: IdSize) -> Option<u64>
    ensures { SomeIff result (offset + width_of ids ≤ length bytes.now) (big_number (width_of ids) (drop offset bytes.now)) }
{
    let (_, rest) = bytes.split_at_checked(offset)?;
    if rest.len() < ids.width() {
        return None;
    }
    Some(id_at(rest, ids))
}

impl OwnReference {
    /// Returns the same field, with `offset` more bytes and `place` more fields before it.
    #[inline(always)]
    fn behind(self, offset: usize, place: u64) -> OwnReference
        ensures { result ≡ reference_behind offset place self }
    {
        OwnReference {
            offset: self.offset.saturating_add(offset),
            place: self.place.saturating_add(place),
        }
    }
}

impl OwnLayout {
    /// Returns whether one plan should cover both these fields and others, which begin at `offset`: some of these are references, few in
    /// all are, and the number of bytes of all fits `usize`.
    pub(crate) fn goes_with(&self, offset: usize, others: &OwnLayout) -> bool
        ensures some { IsTrue result → 0 < vec_len self.now.references }
        ensures few { IsTrue result → vec_len self.now.references + vec_len others.now.references ≤ 32 }
        ensures counted { IsTrue result → self.now.width + offset + others.now.width < most }
    {
        let count = self.references.len();
        let together = count.saturating_add(others.references.len());
        let end = self
            .width
            .saturating_add(offset)
            .saturating_add(others.width);
        count != 0 && together <= MOST_TOGETHER && end < usize::MAX
    }

    /// Appends other fields, after a gap of some bytes and fields, none of which is a reference. If memory runs out, the answer is
    /// `AllocError` and these fields are unspecified.
    pub(crate) fn append(
        &mut self,
        offset: usize,
        place: u64,
        others: &OwnLayout,
    ) -> Result<(), AllocError>
        ensures { OnOk result ((ids : IdSize) (slots between behind : List Slot) → IsOwn ids slots self.old → NoneRefers between
            → IsOwn ids behind others.now → offset ≡ width_of_slots ids between → place ≡ length between
            → width_of_slots ids (slots ++ (between ++ behind)) < most → IsOwn ids (slots ++ (between ++ behind)) self.new) }
    {
        let start = self.width.saturating_add(offset);
        let before = self.count.saturating_add(place);
        self.references.reserve_exact(others.references.len())?;
        for reference in others.references.iter() {
            self.references.push(reference.behind(start, before))?;
        }
        self.width = start.saturating_add(others.width);
        self.count = before.saturating_add(others.count);
        Ok(())
    }

    /// Appends the wanted references of the own fields. The bytes begin with the values of the own fields, and `place` fields come before
    /// them.
    #[inline(always)]
    pub(crate) fn push_references(
        &self,
        bytes: &[u8],
        ids: IdSize,
        place: u64,
        wanted: Wanted,
        references: &mut Vec<Reference>,
    ) -> Result<(), AllocError>
        ensures { OnOk result ((slots : List Slot) → IsOwn ids slots self.now → self.now.width ≤ length bytes.now
            → place + length slots < 2 ^ 64
            → references.new.items ≡ references.old.items ++ wanted_of wanted (references_in ids place slots bytes.now)) }
    {
        for own in self.references.iter() {
            let Some(to) = id_behind(bytes, own.offset, ids) else {
                return Ok(());
            };
            if wanted.wants(to) {
                references.push(Reference {
                    place: place.saturating_add(own.place),
                    to,
                })?;
            }
        }
        Ok(())
    }
}
