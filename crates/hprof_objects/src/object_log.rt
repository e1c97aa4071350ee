//! The log of the objects of parts, as they are read.

ghost use Rattle.std.specs.Prelude.{ℕ, ◌≡◌, ◌<◌, ◌-◌, ◌^◌, ◌∷◌, ◌++◌, [], List, length, vec_len, vec_capacity, true, Some, None, IfOk};
ghost use Rattle.std.specs.Prelude.{OnOk, IsSome};
ghost use Rattle.hprof_devices.specs.declared.health.Health.TheVariants.{Well};
ghost use Rattle.hprof_items.specs.FactValue.{FactValue};
ghost use Rattle.hprof_runs.specs.ReadBack.{HoldsNothing};
ghost use Rattle.hprof_runs.specs.ScratchFault.{LeavesScratch};
ghost use Rattle.hprof_stream.specs.declared.limits.Limits.{Limits};
ghost use Rattle.hprof_values.specs.declared.ids.IdSize.{IdSize};
ghost use Rattle.hprof_objects.specs.ObjectRows.{object_row};
ghost use Rattle.hprof_objects.specs.PartsRead.{PartRead, part_begun, with_bytes, with_fact};
ghost use Rattle.hprof_objects.specs.Cuts.{last_cut};
ghost use Rattle.hprof_objects.specs.Growing.{staying};
ghost use Rattle.hprof_objects.specs.Reserved.{IsReserved, IsReserved-prop};
ghost use Rattle.hprof_objects.specs.Stretches.{IsPieceOf};

use crate::cut::Cut;
use crate::growing::{Growing, Piece, Stands, pass_one, piece_at};
use crate::keeping::Keeping;
use crate::open_cut::{OpenCut, is_due, keep_cut};
use crate::row_store::RowStore;
use crate::stored_objects::StoredObjects;
use crate::stretch::Stretch;
use hprof_runs::{Scratch, ScratchFault};
use hprof_stream::PartPlace;
use std::alloc::{AllocError, Global};

/// The objects of parts, in the order in which they are read: which stretches stay in their part, and all others as rows.
#[derive(Drop)]
pub struct ObjectLog<S> {
    keeping: Keeping,
    pub(crate) store: RowStore<S>,
    pub(crate) stretches: Vec<Stretch>,
    /// The cuts of the stretches that stay, but the last one of the growing stretch.
    pub(crate) cuts: Vec<Cut>,
    /// The last cut of the growing stretch, if that stays.
    pub(crate) cut: Option<OpenCut>,
    /// Whether the next object of the growing stretch begins another cut.
    due: bool,
    /// The number of the part that is being read.
    pub(crate) part: usize,
    /// The number of stretches that stay in it.
    staying: usize,
    /// The piece that is being read, unless no stretch may begin in it.
    pub(crate) piece: Option<Piece>,
    pub(crate) growing: Option<Growing>,
    // There is room for a growing stretch that stays.
    ghost reserved: { IsReserved growing (vec_len stretches) (vec_capacity stretches) } by { IsReserved-prop growing (vec_len stretches)
        (vec_capacity stretches) },
    // There is room for its last cut.
    ghost reserved_cut: { IsReserved growing (vec_len cuts) (vec_capacity cuts) } by { IsReserved-prop growing (vec_len cuts)
        (vec_capacity cuts) },
}

/// Adds the growing stretch to those that stay, if it stays. There is room for it.
fn keep(stretches: &mut Vec<Stretch>, growing: Option<Growing>)
    requires { IsReserved growing (vec_len stretches.old) (vec_capacity stretches.old) }
    ensures { stretches.new.items ≡ stretches.old.items ++ staying growing }
{
    if let Some(
        Growing {
            stretch,
            stands: Stands::InPart,
            ..
        },
    ) = growing
    {
        stretches.push_reserved(stretch);
    }
}

impl<S: Scratch + Drop> ObjectLog<S> {
    ghost use Rattle.hprof_objects.specs.Log.{HasLogged, HoldsParts, IsPlaceNow, KeepsLogged, KeepsUngrown, scratch_of_log};
    ghost use Rattle.hprof_objects.specs.StoredObjects.{HoldsObjects, scratch_under};
    ghost use Rattle.hprof_objects.specs.Store.{StandsLast, rows_of_store};
    ghost use Rattle.hprof_objects.specs.Stretches.{IsGrowingStretch, IsPieceOf};
    ghost use Rattle.hprof_objects.specs.declared.growing.Stands.TheVariants.{InMemory, InPart};
    ghost use Rattle.hprof_merge.specs.Rows.{ByteRow};

    /// Returns a log without objects.
    pub fn new(alloc: Global, scratch: S, keeping: Keeping) -> Result<Self, AllocError>
        requires { HoldsNothing (S.written scratch) }
        ensures scratch { IfOk result (λ log. scratch_of_log log ≡ scratch) }
        ensures holds { IfOk result (λ log. IsSome (S.written scratch) → (limits : Limits) → HoldsParts S.written S.health limits [] log) }
    {
        Ok(ObjectLog {
            keeping,
            store: RowStore::new(alloc, scratch, keeping.memory)?,
            stretches: Vec::new(alloc),
            cuts: Vec::new(alloc),
            cut: None,
            due: false,
            part: 0,
            staying: 0,
            piece: None,
            growing: None,
        })
    }

    /// Ends the growing stretch.
    fn close(&mut self)
        ensures log { (limits : Limits) (parts : List PartRead) (part : PartRead) → HasLogged S.written S.health limits parts part self.old
            → HasLogged S.written S.health limits parts part self.new }
        ensures none { self.new.growing ≡ None }
        ensures stretches { self.new.stretches.items ≡ self.old.stretches.items ++ staying self.old.growing }
        ensures cuts { self.new.cuts.items ≡ self.old.cuts.items ++ last_cut self.old.growing self.old.cut }
        ensures store { self.new.store ≡ self.old.store }
        ensures piece { self.new.piece ≡ self.old.piece }
        ensures part { self.new.part ≡ self.old.part }
    {
        let growing = self.growing;
        let cut = self.cut;
        self.growing = None;
        self.cut = None;
        keep(&mut self.stretches, growing);
        keep_cut(&mut self.cuts, growing, cut);
    }

    /// Begins the part of that number. The parts before it have come to their ends.
    pub fn begin(&mut self, part: usize)
        ensures log { (limits : Limits) (parts : List PartRead) (ids : IdSize) → HoldsParts S.written S.health limits parts self.old
            → part ≡ length parts → HasLogged S.written S.health limits parts (part_begun ids) self.new }
        ensures scratch { scratch_of_log self.new ≡ scratch_of_log self.old }
    {
        self.close();
        self.part = part;
        self.staying = 0;
        self.piece = None;
    }

    /// Ends the part that is being read.
    pub fn end(&mut self)
        ensures log { (limits : Limits) (parts : List PartRead) (part : PartRead) → HasLogged S.written S.health limits parts part self.old
            → HoldsParts S.written S.health limits (parts ++ part ∷ []) self.new }
        ensures scratch { scratch_of_log self.new ≡ scratch_of_log self.old }
    {
        self.close();
    }

    /// Notes where the next piece of the part begins: behind all facts that were taken. Without a place, no stretch begins in it.
    pub fn note(&mut self, place: Option<PartPlace>)
        ensures log { (limits : Limits) (parts : List PartRead) (part : PartRead) (more : List ℕ)
            → HasLogged S.written S.health limits parts part self.old → IsPlaceNow limits (with_bytes part more) place
            → HasLogged S.written S.health limits parts (with_bytes part more) self.new }
        ensures scratch { scratch_of_log self.new ≡ scratch_of_log self.old }
    {
        self.due = is_due(self.cut, place);
        self.piece = piece_at(place);
    }

    /// Ends the growing stretch, if there is one, and returns the objects as they are stored. Those in memory are sorted.
    pub fn finish(self) -> StoredObjects<S>
        ensures holds { (limits : Limits) (parts : List PartRead) → HoldsParts S.written S.health limits parts self
            → HoldsObjects S.written S.health limits parts result }
        ensures scratch { scratch_under result ≡ scratch_of_log self }
    {
        let ObjectLog {
            store,
            mut stretches,
            mut cuts,
            growing,
            cut,
            ..
        } = self;
        keep(&mut stretches, growing);
        keep_cut(&mut cuts, growing, cut);
        let RowStore { rows, runs, .. } = store;
        StoredObjects {
            rows: rows.sort(),
            runs,
            stretches,
            cuts,
        }
    }

    /// Goes past a fact that is no object.
    pub fn skip(&mut self)
        ensures log { (limits : Limits) (parts : List PartRead) (part : PartRead) (fact : FactValue)
            → HasLogged S.written S.health limits parts part self.old → object_row part.ids fact ≡ None
            → HasLogged S.written S.health limits parts (with_fact part fact) self.new }
        ensures scratch { scratch_of_log self.new ≡ scratch_of_log self.old }
    {
        pass_one(&mut self.piece);
    }

    /// Returns whether a stretch of so many bytes may stay in its part. Then there is room for it, and for a cut.
    fn may_stay(&mut self, size: u64) -> bool
        requires { self.old.growing ≡ None }
        ensures room { result ≡ true → vec_len self.new.stretches < vec_capacity self.new.stretches }
        ensures room_cut { result ≡ true → vec_len self.new.cuts < vec_capacity self.new.cuts }
        ensures none { self.new.growing ≡ None }
        ensures store { self.new.store ≡ self.old.store }
        ensures stretches { self.new.stretches.items ≡ self.old.stretches.items }
        ensures cuts { self.new.cuts.items ≡ self.old.cuts.items }
        ensures piece { self.new.piece ≡ self.old.piece }
        ensures part { self.new.part ≡ self.old.part }
    {
        if size < self.keeping.stretch || self.staying >= self.keeping.stretches {
            return false;
        }
        self.stretches.reserve(1).is_ok() && self.cuts.reserve(1).is_ok()
    }

    /// Goes on with a stretch whose rows are the last ones in memory, from this one on. If it is long enough, it stays in its part, and
    /// they leave the memory.
    fn settle(&mut self, growing: Growing, from: usize)
        requires { growing.stands ≡ InMemory from }
        ensures log { (limits : Limits) (parts : List PartRead) (part : PartRead) (rows : List ByteRow)
            → IsGrowingStretch limits self.old.part part growing (rows_of_store self.old.store) rows
            → KeepsUngrown S.written S.health limits parts part self.old
            → KeepsLogged S.written S.health limits parts part self.new }
        ensures scratch { scratch_of_log self.new ≡ scratch_of_log self.old }
        ensures piece { self.new.piece ≡ self.old.piece }
    {
        self.growing = None;
        if self.may_stay(growing.size) {
            self.store.truncate(from);
            self.staying = self.staying.saturating_add(1);
            self.cut = Some(OpenCut::whole(&growing));
            self.due = false;
            self.growing = Some(growing.in_part());
        } else {
            self.growing = Some(growing);
        }
    }

    /// Begins a stretch with an object whose row is the last one in memory, if the piece has a place.
    fn begin_stretch(&mut self, id: u64, len: usize, from: usize)
        requires { self.old.growing ≡ None }
        ensures log { (limits : Limits) (parts : List PartRead) (part : PartRead) (fact : FactValue) (bytes : List ℕ) (front : List ByteRow)
            → IsPieceOf limits part self.old.piece → object_row part.ids fact ≡ Some (id, bytes)
            → rows_of_store self.old.store ≡ front ++ (id, bytes) ∷ [] → length front ≡ from
            → KeepsUngrown S.written S.health limits parts (with_fact part fact) self.old
            → KeepsLogged S.written S.health limits parts (with_fact part fact) self.new }
        ensures scratch { scratch_of_log self.new ≡ scratch_of_log self.old }
        ensures piece { self.new.piece ≡ self.old.piece }
    {
        if let Some(piece) = self.piece {
            let growing = Growing::first(self.part, piece, id, len, from);
            self.settle(growing, from);
        }
    }

    /// Adds the row of an object, and returns whether the rows before it went to scratch.
    fn push(&mut self, id: u64, spelled: &[u8]) -> Result<bool, ScratchFault>
        requires short { length spelled.now < 2 ^ 32 }
        requires well { S.health (scratch_of_log self.old) ≡ Well }
        requires none { self.old.growing ≡ None }
        ensures log { OnOk result ((limits : Limits) (parts : List PartRead) (part : PartRead) (fact : FactValue)
            → KeepsUngrown S.written S.health limits parts part self.old → object_row part.ids fact ≡ Some (id, spelled.now)
            → KeepsUngrown S.written S.health limits parts (with_fact part fact) self.new) }
        ensures row { IfOk result (λ spilled. StandsLast spilled (rows_of_store self.old.store) (id, spelled.now)
            (rows_of_store self.new.store)) }
        ensures none { self.new.growing ≡ None }
        ensures piece { self.new.piece ≡ self.old.piece }
        ensures part { self.new.part ≡ self.old.part }
        ensures health { LeavesScratch result (S.health (scratch_of_log self.new)) }
    {
        self.store.push(id, spelled)
    }

    /// Takes an object that does not belong to the growing stretch.
    fn start(&mut self, id: u64, spelled: &[u8]) -> Result<(), ScratchFault>
        requires short { length spelled.now < 2 ^ 32 }
        requires well { S.health (scratch_of_log self.old) ≡ Well }
        ensures log { OnOk result ((limits : Limits) (parts : List PartRead) (part : PartRead) (fact : FactValue)
            → HasLogged S.written S.health limits parts part self.old → object_row part.ids fact ≡ Some (id, spelled.now)
            → KeepsLogged S.written S.health limits parts (with_fact part fact) self.new) }
        ensures piece { self.new.piece ≡ self.old.piece }
        ensures health { LeavesScratch result (S.health (scratch_of_log self.new)) }
    {
        self.close();
        let before = self.store.len();
        match self.push(id, spelled) {
            Ok(true) => self.begin_stretch(id, spelled.len(), 0),
            Ok(false) => self.begin_stretch(id, spelled.len(), before),
            Err(fault) => return Err(fault),
        }
        Ok(())
    }

    /// Takes an object behind those of the growing stretch, which are the last rows in memory, from this one on.
    fn extend(
        &mut self,
        growing: Growing,
        from: usize,
        id: u64,
        spelled: &[u8],
    ) -> Result<(), ScratchFault>
        requires short { length spelled.now < 2 ^ 32 }
        requires well { S.health (scratch_of_log self.old) ≡ Well }
        requires growing { self.old.growing ≡ Some growing }
        requires from { growing.stands ≡ InMemory from }
        requires above { growing.last < id }
        requires count { growing.stretch.count < 2 ^ 64 - 1 }
        ensures log { OnOk result ((limits : Limits) (parts : List PartRead) (part : PartRead) (fact : FactValue)
            → HasLogged S.written S.health limits parts part self.old → object_row part.ids fact ≡ Some (id, spelled.now)
            → KeepsLogged S.written S.health limits parts (with_fact part fact) self.new) }
        ensures piece { self.new.piece ≡ self.old.piece }
        ensures health { LeavesScratch result (S.health (scratch_of_log self.new)) }
    {
        self.growing = None;
        match self.push(id, spelled) {
            Ok(true) => self.begin_stretch(id, spelled.len(), 0),
            Ok(false) => self.settle(growing.with(id, spelled.len()), from),
            Err(fault) => return Err(fault),
        }
        Ok(())
    }

    /// Takes an object behind those of the growing stretch, which stays in its part. The object begins another cut, unless memory for it is
    /// refused.
    #[inline(never)]
    fn cut_at(&mut self, growing: Growing, id: u64, len: usize)
        requires growing { self.old.growing ≡ Some growing }
        requires stands { growing.stands ≡ InPart }
        requires above { growing.last < id }
        requires count { growing.stretch.count < 2 ^ 64 - 1 }
        ensures log { (limits : Limits) (parts : List PartRead) (part : PartRead) (fact : FactValue) (bytes : List ℕ)
            → HasLogged S.written S.health limits parts part self.old → object_row part.ids fact ≡ Some (id, bytes)
            → KeepsLogged S.written S.health limits parts (with_fact part fact) self.new }
        ensures store { self.new.store ≡ self.old.store }
        ensures piece { self.new.piece ≡ self.old.piece }
    {
        self.due = false;
        self.growing = Some(growing.with(id, len));
        let Some(piece) = self.piece else {
            return;
        };
        let Some(cut) = self.cut else {
            return;
        };
        if self.cuts.reserve(2).is_err() {
            return;
        }
        self.cuts.push_reserved(cut.end(&growing));
        self.cut = Some(OpenCut::behind(&growing, piece, id));
    }

    /// Takes an object, with the bytes of its sub-record, and does not go on in the piece.
    #[inline(always)]
    fn take_row(&mut self, id: u64, spelled: &[u8]) -> Result<(), ScratchFault>
        requires short { length spelled.now < 2 ^ 32 }
        requires well { S.health (scratch_of_log self.old) ≡ Well }
        ensures log { OnOk result ((limits : Limits) (parts : List PartRead) (part : PartRead) (fact : FactValue)
            → HasLogged S.written S.health limits parts part self.old → object_row part.ids fact ≡ Some (id, spelled.now)
            → KeepsLogged S.written S.health limits parts (with_fact part fact) self.new) }
        ensures piece { self.new.piece ≡ self.old.piece }
        ensures health { LeavesScratch result (S.health (scratch_of_log self.new)) }
    {
        let due = self.due;
        match &mut self.growing {
            Some(growing) if growing.last < id && growing.stretch.count < u64::MAX => {
                match growing.stands {
                    Stands::InPart => {
                        if due {
                            let growing = *growing;
                            self.cut_at(growing, id, spelled.len());
                            return Ok(());
                        }
                        growing.grow(id, spelled.len());
                        Ok(())
                    }
                    Stands::InMemory(from) => {
                        let growing = *growing;
                        self.extend(growing, from, id, spelled)
                    }
                }
            }
            _ => self.start(id, spelled),
        }
    }

    /// Takes an object, with the bytes of its sub-record.
    ///
    /// # Errors
    ///
    /// - `OutOfMemory`: memory ran out, also after the objects in memory had gone to scratch.
    /// - `Full`, `Write`: the scratch took no more.
    ///
    /// The log is not used again then.
    #[inline(always)]
    pub fn take(&mut self, id: u64, spelled: &[u8]) -> Result<(), ScratchFault>
        requires short { length spelled.now < 2 ^ 32 }
        requires well { S.health (scratch_of_log self.old) ≡ Well }
        ensures log { OnOk result ((limits : Limits) (parts : List PartRead) (part : PartRead) (fact : FactValue)
            → HasLogged S.written S.health limits parts part self.old → object_row part.ids fact ≡ Some (id, spelled.now)
            → HasLogged S.written S.health limits parts (with_fact part fact) self.new) }
        ensures health { LeavesScratch result (S.health (scratch_of_log self.new)) }
    {
        let outcome = self.take_row(id, spelled);
        pass_one(&mut self.piece);
        outcome
    }
}
