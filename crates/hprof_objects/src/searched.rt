//! Looking up identifiers in cuts.

ghost use Rattle.std.specs.Prelude.{ℕ, ◌≡◌, ◌∷◌, List, IfOk, OnOk, IfErr};
ghost use Rattle.hprof_runs.specs.Runs.{scratch_of};
ghost use Rattle.hprof_objects.specs.declared.any_cut.AnyCut.{AnyCut};
ghost use Rattle.hprof_objects.specs.AnyCuts.{AreApart, TellsCut};
ghost use Rattle.hprof_objects.specs.Searched.{BeginFrom, Finds, Gives, IsOpenAt, IsReady, KeepsFrom};
ghost use Rattle.hprof_objects.specs.Searched.{OpenCanGoOn, PassesBelow, StopsIn, open_shown};

use crate::any_cut::AnyCut;
use crate::cut_reader::{CutCursor, CutReader, cut_stop, open_cut};
use crate::object_fault::ObjectFault;
use crate::seeking::go_up_to;
use hprof_devices::Source;
use hprof_merge::{RowCursor, RowSink};
use hprof_parts::Parts;
use hprof_runs::Scratch;

/// Cuts of which each lies above the one before. Identifiers are looked up in them in ascending order, so that no cut is read twice.
#[derive(Drop)]
pub(crate) struct Searched<'a, S, R: Source + Drop> {
    /// The cuts but those below the last identifier.
    pub(crate) cuts: &'a [AnyCut],
    /// A cursor over the first of them, once it was opened.
    pub(crate) cursor: Option<CutCursor<'a, S, R>>,
}

impl<'a, S: Scratch + Drop, R: Source + Drop> Searched<'a, S, R> {
    /// Passes the cuts that lie below an identifier, by binary search.
    fn pass_below(&mut self, id: u64)
        requires { AreApart self.old.cuts.now }
        ensures passes { PassesBelow id self.old self.new }
        ensures from { BeginFrom id self.new.cuts.now }
    {
        let Some(cut) = self.cuts.first() else {
            return;
        };
        if cut.last() >= id {
            return;
        }
        let count = self.cuts.partition_point(|cut| cut.last() < id);
        let (_, rest) = self.cuts.split_at(count);
        self.cuts = rest;
        self.cursor = None;
    }

    /// Opens the first cut, unless it is open.
    fn open_first<P: Parts<Reader = R>, F>(
        &mut self,
        reader: &CutReader<'a, S, P>,
        cut: &AnyCut,
        id: u64,
    ) -> Result<(), ObjectFault<F>>
        requires first { (rest : List AnyCut) × (self.old.cuts.now ≡ cut.now ∷ rest) }
        requires ready { IsReady S.written R.left R.health R.pulls (scratch_of reader.now.runs.now) reader.now.limits
            (P.bytes reader.now.parts.now) id self.old }
        ensures open { OnOk result (IsOpenAt S.written R.left R.health R.pulls (scratch_of reader.now.runs.now) reader.now.limits
            (P.bytes reader.now.parts.now) cut.now id self.new.cursor) }
        ensures cuts { self.new.cuts.now ≡ self.old.cuts.now }
        ensures tells { IfErr result (TellsCut S.written (scratch_of reader.now.runs.now) reader.now.limits
            (P.bytes reader.now.parts.now) S.unreadable cut.now) }
    {
        if self.cursor.is_some() {
            return Ok(());
        }
        match open_cut(reader, cut) {
            Ok(cursor) => {
                self.cursor = Some(cursor);
                Ok(())
            }
            Err(stop) => Err(stop),
        }
    }

    /// Returns whether one of the cuts has an object of an identifier, which is shown then. No identifier before was above it.
    pub(crate) fn seek<P: Parts<Reader = R>, F>(
        &mut self,
        reader: &CutReader<'a, S, P>,
        id: u64,
    ) -> Result<bool, ObjectFault<F>>
        requires { IsReady S.written R.left R.health R.pulls (scratch_of reader.now.runs.now) reader.now.limits
            (P.bytes reader.now.parts.now) id self.old }
        ensures ready { OnOk result (IsReady S.written R.left R.health R.pulls (scratch_of reader.now.runs.now) reader.now.limits
            (P.bytes reader.now.parts.now) id self.new) }
        ensures keeps { KeepsFrom id self.old.cuts.now self.new.cuts.now }
        ensures finds { IfOk result (λ found. Finds S.written (scratch_of reader.now.runs.now) reader.now.limits
            (P.bytes reader.now.parts.now) id found self.old.cuts.now (open_shown self.new.cursor)) }
        ensures stops { IfErr result (StopsIn S.written (scratch_of reader.now.runs.now) reader.now.limits
            (P.bytes reader.now.parts.now) S.unreadable self.old.cuts.now) }
    {
        self.pass_below(id);
        let cuts = self.cuts;
        let Some(cut) = cuts.first() else {
            return Ok(false);
        };
        if cut.first() > id {
            return Ok(false);
        }
        self.open_first(reader, cut, id)?;
        let Some(cursor) = &mut self.cursor else {
            unreachable!()
        };
        match go_up_to(cursor, id) {
            Ok(found) => Ok(found),
            Err(fault) => Err(cut_stop(cut, fault)),
        }
    }

    /// Gives the object that is shown to a sink.
    pub(crate) fn give<T: RowSink>(&self, sink: &mut T) -> Result<(), T::Fault>
        requires can { OpenCanGoOn R.health self.now.cursor }
        requires sink { T.well sink.old }
        ensures gives { Gives T.steps T.refuses (open_shown self.now.cursor) result sink.old sink.new }
        ensures well { OnOk result (T.well sink.new) }
    {
        let Some(cursor) = &self.cursor else {
            return Ok(());
        };
        match cursor.current() {
            Some((key, bytes)) => sink.take(key, bytes),
            None => Ok(()),
        }
    }
}
