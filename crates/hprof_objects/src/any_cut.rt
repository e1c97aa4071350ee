//! Cuts of stretches and of runs.

ghost use Rattle.std.specs.Prelude.{◌≡◌, ◌++◌, map, IfOk};
ghost use Rattle.hprof_runs.specs.Runs.{cuts_of};
ghost use Rattle.hprof_objects.specs.declared.any_cut.AnyCut.TheVariants.{InPart, InRun};

use crate::cut::Cut;
use crate::stored_objects::StoredObjects;
use hprof_runs::{RunCut, Scratch};
use std::alloc::{AllocError, Global};

/// Objects that ascend and can be read alone: a cut of a stretch in its part, or a cut of a run in scratch.
#[derive(Clone, Copy)]
pub(crate) enum AnyCut {
    /// A cut of a stretch.
    InPart(Cut),
    /// A cut of a run.
    InRun(RunCut),
}

impl AnyCut {
    ghost use Rattle.hprof_objects.specs.AnyCuts.{first_in, last_in, part_in};

    /// Returns the identifier of the first object.
    pub(crate) fn first(&self) -> u64
        ensures { result ≡ first_in self.now }
    {
        match self {
            AnyCut::InPart(cut) => cut.first,
            AnyCut::InRun(cut) => cut.first,
        }
    }

    /// Returns the identifier of the last object.
    pub(crate) fn last(&self) -> u64
        ensures { result ≡ last_in self.now }
    {
        match self {
            AnyCut::InPart(cut) => cut.last,
            AnyCut::InRun(cut) => cut.last,
        }
    }

    /// Returns the number of the part that the cut is in, and 0 if it is in scratch.
    pub(crate) fn part(&self) -> usize
        ensures { result ≡ part_in self.now }
    {
        match self {
            AnyCut::InPart(cut) => cut.stretch.part,
            AnyCut::InRun(_) => 0,
        }
    }
}

impl<S: Scratch + Drop> StoredObjects<S> {
    /// Returns the cuts of the stretches, and behind them those of the runs.
    pub(crate) fn all_cuts(&self, alloc: Global) -> Result<Vec<AnyCut>, AllocError>
        ensures { IfOk result (λ cuts. cuts.items ≡ map InPart self.now.cuts.items ++ map InRun (cuts_of self.now.runs)) }
    {
        let in_parts = self.cuts.iter().map(|cut| AnyCut::InPart(*cut));
        let in_runs = self.runs.cuts().iter().map(|cut| AnyCut::InRun(*cut));
        in_parts.chain(in_runs).collect(alloc)
    }
}
