//! The cuts of stored objects, in lists that ascend.

ghost use Rattle.hprof_objects.specs.DividedCuts.{AreDivided, AreDivided-prop};

use crate::any_cut::AnyCut;
use crate::dividing::divide;
use crate::searched::Searched;
use crate::stored_objects::StoredObjects;
use hprof_devices::Source;
use hprof_runs::Scratch;
use std::alloc::{AllocError, Global};

/// The cuts of the stretches and of the runs of stored objects, in lists. In a list each cut lies above the one before, so that
/// identifiers can be looked up. The lists are made once, for any number of picks.
#[derive(Drop)]
pub struct CutLists {
    /// The cuts, one list after another.
    cuts: Vec<AnyCut>,
    /// The number of cuts of each list.
    counts: Vec<usize>,
    ghost divided: { AreDivided cuts.items counts.items } by { AreDivided-prop cuts.items counts.items },
}

impl<S: Scratch + Drop> StoredObjects<S> {
    ghost use Rattle.std.specs.Prelude.{IfOk};
    ghost use Rattle.hprof_objects.specs.CutLists.{AreListsOf};

    /// Returns the lists of the cuts, for `pick_agreed`. They take memory for each cut. Nothing is read.
    ///
    /// The only error is that memory ran out.
    pub fn cut_lists(&self, alloc: Global) -> Result<CutLists, AllocError>
        ensures { IfOk result (AreListsOf self.now) }
    {
        let cuts = self.all_cuts(alloc)?;
        let counts = divide(alloc, &cuts)?;
        Ok(CutLists { cuts, counts })
    }
}

impl CutLists {
    ghost use Rattle.std.specs.Prelude.{IfOk};
    ghost use Rattle.hprof_objects.specs.SearchedLists.{Divides};

    /// Returns the number of lists.
    pub(crate) fn len(&self) -> usize {
        self.counts.len()
    }

    /// Returns the lists, of which no cut is open.
    pub(crate) fn searched<'a, S: Scratch + Drop, R: Source + Drop>(
        &'a self,
        alloc: Global,
    ) -> Result<Vec<Searched<'a, S, R>>, AllocError>
        ensures { IfOk result (λ lists. Divides self.now.cuts.items lists.items) }
    {
        let mut lists = Vec::with_capacity(alloc, self.counts.len())?;
        let mut rest = self.cuts.as_slice();
        let mut counts = self.counts.as_slice();
        while let Some((count, after)) = counts.split_first() {
            let (front, behind) = rest.split_at(*count);
            lists.push(Searched {
                cuts: front,
                cursor: None,
            })?;
            rest = behind;
            counts = after;
        }
        Ok(lists)
    }
}
