//! Dividing cuts into lists that ascend.

ghost use Rattle.std.specs.Prelude.{◌<◌, ◌≤◌, length, take, IfOk};
ghost use Rattle.hprof_objects.specs.AnyCuts.{AreApart};
ghost use Rattle.hprof_objects.specs.DividedCuts.{AreDivided};

use crate::any_cut::AnyCut;
use std::alloc::{AllocError, Global};

/// Returns the number of the first cuts of which each lies above the one before.
fn apart_count(cuts: &[AnyCut]) -> usize
    ensures within { result ≤ length cuts.now }
    ensures some { 0 < length cuts.now → 0 < result }
    ensures apart { AreApart (take result cuts.now) }
{
    let Some(first) = cuts.first() else {
        return 0;
    };
    let mut last = first.last();
    for index in 1..cuts.len() {
        let cut = cuts[index];
        if cut.first() <= last || cut.last() < cut.first() {
            return index;
        }
        last = cut.last();
    }
    cuts.len()
}

/// Divides cuts into lists in which identifiers can be looked up, and returns the number of cuts of each list.
pub(crate) fn divide(alloc: Global, cuts: &[AnyCut]) -> Result<Vec<usize>, AllocError>
    ensures { IfOk result (λ counts. AreDivided cuts.now counts.items) }
{
    let mut counts = Vec::new(alloc);
    let mut rest = cuts;
    while !rest.is_empty() {
        let count = apart_count(rest);
        counts.push(count)?;
        let (_, behind) = rest.split_at(count);
        rest = behind;
    }
    Ok(counts)
}
