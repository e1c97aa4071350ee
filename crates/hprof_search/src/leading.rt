//! Following the edges of the nodes of a level.

ghost use Rattle.std.specs.Prelude.{◌≡◌, ◌↔◌, ◌<◌, ℕ, OnOk, All, length};
ghost use Rattle.std.specs.List.Sorted.{IsNonDecreasing};
ghost use Rattle.hprof_numbers.specs.Numbered.{nodes_in};
ghost use Rattle.hprof_search.specs.Finds.{Follows, LeadsOn, finds_of};

use crate::following::follow;
use crate::steps::Steps;
use crate::trail::Trail;
use hprof_numbers::Numbered;
use std::alloc::AllocError;

/// Finds the nodes that the edges of a level lead to. `numbers` is scratch space. If memory runs out, the answer is `AllocError`, and
/// `numbers` and `trail` are unspecified.
pub(crate) fn lead_on<S: Steps>(
    steps: &mut S,
    numbered: &Numbered,
    level: &[u32],
    numbers: &mut Vec<u32>,
    trail: &mut Trail,
) -> Result<(), AllocError>
    requires stands { S.stands steps.old (nodes_in numbered.now) }
    requires ascend { IsNonDecreasing level.now }
    requires within { All (λ number. number < length (nodes_in numbered.now)) level.now }
    requires as_many { length trail.old.found.items ≡ length (nodes_in numbered.now) }
    ensures ok { OnOk result (Follows (LeadsOn (S.leads steps.old (nodes_in numbered.now)) (nodes_in numbered.now) level.now)
        (finds_of trail.old) (finds_of trail.new)) }
    ensures stays { (from to : ℕ) → S.leads steps.new (nodes_in numbered.now) from to
        ↔ S.leads steps.old (nodes_in numbered.now) from to }
    ensures stands { S.stands steps.new (nodes_in numbered.now) }
{
    for number in level {
        let from = *number as usize;
        steps.steps_from(numbered, from, numbers)?;
        follow(from, numbers, trail)?;
    }
    Ok(())
}
