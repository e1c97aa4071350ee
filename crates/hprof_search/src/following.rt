//! Finding nodes that were not found before.

ghost use Rattle.std.specs.Prelude.{◌≡◌, ◌<◌, All, OnOk, None, length};
ghost use Rattle.hprof_numbers.specs.Numbered.{nodes_in};
ghost use Rattle.hprof_search.specs.Finds.{Follows, LeadsFrom, LeadsTo, finds_of};

use crate::trail::Trail;
use hprof_numbers::Numbered;
use std::alloc::AllocError;

/// Finds the starts that are nodes, each from itself. If memory runs out, the answer is `AllocError` and `trail` is unspecified.
pub(crate) fn begin(
    numbered: &Numbered,
    starts: &[u64],
    trail: &mut Trail,
) -> Result<(), AllocError>
    requires as_many { length trail.old.found.items ≡ length (nodes_in numbered.now) }
    ensures { OnOk result (Follows (LeadsTo (nodes_in numbered.now) None starts.now) (finds_of trail.old) (finds_of trail.new)) }
{
    for start in starts {
        if let Some(number) = numbered.number_of(*start) {
            trail.arrive(number, number)?;
        }
    }
    Ok(())
}

/// Finds the nodes with these numbers from another. If memory runs out, the answer is `AllocError` and `trail` is unspecified.
#[inline(always)]
pub(crate) fn follow(from: usize, numbers: &[u32], trail: &mut Trail) -> Result<(), AllocError>
    requires from { from < length trail.old.found.items }
    requires below { All (λ number. number < length trail.old.found.items) numbers.now }
    ensures { OnOk result (Follows (LeadsFrom from numbers.now) (finds_of trail.old) (finds_of trail.new)) }
{
    for number in numbers {
        trail.arrive(*number as usize, from)?;
    }
    Ok(())
}
