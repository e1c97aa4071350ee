//! Cutting a run.

ghost use Rattle.std.specs.Prelude.{◌≡◌, ◌+◌, ◌<◌, length, vec_capacity, vec_len, IfSome};
ghost use Rattle.hprof_runs.specs.RunCuts.{AddsCuts, TakesRow};

use crate::run_cut::RunCut;

/// Returns the number of bytes of a row in a run.
pub(crate) fn row_len(bytes: &[u8]) -> u64
    ensures { result ≡ 12 + length bytes.now }
{
    12 + bytes.len() as u64
}

/// Returns the cut with a row of so many bytes behind it, or another cut with that row, where it is full. If memory for another cut runs
/// out, the cut goes on. There is none if its bytes would end at 2^64 or beyond. There is room for the cut and so many others, also behind
/// it.
pub(crate) fn take_row(
    cuts: &mut Vec<RunCut>,
    others: usize,
    cut: RunCut,
    key: u64,
    len: u64,
) -> Option<RunCut>
    requires few { others < 2 }
    requires room { vec_len cuts.old + others < vec_capacity cuts.old }
    ensures takes { IfSome result (TakesRow cuts.old.items cut key len cuts.new.items) }
    ensures adds { AddsCuts cuts.old.items cuts.new.items }
    ensures room { vec_len cuts.new + others < vec_capacity cuts.new }
{
    if cut.is_full() && cuts.reserve(others + 2).is_ok() {
        cuts.push_reserved(cut);
        return RunCut::begin(cut.end(), key, len);
    }
    cut.extend(key, len)
}
