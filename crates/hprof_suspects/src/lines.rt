//! The lines of the report.

ghost use Rattle.std.specs.Prelude.{◌≡◌, ◌≢◌, ◌≤◌, ◌*◌, ◌/◌, ◌++◌, IfOk, codes, string_bytes};
ghost use Rattle.std.specs.Fmt.{decimal};
ghost use Rattle.hprof_retained.specs.Tree.{total_of};
ghost use Rattle.hprof_suspects.specs.LabelSums.{sum_of};
ghost use Rattle.hprof_suspects.specs.SuspectsText.{piece_line, suspect_line};

use crate::piece_lines::{PieceLine, text_if_any};
use hprof_by_label::NodeLabels;
use hprof_retained::Retained;
use std::alloc::{AllocError, Global};

/// Returns how many hundredths of all a part is, rounded down.
fn hundredths(all: u128, part: u128) -> u128
    requires some { all ≢ 0 }
    requires within { part ≤ all }
    ensures { result ≡ 100 * part / all }
{
    let mut count = 0;
    let mut rest = 0;
    // A hundred times the part may be too large a number, so it is divided as it is added up.
    for _turn in 0..100_usize {
        if rest >= all - part {
            rest -= all - part;
            count += 1;
        } else {
            rest += part;
        }
    }
    count
}

/// Returns the first line of a suspect. If memory runs out, the answer is `AllocError`.
pub(crate) fn suspect_line(
    alloc: Global,
    retained: &Retained,
    pieces: u128,
) -> Result<String, AllocError>
    requires some { (total_of retained.now).bytes ≢ 0 }
    requires within { pieces ≤ (total_of retained.now).bytes }
    ensures { IfOk result (λ line. string_bytes line ≡ suspect_line (total_of retained.now) pieces) }
{
    let percent = hundredths(retained.bytes(0), pieces);
    format!(in alloc; "suspect {percent}% {pieces}\n")
}

/// Returns the line of the pieces with a label. If memory runs out, the answer is `AllocError`.
pub(crate) fn piece_line(
    alloc: Global,
    labels: &NodeLabels,
    line: &PieceLine,
) -> Result<String, AllocError>
    ensures { IfOk result (λ text. string_bytes text ≡ piece_line (sum_of labels.now line.now)) }
{
    let bytes = line.bytes;
    let count = line.count;
    let label = text_if_any(labels, line.label);
    format!(in alloc; "  {bytes} {count} {label}\n")
}

/// Returns the line of nodes that are left out. If memory runs out, the answer is `AllocError`.
pub(crate) fn more_line(alloc: Global, count: usize) -> Result<String, AllocError>
    ensures { IfOk result (λ line. string_bytes line ≡ codes ".. " ++ decimal count ++ codes " more\n") }
{
    format!(in alloc; ".. {count} more\n")
}
