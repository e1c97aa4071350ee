//! The rows of a thread's objects, by the place that holds them.

ghost use Rattle.std.specs.Prelude.{◌≡◌, ℕ, List};
ghost use Rattle.std.specs.List.{filter};
ghost use Rattle.hprof_items.specs.FactValue.{FactValue};
ghost use Rattle.hprof_threads.specs.Held.{AreHeldBy};
ghost use Rattle.hprof_holders.specs.ThreadsText.{is_elsewhere, is_in_frame};

use hprof_threads::{Held, Place};

/// Returns whether an object is held in the frame with that number.
fn is_in_frame(number: u64, held: &Held) -> bool
    ensures { result ≡ is_in_frame number held.now }
{
    match held.place {
        Place::Frame(frame) => u64::from(frame) == number,
        _ => false,
    }
}

/// Returns whether an object is held elsewhere than in the first frames of a stack, of which there are so many.
fn is_elsewhere(count: u64, held: &Held) -> bool
    ensures { result ≡ is_elsewhere count held.now }
{
    match held.place {
        Place::Frame(frame) => count <= u64::from(frame),
        _ => true,
    }
}

/// Returns the rows of a thread that are held elsewhere than in the first frames, by binary search.
pub(crate) fn rows_elsewhere(rows: &[Held], count: u64) -> &[Held]
    ensures { (facts : List FactValue) (serial : ℕ) → AreHeldBy facts serial rows.now
        → result.now ≡ filter (is_elsewhere count) rows.now }
{
    let start = rows.partition_point(|held| !is_elsewhere(count, held));
    let (_, rest) = rows.split_at(start);
    rest
}

/// Returns the rows of a thread that are held in the frame with that number, by binary search.
pub(crate) fn rows_in_frame(rows: &[Held], number: u64) -> &[Held]
    ensures { (facts : List FactValue) (serial : ℕ) → AreHeldBy facts serial rows.now
        → result.now ≡ filter (is_in_frame number) rows.now }
{
    let rest = rows_elsewhere(rows, number);
    let count = rest.partition_point(|held| is_in_frame(number, held));
    let (run, _) = rest.split_at(count);
    run
}
