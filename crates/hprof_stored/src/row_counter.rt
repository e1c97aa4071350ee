//! A sink that counts rows.

use hprof_merge::RowSink;

/// The reason why a row is refused: the count is the greatest `u64`.
#[derive(Clone, Copy, Debug, PartialEq, Eq)]
pub(crate) struct CountFull;

/// The number of rows that it was given.
#[derive(Drop)]
pub(crate) struct RowCounter {
    pub(crate) count: u64,
}

impl RowSink for RowCounter {
    ghost use Rattle.std.specs.Prelude.{⊤};
    ghost use Rattle.hprof_stored.specs.RowCounter.{Counts, IsFull};

    ghost steps = { λ old key bytes new. Counts old new };

    ghost refuses = { λ old key bytes fault new. IsFull old };

    ghost well = { λ it. ⊤ };

    type Fault = CountFull;

    fn take(&mut self, _key: u64, _bytes: &[u8]) -> Result<(), CountFull> {
        match self.count.checked_add(1) {
            Some(count) => {
                self.count = count;
                Ok(())
            }
            None => Err(CountFull),
        }
    }
}
