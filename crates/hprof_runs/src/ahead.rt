//! The lengths of the rows at the next places.

ghost use Rattle.std.specs.Prelude.{◌≡◌, ◌<◌, List, slice_index, drop};

use crate::place::{Place, bytes_at};

/// The number of rows whose lengths are read together.
const AHEAD: usize = 16;

/// The lengths of the rows at the next places. They are read together, so that a program waits for memory once for all of them, and not
/// once for each.
#[derive(Clone, Copy)]
pub(crate) struct Ahead {
    lengths: [usize; AHEAD],
    /// The number of lengths that are passed.
    passed: usize,
    ghost few: { passed < 16 },
}

impl Ahead {
    ghost use Rattle.hprof_runs.specs.declared.place.Place.{Place};
    ghost use Rattle.hprof_runs.specs.Ahead.{AreAhead};

    /// Reads the lengths of the rows at the first places.
    pub(crate) fn read(bytes: &[u8], places: &[Place]) -> Self
        ensures { AreAhead bytes.now places.now result }
    {
        let mut lengths = [0; AHEAD];
        for i in 0..places.len().min(AHEAD) {
            lengths[i] = bytes_at(bytes, places[i]).len();
        }
        Ahead { lengths, passed: 0 }
    }

    /// Returns the length of the row at the first place.
    #[inline(always)]
    pub(crate) fn first(&self) -> usize
        ensures { result ≡ slice_index self.now.lengths self.now.passed }
    {
        self.lengths[self.passed]
    }

    /// Passes so many places, behind which these come. If all lengths are passed, it reads the next ones.
    #[inline(always)]
    pub(crate) fn pass(&mut self, count: usize, bytes: &[u8], behind: &[Place])
        ensures { (places : List Place) → AreAhead bytes.now places self.old → behind.now ≡ drop count places
            → AreAhead bytes.now behind.now self.new }
    {
        if count < AHEAD - self.passed {
            self.passed += count;
        } else {
            *self = Ahead::read(bytes, behind);
        }
    }
}
