//! The stretch that goes on.

ghost use Rattle.std.specs.Prelude.{◌≡◌, ◌<◌, ◌-◌, ◌^◌};
ghost use Rattle.hprof_items.specs.FactValue.{FactValue};
ghost use Rattle.hprof_stream.specs.declared.limits.Limits.{Limits};
ghost use Rattle.hprof_objects.specs.Growing.{piece_begun};
ghost use Rattle.hprof_objects.specs.PartsRead.{PartRead, with_fact};
ghost use Rattle.hprof_objects.specs.Stretches.{IsPieceOf};

use crate::stretch::Stretch;
use hprof_stream::PartPlace;

/// Where the piece begins that is being read, and how many facts came since.
#[derive(Clone, Copy)]
pub(crate) struct Piece {
    pub(crate) place: PartPlace,
    pub(crate) passed: u64,
}

/// Returns the piece that begins at a place, of which no fact was taken.
pub(crate) fn piece_at(place: Option<PartPlace>) -> Option<Piece>
    ensures { result ≡ piece_begun place }
{
    match place {
        Some(place) => Some(Piece { place, passed: 0 }),
        None => None,
    }
}

/// Counts one fact more that was taken of the piece. Where they cannot be counted, no stretch may begin behind them.
#[inline(always)]
pub(crate) fn pass_one(piece: &mut Option<Piece>)
    ensures { (limits : Limits) (part : PartRead) (fact : FactValue) → IsPieceOf limits part piece.old
        → IsPieceOf limits (with_fact part fact) piece.new }
{
    if let Some(begun) = piece {
        if begun.passed < u64::MAX {
            begun.passed += 1;
            return;
        }
    }
    *piece = None;
}

/// Where the objects of a stretch are.
#[derive(Clone, Copy)]
pub(crate) enum Stands {
    /// They are the last rows in memory, from this one on.
    InMemory(usize),
    /// They stay in the part.
    InPart,
}

/// A stretch to which the next object belongs if it is above the last.
#[derive(Clone, Copy)]
pub(crate) struct Growing {
    pub(crate) stretch: Stretch,
    /// The identifier of its first object.
    pub(crate) first: u64,
    /// The identifier of its last object.
    pub(crate) last: u64,
    /// The number of bytes of its objects. It saturates.
    pub(crate) size: u64,
    pub(crate) stands: Stands,
}

impl Growing {
    ghost use Rattle.hprof_objects.specs.Growing.{extended, grown_first, grown_in_part};

    /// Adds one object more, in place.
    #[inline(always)]
    pub(crate) fn grow(&mut self, id: u64, len: usize)
        requires { self.old.stretch.count < 2 ^ 64 - 1 }
        ensures { self.new ≡ extended self.old id len }
    {
        self.stretch.count += 1;
        self.last = id;
        self.size = self.size.saturating_add(len as u64);
    }

    /// Returns the stretch with one object more.
    #[inline(always)]
    pub(crate) fn with(self, id: u64, len: usize) -> Growing
        requires { self.stretch.count < 2 ^ 64 - 1 }
        ensures { result ≡ extended self id len }
    {
        Growing {
            stretch: Stretch {
                count: self.stretch.count + 1,
                ..self.stretch
            },
            first: self.first,
            last: id,
            size: self.size.saturating_add(len as u64),
            stands: self.stands,
        }
    }

    /// Returns the stretch of one object: the next one behind what came of a piece, and the row in memory at that place.
    pub(crate) fn first(part: usize, piece: Piece, id: u64, len: usize, from: usize) -> Growing
        ensures { result ≡ grown_first part piece id len from }
    {
        Growing {
            stretch: Stretch {
                part,
                place: piece.place,
                passed: piece.passed,
                count: 1,
            },
            first: id,
            last: id,
            size: len as u64,
            stands: Stands::InMemory(from),
        }
    }

    /// Returns the stretch as one that stays in its part.
    pub(crate) fn in_part(self) -> Growing
        ensures { result ≡ grown_in_part self }
    {
        Growing {
            stands: Stands::InPart,
            ..self
        }
    }
}
