//! The last cut of a stretch that goes on.

ghost use Rattle.std.specs.Prelude.{◌≡◌, ◌++◌, vec_capacity, vec_len};
ghost use Rattle.hprof_objects.specs.Cuts.{last_cut};
ghost use Rattle.hprof_objects.specs.Reserved.{IsReserved};

use crate::cut::Cut;
use crate::growing::{Growing, Piece, Stands};
use crate::stretch::Stretch;
use hprof_stream::PartPlace;

/// The last cut of a growing stretch: all of its objects behind the first ones.
#[derive(Clone, Copy)]
pub(crate) struct OpenCut {
    /// The identifier of its first object.
    pub(crate) first: u64,
    /// Where the piece begins in which it begins, and how many facts came since before its first object.
    pub(crate) piece: Piece,
    /// The number of objects of the stretch before it.
    pub(crate) before: u64,
}

impl OpenCut {
    ghost use Rattle.hprof_objects.specs.Cuts.{cut_behind, cut_of, whole_cut};

    /// Returns the cut that has all objects of a stretch.
    pub(crate) fn whole(growing: &Growing) -> OpenCut
        ensures { result ≡ whole_cut growing.now }
    {
        OpenCut {
            first: growing.first,
            piece: Piece {
                place: growing.stretch.place,
                passed: growing.stretch.passed,
            },
            before: 0,
        }
    }

    /// Returns the cut behind all objects of a stretch, which begins with an object of that identifier: the next one behind what came of
    /// a piece.
    pub(crate) fn behind(growing: &Growing, piece: Piece, id: u64) -> OpenCut
        ensures { result ≡ cut_behind growing.now piece id }
    {
        OpenCut {
            first: id,
            piece,
            before: growing.stretch.count,
        }
    }

    /// Returns the cut with the objects that the stretch has.
    pub(crate) fn end(&self, growing: &Growing) -> Cut
        ensures { result ≡ cut_of self.now growing.now }
    {
        Cut {
            first: self.first,
            last: growing.last,
            stretch: Stretch {
                part: growing.stretch.part,
                place: self.piece.place,
                passed: self.piece.passed,
                count: growing.stretch.count.saturating_sub(self.before),
            },
        }
    }

    /// Returns whether the piece at a place is so far behind the piece in which the cut begins that another cut may begin in it: 64 KiB,
    /// and a 65536th of the offset. So the number of cuts grows with the logarithm of the size of a very large part.
    pub(crate) fn may_end_before(&self, place: &PartPlace) -> bool {
        let begun = self.piece.place.offset();
        place.offset() >= begun.saturating_add(65_536).saturating_add(begun / 65_536)
    }
}

/// Adds the last cut of the growing stretch to the cuts, if the stretch stays. There is room for it.
pub(crate) fn keep_cut(cuts: &mut Vec<Cut>, growing: Option<Growing>, cut: Option<OpenCut>)
    requires { IsReserved growing (vec_len cuts.old) (vec_capacity cuts.old) }
    ensures { cuts.new.items ≡ cuts.old.items ++ last_cut growing cut }
{
    let Some(growing) = growing else {
        return;
    };
    let Stands::InPart = growing.stands else {
        return;
    };
    let Some(cut) = cut else {
        return;
    };
    cuts.push_reserved(cut.end(&growing));
}

/// Returns whether another cut may begin in the piece at a place, behind the cut that goes on.
pub(crate) fn is_due(cut: Option<OpenCut>, place: Option<PartPlace>) -> bool {
    match cut {
        Some(cut) => match place {
            Some(place) => cut.may_end_before(&place),
            None => false,
        },
        None => false,
    }
}
