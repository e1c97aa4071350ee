//! Groups that retain a large share.

ghost use Rattle.std.specs.Prelude.{◌≡◌, ◌<◌, ◌≤◌, ◌*◌, ◌↔◌, IsTrue, length};
ghost use Rattle.hprof_numbers.specs.Numbers.{items_in};
ghost use Rattle.hprof_retained.specs.Tree.{count_of};
ghost use Rattle.hprof_suspects.specs.PartPlaces.{IsLargeHead, over_in};

use hprof_numbers::Numbers;
use hprof_retained::Retained;

/// Returns the place of the group that a place is right below, or 0 right below the roots.
#[inline(always)]
pub(crate) fn over(retained: &Retained, heads: &Numbers, place: usize) -> usize
    requires within { place < count_of retained.now }
    requires as_many { length (items_in heads.now) ≡ count_of retained.now }
    ensures { result ≡ over_in retained.now (items_in heads.now) place }
{
    heads.get(retained.above(place))
}

/// Returns whether bytes are at least a tenth of others.
#[inline(always)]
pub(crate) fn is_tenth(all: u128, bytes: u128) -> bool
    ensures { IsTrue result ↔ (all ≤ 10 * bytes) }
{
    all <= bytes.saturating_mul(10)
}

/// Returns whether a place is that of a head which retains at least a tenth of all.
pub(crate) fn is_large_head(retained: &Retained, heads: &Numbers, place: usize) -> bool
    requires within { place < count_of retained.now }
    requires as_many { length (items_in heads.now) ≡ count_of retained.now }
    ensures { IsTrue result ↔ IsLargeHead retained.now (items_in heads.now) place }
{
    if heads.get(place) != place {
        return false;
    }
    is_tenth(retained.bytes(0), retained.bytes(place))
}
