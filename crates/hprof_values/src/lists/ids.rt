//! Lists of identifiers.

ghost use Rattle.std.specs.Prelude.{◌≡◌, ◌%◌, ◌<◌, ◌^◌, length};
ghost use Rattle.hprof_values.specs.Ids.{IsBytes, width_of};

use super::among::is_among;
use crate::ids::IdSize;
use crate::number::id_at;

/// A list of identifiers, over their bytes.
#[derive(Clone, Copy, Debug, PartialEq, Eq)]
pub struct IdList<'a> {
    bytes: &'a [u8],
    ids: IdSize,
    /// No identifier is cut.
    ghost whole: { length bytes.now % width_of ids ≡ 0 },
    ghost range: { IsBytes bytes.now },
    ghost few: { length bytes.now < 2 ^ 64 },
}

impl<'a> IdList<'a> {
    ghost use Rattle.std.specs.Prelude.{◌↔◌, Contains, IsTrue, List, ℕ, [], slice_get, IfSome, IsSomeAnd};
    ghost use Rattle.hprof_values.specs.Lists.{IsIdList, ids_in, identifiers_of, identifiers_left, identifiers_size};

    /// Returns the list that the bytes encode, or `None` if they end within an identifier.
    pub fn new(bytes: &'a [u8], ids: IdSize) -> Option<IdList<'a>>
        ensures found { IfSome result (λ list. IsIdList ids (identifiers_of list) bytes.now) }
        ensures size { IfSome result (λ list. identifiers_size list ≡ ids) }
        ensures only { (identifiers : List ℕ) → IsIdList ids identifiers bytes.now
            → IsSomeAnd result (λ list. identifiers_of list ≡ identifiers) }
    {
        if bytes.len() % ids.width() != 0 {
            return None;
        }
        Some(IdList { bytes, ids })
    }

    /// Returns the list that the bytes of whole identifiers encode.
    pub fn of_whole(bytes: &'a [u8], ids: IdSize) -> IdList<'a>
        requires { length bytes.now % width_of ids ≡ 0 }
        ensures identifiers { identifiers_of result ≡ ids_in ids bytes.now }
        ensures size { identifiers_size result ≡ ids }
    {
        IdList { bytes, ids }
    }

    /// Returns the number of identifiers.
    pub fn len(&self) -> usize
        ensures { result ≡ length (identifiers_of self.now) }
    {
        self.bytes.len() / self.ids.width()
    }

    /// Returns whether there are no identifiers.
    pub fn is_empty(&self) -> bool
        ensures { IsTrue result ↔ (identifiers_of self.now ≡ []) }
    {
        self.bytes.is_empty()
    }

    /// Returns the identifier at a place.
    pub fn get(&self, place: usize) -> Option<u64>
        ensures { result ≡ slice_get (identifiers_of self.now) place }
    {
        let width = self.ids.width();
        if self.bytes.len() / width <= place {
            return None;
        }
        let (_, rest) = self.bytes.split_at(place * width);
        Some(id_at(rest, self.ids))
    }

    /// Returns whether the list contains an identifier.
    pub fn contains(&self, id: u64) -> bool
        ensures { IsTrue result ↔ Contains (identifiers_of self.now) id }
    {
        match self.ids {
            IdSize::Four => is_among(self.bytes, IdSize::Four, id),
            IdSize::Eight => is_among(self.bytes, IdSize::Eight, id),
        }
    }

    /// Returns the bytes of the identifiers.
    pub fn bytes(&self) -> &'a [u8]
        ensures spelled { IsIdList (identifiers_size self.now) (identifiers_of self.now) result.now }
    {
        self.bytes
    }

    /// Returns the size of the identifiers.
    pub fn id_size(&self) -> IdSize
        ensures { result ≡ identifiers_size self.now }
    {
        self.ids
    }

    /// Returns an iterator over the identifiers, in order.
    pub fn iter(&self) -> Ids<'a>
        ensures all { identifiers_left result ≡ identifiers_of self.now }
        ensures few { length (identifiers_of self.now) < 2 ^ 64 }
    {
        Ids {
            rest: self.bytes,
            ids: self.ids,
        }
    }
}

/// An iterator over identifiers.
#[derive(Drop)]
pub struct Ids<'a> {
    rest: &'a [u8],
    ids: IdSize,
    ghost whole: { length rest.now % width_of ids ≡ 0 },
}

impl<'a> Iterator for Ids<'a> {
    ghost use Rattle.std.specs.Iterator.{YieldsFirst, item_count};
    ghost use Rattle.hprof_values.specs.Lists.{identifiers_left};

    type Item = u64;

    ghost next_gives = { YieldsFirst identifiers_left };

    ghost remaining = { item_count identifiers_left };

    #[inline(always)]
    fn next(&mut self) -> Option<u64> {
        if self.rest.is_empty() {
            return None;
        }
        let id = id_at(self.rest, self.ids);
        (_, self.rest) = self.rest.split_at(self.ids.width());
        Some(id)
    }
}
