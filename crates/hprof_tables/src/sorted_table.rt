//! A table of rows by key, in pages. A key that is near the one before it is mostly in the same page.

ghost use Rattle.std.specs.Prelude.{◌≡◌, ◌+◌, ◌++◌, ◌≤◌, ◌^◌, ◌⊎◌, ℕ, List, [], length};
ghost use Rattle.std.specs.Prelude.{IfOk, IfSome, IsTrue, OnOk, OnErr, None, ◌<◌, ◌↔◌};
ghost use Rattle.std.specs.Prelude.{slice_get, true, vec_capacity, vec_len};
ghost use Rattle.std.specs.Option.{option_copied};
ghost use Rattle.std.specs.Ordering.{nat_cmp};
ghost use Rattle.std.specs.BTreeMap.{insert_entry};
ghost use Rattle.std.specs.Map.{values_of};
ghost use Rattle.hprof_tables.specs.Page.{CutsFor, HasRoom};
ghost use Rattle.hprof_tables.specs.Pages.{AreListed, AreListed-prop, ArePagesCut, HasKey, rows_along};
ghost use Rattle.hprof_tables.specs.SortedRows.{IsAscending, LeavesUnmade, row_at, Visits};
ghost use Rattle.hprof_tables.specs.Union.{AreApart, AreUnion};

use crate::cursor::Cursor;
use crate::entries::{Entries, rows_of_page};
use crate::merging::{merge_into, push_all};
use crate::page::{Cut, Page};
use crate::page_hints::PageHints;
use crate::visit::Visit;
use std::alloc::{AllocError, Global};
use std::collections::BTreeMap;
use std::collections::btree_map::Entry;
use std::mem;

/// The place for the row of a key: the number of its page, and the place among the page's rows.
#[derive(Clone, Copy)]
pub(crate) struct Spot {
    pub(crate) page: usize,
    pub(crate) place: usize,
}

/// Rows by key, in pages. Each key belongs to one page. The page of the last key is tried first.
#[derive(Drop)]
pub struct SortedTable<V> {
    pages: Vec<Page<V>>,
    /// The number of each page, by its least key.
    places: BTreeMap<u64, usize>,
    /// The number of the page of the last key.
    last: usize,
    hints: PageHints,
    /// The number of rows.
    len: usize,
    alloc: Global,
    ghost listed: { AreListed pages.items places.entries } by { AreListed-prop pages.items places.entries },
    ghost count: { len ≡ length (rows_along pages.items (values_of places.entries)) },
}

/// Splits a page, and lists the new page under its least key.
#[inline(never)]
fn cut_page<V: Drop>(
    pages: &mut Vec<Page<V>>,
    places: &mut BTreeMap<u64, usize>,
    number: usize,
    cut: Cut,
) -> Result<(), AllocError>
    requires within { number < length pages.old.items }
    requires cut { (page : Page V) → slice_get pages.old.items number ≡ Some page → CutsFor page cut }
    requires new { row_at cut.key places.old.entries ≡ None }
    ensures pages { OnOk result (ArePagesCut number cut.key pages.old.items pages.new.items) }
    ensures places { OnOk result (places.new.entries ≡ insert_entry nat_cmp places.old.entries cut.key (length pages.old.items)) }
    ensures err { OnErr result (pages.new.items ≡ pages.old.items) }
    ensures unlisted { OnErr result (places.new.entries ≡ places.old.entries) }
{
    let count = pages.len();
    pages.reserve(1)?;
    match places.entry(cut.key)? {
        Entry::Vacant(entry) => {
            let above = pages[number].cut(cut)?;
            pages.push_reserved(above);
            entry.insert(count);
            Ok(())
        }
        Entry::Occupied(_) => unreachable!(),
    }
}

/// Appends the rows of all pages, in the order in which the pages are listed. There is room for them.
fn move_rows<V: Drop>(
    alloc: Global,
    pages: Vec<Page<V>>,
    places: BTreeMap<u64, usize>,
    rows: &mut Vec<(u64, V)>,
)
    requires listed { AreListed pages.items places.entries }
    requires room { vec_len rows.old + length (rows_along pages.items (values_of places.entries)) ≤ vec_capacity rows.old }
    ensures { rows.new.items ≡ rows.old.items ++ rows_along pages.items (values_of places.entries) }
{
    let mut pages = pages;
    for (_, number) in places.iter() {
        if let Some(page) = pages.get_mut(*number) {
            push_all(page.take_rows(alloc), rows);
        }
    }
}

impl<V> SortedTable<V> {
    ghost use Rattle.hprof_tables.specs.SortedTable.{HasNoSpace, HasRoomAt, IsSpot, LacksRoom, entries_of, entries_left};

    /// Returns an empty table. Allocates nothing.
    pub fn new(alloc: Global) -> Self
        ensures none { entries_of result ≡ [] }
        ensures no_room { HasNoSpace result }
    {
        SortedTable {
            pages: Vec::new(alloc),
            places: BTreeMap::new(alloc),
            last: 0,
            hints: PageHints::new(alloc),
            len: 0,
            alloc,
        }
    }

    /// Returns the number of the page of a key, by a search. There is at least one page.
    #[inline(never)]
    fn listed_page(&self, key: u64) -> usize
        requires { 0 < length self.now.pages.items }
        ensures { HasKey (slice_get self.now.pages.items result) key }
    {
        match self.places.range(..=key).next_back() {
            Some((_, number)) => *number,
            None => unreachable!(),
        }
    }

    /// Returns whether the page with this number has a key in its range.
    #[inline(always)]
    fn has_page(&self, number: usize, key: u64) -> bool
        ensures { result ≡ true → HasKey (slice_get self.now.pages.items number) key }
    {
        match self.pages.get(number) {
            Some(page) => page.has(key),
            None => false,
        }
    }

    /// Returns the number of the page of a key. Tries its hint first. There is at least one page.
    #[inline(always)]
    fn hinted_page(&self, key: u64) -> usize
        requires { 0 < length self.now.pages.items }
        ensures { HasKey (slice_get self.now.pages.items result) key }
    {
        match self.hints.get(key) {
            Some(number) if self.has_page(number, key) => number,
            _ => self.listed_page(key),
        }
    }

    /// Returns the number of the page of a key. Tries the page `near` first. There is at least one page.
    #[inline(always)]
    fn page_near(&self, key: u64, near: usize) -> usize
        requires { 0 < length self.now.pages.items }
        ensures { HasKey (slice_get self.now.pages.items result) key }
    {
        if self.has_page(near, key) {
            return near;
        }
        self.hinted_page(key)
    }

    /// Spreads the hints once there are many pages, and again each time their number has doubled.
    #[inline(always)]
    fn spread_hints(&mut self)
        ensures pages { self.new.pages ≡ self.old.pages }
        ensures places { self.new.places ≡ self.old.places }
        ensures count { self.new.len ≡ self.old.len }
        ensures last { self.new.last ≡ self.old.last }
    {
        let count = self.pages.len();
        if !self.hints.suit(count)
            && let Some(lowest) = self.pages.first()
            && let Some((highest, _)) = self.places.last_key_value()
        {
            self.hints.spread(highest.saturating_sub(lowest.to), count);
        }
    }

    /// Makes the page of a key the first to be tried.
    #[inline(always)]
    pub(crate) fn turn_to(&mut self, key: u64)
        ensures has { 0 < length self.old.pages.items → HasKey (slice_get self.new.pages.items self.new.last) key }
        ensures rows { entries_of self.new ≡ entries_of self.old }
        ensures pages { self.new.pages ≡ self.old.pages }
        ensures places { self.new.places ≡ self.old.places }
        ensures count { self.new.len ≡ self.old.len }
    {
        if self.pages.is_empty() {
            return;
        }
        let page = self.page_near(key, self.last);
        if page != self.last {
            self.hints.leave(key, page);
            self.last = page;
        }
    }

    /// Returns the row under a key.
    #[inline(always)]
    pub(crate) fn get(&self, key: u64) -> Option<&V>
        ensures { option_copied result ≡ row_at key (entries_of self.now) }
    {
        if self.pages.is_empty() {
            return None;
        }
        self.pages[self.page_near(key, self.last)].get(key)
    }

    /// Returns the row under a key, looking near the cursor first, and moves the cursor there.
    #[inline(always)]
    pub fn get_near(&self, key: u64, near: &mut Cursor) -> Option<&V>
        ensures { option_copied result ≡ row_at key (entries_of self.now) }
    {
        if self.pages.is_empty() {
            return None;
        }
        let page = self.page_near(key, near.page);
        if page != near.page {
            *near = Cursor { page, place: 0 };
        }
        self.pages[page].get_near(key, &mut near.place)
    }

    /// Adds a page for all keys if there is no page.
    #[inline(always)]
    fn begin(&mut self) -> Result<(), AllocError>
    where
        V: Drop,
        ensures rows { entries_of self.new ≡ entries_of self.old }
        ensures some { OnOk result (0 < length self.new.pages.items) }
        ensures none { OnErr result (length self.old.pages.items ≡ 0) }
        ensures same { 0 < length self.old.pages.items → self.new ≡ self.old }
    {
        if !self.pages.is_empty() {
            return Ok(());
        }
        self.pages.reserve(1)?;
        self.places.insert(0, 0)?;
        self.pages.push_reserved(Page::of(Vec::new(self.alloc)));
        Ok(())
    }

    /// Returns the end of the page of the last key, if the row of this key belongs there and there is room for it.
    #[inline(always)]
    fn end_spot(&self, key: u64) -> Option<Spot>
        ensures spot { IfSome result (λ spot. IsSpot self.now.pages.items key spot) }
        ensures room { IfSome result (λ spot. HasRoomAt self.now.pages.items spot) }
        ensures count { IfSome result (λ _. self.now.len + 1 < 2 ^ 64) }
    {
        let page = self.pages.get(self.last)?;
        if page.has(key) && page.has_end_for(key) && self.len < usize::MAX {
            return Some(Spot {
                page: self.last,
                place: page.rows.len(),
            });
        }
        None
    }

    /// Returns the spot of a new key in its page.
    fn spot_in(&self, key: u64, page: usize) -> Spot
        requires has { HasKey (slice_get self.now.pages.items page) key }
        requires new { row_at key (entries_of self.now) ≡ None }
        ensures { IsSpot self.now.pages.items key result }
    {
        match self.pages[page].place_of(key) {
            Err(place) => Spot { page, place },
            Ok(_) => unreachable!(),
        }
    }

    /// Returns a spot for the row of a key, in a page that can take it: the given spot, or one in a half of the page, which is then split.
    fn cut_spot(&mut self, key: u64, spot: Spot) -> Result<Spot, AllocError>
    where
        V: Drop,
        requires { IsSpot self.old.pages.items key spot }
        ensures rows { entries_of self.new ≡ entries_of self.old }
        ensures ok { IfOk result (λ spot. IsSpot self.new.pages.items key spot) }
        ensures full { OnErr result (LacksRoom self.old key) }
        ensures count { self.new.len ≡ self.old.len }
        ensures same { (self.new ≡ self.old) ⊎ LacksRoom self.old key }
    {
        if self.pages[spot.page].takes(spot.place) {
            return Ok(spot);
        }
        let cut = self.pages[spot.page].cut_for(key, spot.place);
        let count = self.pages.len();
        cut_page(&mut self.pages, &mut self.places, spot.page, cut)?;
        if key < cut.key {
            return Ok(self.spot_in(key, spot.page));
        }
        Ok(self.spot_in(key, count))
    }

    /// Returns a spot for the row of a key, with room for it. Pages may be split; the rows stay.
    fn room_for(&mut self, key: u64, spot: Spot) -> Result<Spot, AllocError>
    where
        V: Drop,
        requires { IsSpot self.old.pages.items key spot }
        ensures rows { entries_of self.new ≡ entries_of self.old }
        ensures ok { IfOk result (λ spot. IsSpot self.new.pages.items key spot) }
        ensures room { IfOk result (λ spot. HasRoomAt self.new.pages.items spot) }
        ensures count { OnOk result (self.new.len + 1 < 2 ^ 64) }
        ensures full { OnErr result (LacksRoom self.old key) }
    {
        if self.len == usize::MAX {
            return Err(AllocError);
        }
        let spot = self.cut_spot(key, spot)?;
        self.pages[spot.page].make_room()?;
        Ok(spot)
    }

    /// Makes a row and inserts it at its spot. There is room for it.
    #[inline(always)]
    fn make_at<T: Visit<V> + Drop>(
        &mut self,
        spot: Spot,
        key: u64,
        visitor: T,
        room: &mut T::Room,
    ) -> Result<(), AllocError>
    where
        V: Drop,
        requires spot { IsSpot self.old.pages.items key spot }
        requires room { HasRoomAt self.old.pages.items spot }
        requires count { self.old.len + 1 < 2 ^ 64 }
        ensures ok { IfOk result (λ _. (row : V) × T.makes visitor (T.held room.old) row (T.held room.new)
            × (entries_of self.new ≡ insert_entry nat_cmp (entries_of self.old) key row)) }
        ensures absent { row_at key (entries_of self.old) ≡ None }
        ensures err { OnErr result (entries_of self.new ≡ entries_of self.old) }
        ensures kept { OnErr result (T.held room.new ≡ T.held room.old) }
        ensures full { OnErr result (T.refuses visitor room.old) }
    {
        let row = visitor.make(room)?;
        self.pages[spot.page].put(spot.place, key, row);
        self.len += 1;
        self.last = spot.page;
        Ok(())
    }

    /// Visits the row under a key, or makes one, as `visit` does.
    #[inline(never)]
    fn visit_within<T: Visit<V> + Drop>(
        &mut self,
        key: u64,
        visitor: T,
        room: &mut T::Room,
    ) -> Result<Option<T::Answer>, AllocError>
    where
        V: Drop,
        ensures ok { IfOk result (λ answer. Visits (T.answers visitor (T.held room.old)) (λ row.
            T.makes visitor (T.held room.old) row (T.held room.new))
            (entries_of self.old) key answer (entries_of self.new)) }
        ensures err { OnErr result (entries_of self.new ≡ entries_of self.old) }
        ensures absent { OnErr result (row_at key (entries_of self.old) ≡ None) }
        ensures full { OnErr result (LacksRoom self.old key ⊎ T.refuses visitor room.old) }
        ensures kept { LeavesUnmade result (T.held room.old) (T.held room.new) }
        ensures same_room { IfOk result (λ answer. IfSome answer (λ _. room.new ≡ room.old)) }
    {
        self.begin()?;
        self.turn_to(key);
        let page = self.last;
        match self.pages[page].place_of(key) {
            Ok(place) => Ok(Some(visitor.ask(&self.pages[page].rows[place].1, room))),
            Err(place) => {
                self.spread_hints();
                let spot = self.room_for(key, Spot { page, place })?;
                self.make_at(spot, key, visitor, room)?;
                Ok(None)
            }
        }
    }

    /// Visits the row under a key, or makes one if there is none.
    #[inline(always)]
    pub fn visit<T: Visit<V> + Drop>(
        &mut self,
        key: u64,
        visitor: T,
        room: &mut T::Room,
    ) -> Result<Option<T::Answer>, AllocError>
    where
        V: Drop,
        ensures ok { IfOk result (λ answer. Visits (T.answers visitor (T.held room.old)) (λ row.
            T.makes visitor (T.held room.old) row (T.held room.new))
            (entries_of self.old) key answer (entries_of self.new)) }
        ensures err { OnErr result (entries_of self.new ≡ entries_of self.old) }
        ensures absent { OnErr result (row_at key (entries_of self.old) ≡ None) }
        ensures full { OnErr result (LacksRoom self.old key ⊎ T.refuses visitor room.old) }
        ensures kept { LeavesUnmade result (T.held room.old) (T.held room.new) }
        ensures same_room { IfOk result (λ answer. IfSome answer (λ _. room.new ≡ room.old)) }
    {
        let Some(spot) = self.end_spot(key) else {
            return self.visit_within(key, visitor, room);
        };
        self.make_at(spot, key, visitor, room)?;
        Ok(None)
    }

    /// Adds rows whose keys are new, in one pass over them and the table, which has a single page then. If there are no rows, nothing is
    /// allocated.
    pub fn merge(&mut self, alloc: Global, fresh: Vec<(u64, V)>) -> Result<(), AllocError>
    where
        V: Drop,
        requires ascending { IsAscending fresh.items }
        requires apart { AreApart (entries_of self.old) fresh.items }
        ensures ok { IfOk result (λ _. AreUnion (entries_of self.old) fresh.items (entries_of self.new)) }
        ensures err { OnErr result (entries_of self.new ≡ entries_of self.old) }
        ensures some { OnErr result (0 < length fresh.items) }
        ensures unchanged { IfOk result (λ _. length fresh.items ≡ 0 → self.new ≡ self.old) }
    {
        if fresh.is_empty() {
            return Ok(());
        }
        let Some(len) = self.len.checked_add(fresh.len()) else {
            return Err(AllocError);
        };
        let mut run = Vec::new(alloc);
        run.reserve_exact(self.len)?;
        let mut all = Vec::new(alloc);
        all.reserve_exact(len)?;
        let mut pages = Vec::new(alloc);
        pages.reserve_exact(1)?;
        let mut places = BTreeMap::new(alloc);
        places.insert(0, 0)?;
        let old = mem::replace(self, SortedTable::new(alloc));
        move_rows(alloc, old.pages, old.places, &mut run);
        merge_into(run, fresh, &mut all);
        pages.push_reserved(Page::of(all));
        *self = SortedTable {
            pages,
            places,
            last: 0,
            hints: PageHints::new(alloc),
            len,
            alloc,
        };
        Ok(())
    }

    /// Returns copies of the rows, in order of key.
    fn copied_rows(&self, alloc: Global) -> Result<Vec<(u64, V)>, AllocError>
    where
        V: Copy + Drop,
        ensures { IfOk result (λ rows. rows.items ≡ entries_of self.now) }
    {
        let mut rows = Vec::new(alloc);
        rows.reserve_exact(self.len)?;
        for number in self.places.values() {
            rows.extend_from_slice(rows_of_page(&self.pages, *number))?;
        }
        Ok(rows)
    }

    /// Returns a table with the same rows, which has a single page. If memory runs out, the answer is `AllocError`.
    pub fn copied(&self, alloc: Global) -> Result<Self, AllocError>
    where
        V: Copy + Drop,
        ensures { IfOk result (λ table. entries_of table ≡ entries_of self.now) }
    {
        let rows = self.copied_rows(alloc)?;
        let mut pages = Vec::new(alloc);
        pages.reserve_exact(1)?;
        let mut places = BTreeMap::new(alloc);
        places.insert(0, 0)?;
        pages.push_reserved(Page::of(rows));
        Ok(SortedTable {
            pages,
            places,
            last: 0,
            hints: PageHints::new(alloc),
            len: self.len,
            alloc,
        })
    }

    /// Returns the number of rows.
    pub fn len(&self) -> usize
        ensures { result ≡ length (entries_of self.now) }
    {
        self.len
    }

    /// Returns whether there is no row.
    pub fn is_empty(&self) -> bool
        ensures { IsTrue result ↔ (entries_of self.now ≡ []) }
    {
        self.len() == 0
    }

    /// Returns an iterator over the rows, in order of key.
    pub fn iter(&self) -> Entries<'_, V>
        ensures all { entries_left result ≡ entries_of self.now }
        ensures ascending { IsAscending (entries_of self.now) }
    {
        Entries {
            rows: &[],
            numbers: self.places.values(),
            pages: self.pages.as_slice(),
        }
    }
}
