//! Rows of bytes in one vector, each after its length.

ghost use Rattle.std.specs.Prelude.{◌≡◌, ◌↔◌, ◌++◌, ◌+◌, ◌<◌, ◌≤◌, length, IfOk, OnOk, OnErr, IsTrue, Some, vec_len};
ghost use Rattle.std.specs.Prelude.{◌^◌, drop, take, vec_capacity};
ghost use Rattle.std.specs.Option.{option_copied};
ghost use Rattle.hprof_byte_tables.specs.Spans.{IsSpanOf, AreSpansOf, IsBehind, row_bytes, lying, rows_lying, spare_behind};
ghost use Rattle.hprof_byte_tables.specs.Spans.{HasFrontRow, framed, front_row, long_length};
ghost use Rattle.hprof_byte_tables.specs.StatedBytes.{bytes_of};
ghost use Rattle.hprof_tables.specs.Relation.{contents_of};

use crate::lent_bytes::LentBytes;
use hprof_tables::Visit;
use std::alloc::{AllocError, Global};

/// The place of a row: the offset of its length, which its bytes follow.
#[derive(Clone, Copy)]
pub(crate) struct Span {
    start: usize,
}

/// Shorter lengths are stored in one byte. For longer ones this byte and eight more are stored.
const LONG: usize = 255;

/// Returns the bytes after a length of eight bytes.
#[inline(never)]
fn long_row(bytes: &[u8]) -> Option<&[u8]>
    ensures { 8 + long_length bytes.now ≤ length bytes.now
        → option_copied result ≡ Some (take (long_length bytes.now) (drop 8 bytes.now)) }
{
    let (spelled, rest) = bytes.split_first_chunk::<8>()?;
    rest.get(..u64::from_be_bytes(*spelled) as usize)
}

/// Returns the bytes after the length at the front.
#[inline(always)]
fn first_row(bytes: &[u8]) -> Option<&[u8]>
    ensures { HasFrontRow bytes.now → option_copied result ≡ Some (front_row bytes.now) }
{
    let (first, rest) = bytes.split_first()?;
    let len = usize::from(*first);
    if len < LONG {
        return rest.get(..len);
    }
    long_row(rest)
}

impl Span {
    /// Returns the bytes of the row.
    #[inline(always)]
    pub(crate) fn row_in(self, bytes: &[u8]) -> Option<&[u8]>
        ensures { IsSpanOf bytes.now self → option_copied result ≡ Some (lying bytes.now self) }
    {
        first_row(bytes.get(self.start..)?)
    }
}

/// A shorter vector doubles its capacity when it grows: the system moves it without a copy, and capacity that is not touched costs only
/// address space. A longer vector grows by an eighth, so that no request is for much more than is used.
const MOST_DOUBLED: usize = 268_435_456;

/// Makes room for `count` more bytes. If there is none, the capacity grows by more than that.
fn make_room(bytes: &mut Vec<u8>, count: usize) -> Result<(), AllocError>
    requires small { count < 2 ^ 63 + 13 }
    ensures same { bytes.new.items ≡ bytes.old.items }
    ensures ok { OnOk result (vec_len bytes.old + count ≤ vec_capacity bytes.new) }
    ensures full { OnErr result (vec_capacity bytes.old < vec_len bytes.old + count) }
    ensures spare { OnOk result (vec_capacity bytes.old < vec_len bytes.old + count
        → vec_len bytes.old + (count + spare_behind (vec_len bytes.old)) ≤ vec_capacity bytes.new) }
    ensures room { vec_capacity bytes.old ≤ vec_capacity bytes.new }
{
    let len = bytes.len();
    if count <= bytes.capacity() - len {
        return Ok(());
    }
    let more = if len < MOST_DOUBLED { len } else { len / 8 };
    bytes.reserve_exact(count + more)
}

/// Appends bytes. There is room for them.
#[inline(always)]
fn put_reserved(bytes: &mut Vec<u8>, more: &[u8])
    requires { vec_len bytes.old + length more.now ≤ vec_capacity bytes.old }
    ensures items { bytes.new.items ≡ bytes.old.items ++ more.now }
    ensures room { vec_capacity bytes.old ≤ vec_capacity bytes.new }
{
    let Ok(()) = bytes.extend_from_slice(more) else {
        unreachable!()
    };
}

/// Appends four bytes. There is room for them.
#[inline(always)]
fn put_four(bytes: &mut Vec<u8>, front: [u8; 4])
    requires { vec_len bytes.old + 4 ≤ vec_capacity bytes.old }
    ensures items { bytes.new.items ≡ bytes.old.items ++ front }
    ensures room { vec_capacity bytes.old ≤ vec_capacity bytes.new }
{
    let [first, second, third, fourth] = front;
    bytes.push_reserved(first);
    bytes.push_reserved(second);
    bytes.push_reserved(third);
    bytes.push_reserved(fourth);
}

/// The first bytes of a row, if they are given separately.
#[derive(Clone, Copy)]
pub(crate) enum Front {
    /// No byte is given separately.
    Nothing,
    /// One byte.
    One(u8),
    /// Four bytes.
    Four([u8; 4]),
}

/// The bytes of a row, the first of which may be given separately.
#[derive(Clone, Copy)]
pub(crate) struct StatedBytes<'a> {
    /// The first bytes, if they are given separately.
    pub(crate) front: Front,
    /// The other bytes.
    pub(crate) rest: &'a [u8],
}

impl StatedBytes<'_> {
    /// Returns the number of bytes.
    #[inline(always)]
    fn len(self) -> usize
        ensures value { result ≡ length (bytes_of self.entry) }
        ensures small { result < 2 ^ 63 + 4 }
    {
        match self.front {
            Front::Nothing => self.rest.len(),
            Front::One(_) => 1 + self.rest.len(),
            Front::Four(_) => 4 + self.rest.len(),
        }
    }

    /// Returns whether the row has these bytes.
    #[inline(always)]
    fn is(self, bytes: &[u8]) -> bool
        ensures { IsTrue result ↔ (bytes.now ≡ bytes_of self.entry) }
    {
        match self.front {
            Front::Nothing => bytes == self.rest,
            Front::One(front) => match bytes.split_first() {
                None => false,
                Some((first, behind)) => *first == front && behind == self.rest,
            },
            Front::Four(front) => match bytes.split_first_chunk::<4>() {
                None => false,
                Some((first, behind)) => *first == front && behind == self.rest,
            },
        }
    }

    /// Appends the bytes of the row. There is room for them.
    #[inline(always)]
    fn put(self, bytes: &mut Vec<u8>)
        requires { vec_len bytes.old + length (bytes_of self) ≤ vec_capacity bytes.old }
        ensures items { bytes.new.items ≡ bytes.old.items ++ bytes_of self.entry }
        ensures room { vec_capacity bytes.old ≤ vec_capacity bytes.new }
    {
        match self.front {
            Front::Nothing => {}
            Front::One(front) => bytes.push_reserved(front),
            Front::Four(front) => put_four(bytes, front),
        }
        put_reserved(bytes, self.rest);
    }
}

/// Appends a row: its length, and its bytes. If there is no room for them, the capacity grows by more than they need.
#[inline(never)]
fn append_any(bytes: &mut Vec<u8>, row: StatedBytes<'_>) -> Result<(), AllocError>
    ensures ok { IfOk result (λ _. bytes.new.items ≡ bytes.old.items ++ framed (bytes_of row.entry)) }
    ensures err { OnErr result (bytes.new.items ≡ bytes.old.items) }
    ensures full { OnErr result (vec_capacity bytes.old < vec_len bytes.old + length (framed (bytes_of row.entry))) }
    ensures spare { OnOk result (vec_capacity bytes.old < vec_len bytes.old + length (framed (bytes_of row.entry))
        → vec_len bytes.old + (length (framed (bytes_of row.entry)) + spare_behind (vec_len bytes.old)) ≤ vec_capacity bytes.new) }
    ensures room { vec_capacity bytes.old ≤ vec_capacity bytes.new }
{
    let len = row.len();
    if len < LONG {
        make_room(bytes, 1 + len)?;
        bytes.push_reserved(len as u8);
        row.put(bytes);
        return Ok(());
    }
    make_room(bytes, 9 + len)?;
    bytes.push_reserved(LONG as u8);
    bytes.extend_from_slice(&(len as u64).to_be_bytes())?;
    row.put(bytes);
    Ok(())
}

/// Appends a row, as `append_any` does. Inlined for a short row for which there is room.
#[inline(always)]
fn append(bytes: &mut Vec<u8>, row: StatedBytes<'_>) -> Result<(), AllocError>
    ensures ok { IfOk result (λ _. bytes.new.items ≡ bytes.old.items ++ framed (bytes_of row.entry)) }
    ensures err { OnErr result (bytes.new.items ≡ bytes.old.items) }
    ensures full { OnErr result (vec_capacity bytes.old < vec_len bytes.old + length (framed (bytes_of row.entry))) }
    ensures spare { OnOk result (vec_capacity bytes.old < vec_len bytes.old + length (framed (bytes_of row.entry))
        → vec_len bytes.old + (length (framed (bytes_of row.entry)) + spare_behind (vec_len bytes.old)) ≤ vec_capacity bytes.new) }
    ensures room { vec_capacity bytes.old ≤ vec_capacity bytes.new }
    ensures small { length (bytes_of row.entry) < 2 ^ 64 }
{
    let len = row.len();
    if len < LONG && len < bytes.capacity() - bytes.len() {
        bytes.push_reserved(len as u8);
        row.put(bytes);
        return Ok(());
    }
    append_any(bytes, row)
}

/// Visits a key: compares the bytes that are stored under it with the row, or appends the row to all others.
impl Visit<Span> for StatedBytes<'_> {
    type Answer = bool;

    // The bytes of all rows.
    type Room = Vec<u8>;

    ghost held = { λ room. room.items };

    ghost answers = { λ stated held span same. IsSpanOf held span → (IsTrue same ↔ (lying held span ≡ bytes_of stated)) };

    ghost makes = { λ stated old span new. (new ≡ old ++ framed (bytes_of stated)) × (span.start ≡ length old)
        × (length (bytes_of stated) < 2 ^ 64) };

    ghost refuses = { λ stated room. vec_capacity room < vec_len room + length (framed (bytes_of stated)) };

    // None is given back.
    ghost grows = { λ old new. vec_capacity old ≤ vec_capacity new };

    fn ask(self, span: &Span, room: &Vec<u8>) -> bool {
        match span.row_in(room) {
            Some(row) => self.is(row),
            None => false,
        }
    }

    #[inline(always)]
    fn make(self, room: &mut Vec<u8>) -> Result<Span, AllocError> {
        let start = room.len();
        append(room, self)?;
        Ok(Span { start })
    }
}

/// Appends the bytes of rows, and returns where they lie. If there are none, nothing is allocated. If memory runs out, the bytes of some
/// rows have been appended.
pub(crate) fn append_rows(
    alloc: Global,
    bytes: &mut Vec<u8>,
    lent: Vec<(u64, LentBytes<'_>)>,
) -> Result<Vec<(u64, Span)>, AllocError>
    ensures behind { IsBehind bytes.old.items bytes.new.items }
    ensures put { IfOk result (λ _. bytes.new.items ≡ bytes.old.items ++ row_bytes (contents_of (λ row. row.0.now) lent.entry.items)) }
    ensures within { IfOk result (λ spans. AreSpansOf bytes.new.items spans.items) }
    ensures lying { IfOk result (λ spans. rows_lying bytes.new.items spans.items ≡ contents_of (λ row. row.0.now) lent.entry.items) }
    ensures some { OnErr result (0 < length lent.entry.items) }
    ensures unchanged { IfOk result (λ _. length lent.entry.items ≡ 0 → bytes.new ≡ bytes.old) }
    ensures room { vec_capacity bytes.old ≤ vec_capacity bytes.new }
{
    let mut spans = Vec::new(alloc);
    spans.reserve_exact(lent.len())?;
    for (key, row) in lent {
        let stated = StatedBytes {
            front: Front::Nothing,
            rest: row.0,
        };
        let span = stated.make(bytes)?;
        spans.push((key, span))?;
    }
    Ok(spans)
}
