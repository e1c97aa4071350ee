//! An iterator over the rows of any table, and the facts that are read from rows.

ghost use Rattle.std.specs.Prelude.{◌≡◌, ◌<◌, ◌∷◌, [], true, false, IfSome};
ghost use Rattle.std.specs.Iterator.{YieldsFirstBy};
ghost use Rattle.hprof_values.specs.declared.ids.IdSize.{IdSize};
ghost use Rattle.hprof_items.specs.FactValue.{ListsHave, value_of};
ghost use Rattle.hprof_rows.specs.HeapRows.{name_facts, load_facts, unload_facts, frame_facts, trace_facts, start_facts, end_facts};
ghost use Rattle.hprof_rows.specs.HeapRows.{root_facts, spelled_facts, object_facts};
ghost use Rattle.hprof_tables.specs.Rows.{rows_left};
ghost use Rattle.hprof_byte_tables.specs.BytesTable.{byte_rows_left};
ghost use Rattle.hprof_rows.specs.TableRows.{AreSerials, AreWhole, AreSpelled, AreObjects, AreReadable, facts_in_rows};

use crate::kept::{decode_object, decode_object_into};
use crate::number_rows::{FrameRow, KeyRow, LoadRow, StartRow};
use crate::spelled::decode_class;
use crate::trace::decode_trace;
use hprof_byte_tables::BytesRows;
use hprof_items::Fact;
use hprof_tables::Rows;
use hprof_values::{IdSize, Root};
use std::collections::btree_set;

/// The rows of a table that are still to come.
#[derive(Drop)]
pub enum TableRows<'a> {
    /// Names, by identifier.
    Names(BytesRows<'a>),
    /// Loaded classes, by serial number.
    Loads(Rows<'a, LoadRow>),
    /// Unloaded classes, by serial number.
    Unloads(Rows<'a, KeyRow>),
    /// Stack frames, by identifier.
    Frames(Rows<'a, FrameRow>),
    /// Stack traces, by serial number.
    Traces(BytesRows<'a>),
    /// Threads that were started, by serial number.
    Starts(Rows<'a, StartRow>),
    /// Threads that ended, by serial number.
    Ends(Rows<'a, KeyRow>),
    /// GC roots.
    Roots(btree_set::Iter<'a, Root>),
    /// Class dumps, by identifier.
    Classes(BytesRows<'a>),
    /// Instances and arrays, by identifier.
    Objects(BytesRows<'a>),
}

/// Takes the next row, and returns its fact.
#[inline(always)]
pub(crate) fn next_fact<'a>(rows: &mut TableRows<'a>, ids: IdSize) -> Option<Fact<'a>>
    requires { AreReadable ids rows.old }
    ensures first { YieldsFirstBy value_of (facts_in_rows ids) rows.old result rows.new }
    ensures lists { IfSome result (ListsHave ids) }
    ensures kept { AreReadable ids rows.new }
{
    match rows {
        TableRows::Names(rows) => next_name(rows),
        TableRows::Loads(rows) => next_load(rows),
        TableRows::Unloads(rows) => next_unload(rows),
        TableRows::Frames(rows) => next_frame(rows),
        TableRows::Traces(rows) => next_trace(rows, ids),
        TableRows::Starts(rows) => next_start(rows),
        TableRows::Ends(rows) => next_end(rows),
        TableRows::Roots(roots) => next_root(roots),
        TableRows::Classes(rows) => next_spelled(rows, ids),
        TableRows::Objects(rows) => next_object(rows, ids),
    }
}

/// Takes the next row, stores its fact in `fact`, and returns whether there is one. If there is none, `fact` is unchanged.
#[inline(always)]
pub(crate) fn next_fact_into<'a>(rows: &mut TableRows<'a>, ids: IdSize, fact: &mut Fact<'a>) -> bool
    requires { AreReadable ids rows.old }
    ensures some { result ≡ true → facts_in_rows ids rows.old ≡ value_of fact.new ∷ facts_in_rows ids rows.new }
    ensures none { result ≡ false
        → (facts_in_rows ids rows.old ≡ []) × (facts_in_rows ids rows.new ≡ []) × (fact.new ≡ fact.old) }
    ensures lists { result ≡ true → ListsHave ids fact.new }
    ensures kept { AreReadable ids rows.new }
{
    match rows {
        TableRows::Objects(rows) => next_object_into(rows, ids, fact),
        others => put_next(others, ids, fact),
    }
}

/// Does the same as [`next_fact_into`] for a fact that is neither an instance nor an array.
fn put_next<'a>(rows: &mut TableRows<'a>, ids: IdSize, fact: &mut Fact<'a>) -> bool
    requires { AreReadable ids rows.old }
    ensures some { result ≡ true → facts_in_rows ids rows.old ≡ value_of fact.new ∷ facts_in_rows ids rows.new }
    ensures none { result ≡ false
        → (facts_in_rows ids rows.old ≡ []) × (facts_in_rows ids rows.new ≡ []) × (fact.new ≡ fact.old) }
    ensures lists { result ≡ true → ListsHave ids fact.new }
    ensures kept { AreReadable ids rows.new }
{
    let Some(first) = next_fact(rows, ids) else {
        return false;
    };
    *fact = first;
    true
}

/// Takes the next row, and returns its name.
#[inline(always)]
fn next_name<'a>(rows: &mut BytesRows<'a>) -> Option<Fact<'a>>
    ensures first { YieldsFirstBy value_of (λ rows. name_facts (byte_rows_left rows)) rows.old result rows.new }
    ensures lists { (ids : IdSize) → IfSome result (ListsHave ids) }
{
    let (id, text) = rows.next()?;
    Some(Fact::Name { id, text })
}

/// Takes the next row, and returns its loaded class.
fn next_load<'a>(rows: &mut Rows<'a, LoadRow>) -> Option<Fact<'a>>
    requires { AreSerials (rows_left rows.old) }
    ensures first { YieldsFirstBy value_of (λ rows. load_facts (rows_left rows)) rows.old result rows.new }
    ensures lists { (ids : IdSize) → IfSome result (ListsHave ids) }
    ensures kept { AreSerials (rows_left rows.new) }
{
    let (serial, row) = rows.next()?;
    Some(row.fact(serial as u32))
}

/// Takes the next row, and returns its unloaded class.
fn next_unload<'a>(rows: &mut Rows<'a, KeyRow>) -> Option<Fact<'a>>
    requires { AreSerials (rows_left rows.old) }
    ensures first { YieldsFirstBy value_of (λ rows. unload_facts (rows_left rows)) rows.old result rows.new }
    ensures lists { (ids : IdSize) → IfSome result (ListsHave ids) }
    ensures kept { AreSerials (rows_left rows.new) }
{
    let (serial, _row) = rows.next()?;
    Some(Fact::Unload {
        serial: serial as u32,
    })
}

/// Takes the next row, and returns its stack frame.
fn next_frame<'a>(rows: &mut Rows<'a, FrameRow>) -> Option<Fact<'a>>
    ensures first { YieldsFirstBy value_of (λ rows. frame_facts (rows_left rows)) rows.old result rows.new }
    ensures lists { (ids : IdSize) → IfSome result (ListsHave ids) }
{
    let (id, row) = rows.next()?;
    Some(row.fact(id))
}

/// Takes the next row, and returns its stack trace.
fn next_trace<'a>(rows: &mut BytesRows<'a>, ids: IdSize) -> Option<Fact<'a>>
    requires { AreWhole ids (byte_rows_left rows.old) }
    ensures first { YieldsFirstBy value_of (λ rows. trace_facts ids (byte_rows_left rows)) rows.old result rows.new }
    ensures lists { IfSome result (ListsHave ids) }
    ensures kept { AreWhole ids (byte_rows_left rows.new) }
{
    let (serial, kept) = rows.next()?;
    Some(decode_trace(serial as u32, kept, ids))
}

/// Takes the next row, and returns its started thread.
fn next_start<'a>(rows: &mut Rows<'a, StartRow>) -> Option<Fact<'a>>
    requires { AreSerials (rows_left rows.old) }
    ensures first { YieldsFirstBy value_of (λ rows. start_facts (rows_left rows)) rows.old result rows.new }
    ensures lists { (ids : IdSize) → IfSome result (ListsHave ids) }
    ensures kept { AreSerials (rows_left rows.new) }
{
    let (thread, row) = rows.next()?;
    Some(row.fact(thread as u32))
}

/// Takes the next row, and returns its ended thread.
fn next_end<'a>(rows: &mut Rows<'a, KeyRow>) -> Option<Fact<'a>>
    requires { AreSerials (rows_left rows.old) }
    ensures first { YieldsFirstBy value_of (λ rows. end_facts (rows_left rows)) rows.old result rows.new }
    ensures lists { (ids : IdSize) → IfSome result (ListsHave ids) }
    ensures kept { AreSerials (rows_left rows.new) }
{
    let (thread, _row) = rows.next()?;
    Some(Fact::End {
        thread: thread as u32,
    })
}

/// Takes the next root.
fn next_root<'a>(roots: &mut btree_set::Iter<'a, Root>) -> Option<Fact<'a>>
    ensures first { YieldsFirstBy value_of root_facts roots.old result roots.new }
    ensures lists { (ids : IdSize) → IfSome result (ListsHave ids) }
{
    let root = roots.next()?;
    Some(Fact::Root(*root))
}

/// Takes the next row, and stores its instance or array in `fact`.
#[inline(always)]
fn next_object_into<'a>(rows: &mut BytesRows<'a>, ids: IdSize, fact: &mut Fact<'a>) -> bool
    requires { AreObjects ids (byte_rows_left rows.old) }
    ensures some { result ≡ true → object_facts ids (byte_rows_left rows.old) ≡ value_of fact.new
        ∷ object_facts ids (byte_rows_left rows.new) }
    ensures none { result ≡ false
        → (object_facts ids (byte_rows_left rows.old) ≡ []) × (object_facts ids (byte_rows_left rows.new) ≡ []) × (fact.new ≡ fact.old) }
    ensures lists { result ≡ true → ListsHave ids fact.new }
    ensures kept { AreObjects ids (byte_rows_left rows.new) }
{
    let Some((id, kept)) = rows.next() else {
        return false;
    };
    decode_object_into(id, kept, ids, fact);
    true
}

/// Takes the next row, and returns its class dump.
#[inline(always)]
fn next_spelled<'a>(rows: &mut BytesRows<'a>, ids: IdSize) -> Option<Fact<'a>>
    requires { AreSpelled ids (byte_rows_left rows.old) }
    ensures first { YieldsFirstBy value_of (λ rows. spelled_facts ids (byte_rows_left rows)) rows.old result rows.new }
    ensures lists { IfSome result (ListsHave ids) }
    ensures kept { AreSpelled ids (byte_rows_left rows.new) }
{
    let (_id, bytes) = rows.next()?;
    Some(decode_class(bytes, ids))
}

/// Takes the next row, and returns its instance or array.
#[inline(always)]
fn next_object<'a>(rows: &mut BytesRows<'a>, ids: IdSize) -> Option<Fact<'a>>
    requires { AreObjects ids (byte_rows_left rows.old) }
    ensures first { YieldsFirstBy value_of (λ rows. object_facts ids (byte_rows_left rows)) rows.old result rows.new }
    ensures lists { IfSome result (ListsHave ids) }
    ensures kept { AreObjects ids (byte_rows_left rows.new) }
{
    let (id, kept) = rows.next()?;
    Some(decode_object(id, kept, ids))
}
