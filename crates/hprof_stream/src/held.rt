//! The bytes of an incomplete item.

ghost use Rattle.std.specs.Prelude.{◌≡◌, ◌⊎◌, ◌+◌, ◌<◌, ◌≤◌, ◌++◌, ℕ, List, [], length, vec_len, vec_capacity, min, max, true, None, Some};
ghost use Rattle.std.specs.Prelude.{Err, IfOk, OnOk, OnErr, IfSome};
ghost use Rattle.hprof_values.specs.Ids.{IsBytes};
ghost use Rattle.hprof_items.specs.SubReading.{bounds_within};
ghost use Rattle.hprof_items.specs.Walk.{StopsIn};
ghost use Rattle.hprof_items.specs.declared.header.Header.{Header};
ghost use Rattle.hprof_stream.specs.Item.{held_of, item_at};
ghost use Rattle.hprof_stream.specs.Progress.{place_of, IsCounted};
ghost use Rattle.hprof_stream.specs.Rest.{passing_of, walk_at, IsWalkOf, IsRest, IsSound, NeedsGrowth, KeepsRoom, rest_len};
ghost use Rattle.hprof_stream.specs.Walking.{IsBegun, FinishesHeld, ReadsOn, seen};
ghost use Rattle.hprof_stream.specs.Reader.{longest_held};

use crate::part_fault::PartFault;
use crate::progress::Progress;
use crate::rest::{Passing, Rest, pass_over};
use crate::sink::Sink;
use hprof_items::{Fact, HEAD_LEN, HEADER_LEN, HeadKind, ParseStop, read_head, resume_sub_record};
use hprof_values::BoundedBytes;

/// Appends bytes to the held ones.
fn hold(held: &mut Vec<u8>, bytes: &[u8]) -> Result<(), PartFault>
    ensures ok { OnOk result (held.new.items ≡ held.old.items ++ bytes.now) }
    ensures err { OnErr result ((result ≡ Err PartFault.OutOfMemory) × (held.new.items ≡ held.old.items) × (0 < length bytes.now)) }
    ensures full { OnErr result (vec_capacity held.old < vec_len held.old + length bytes.now) }
    ensures grows { vec_capacity held.old ≤ vec_capacity held.new }
{
    match held.extend_from_slice(bytes) {
        Ok(()) => Ok(()),
        Err(_) => Err(PartFault::OutOfMemory),
    }
}

/// Returns the number of bytes to append to the held ones at once: as many as are held, but at least 4,096, and no more than the item may
/// still need.
fn portion(held: usize, longest: u32) -> usize
    ensures some { 0 < result }
    ensures within { held + result ≤ max (longest_held longest) (held + 1) }
{
    let bound = HEADER_LEN.max(HEAD_LEN + longest as usize);
    bound.saturating_sub(held).min(held.max(4_096)).max(1)
}

/// Returns how much of the record at the front has come, if the record is skipped and its head is there.
fn passing_at(progress: &Progress, bytes: &[u8]) -> Option<Passing>
    ensures passing { result ≡ passing_of progress.now.limits.max_item (place_of progress.now) bytes.now }
    ensures bytes { IsBytes bytes.now }
    ensures head { IfSome result (λ passing. (passing.seen ≡ length bytes.now) × (9 ≤ length bytes.now)) }
{
    let header = progress.header?;
    if progress.room > 0 {
        return None;
    }
    let Ok((head, _)) = read_head(bytes, header.ids, progress.limits.max_item) else {
        return None;
    };
    let HeadKind::Skipped = head.kind() else {
        return None;
    };
    let left = (HEAD_LEN + head.length as usize).saturating_sub(bytes.len());
    Some(Passing {
        seen: bytes.len() as u64,
        left: left as u32,
    })
}

/// Resumes the walk over a held sub-record. Returns whether it needs more bytes.
fn walks_short(progress: &Progress, rest: &mut Rest) -> bool
    requires sound { IsSound rest.old }
    ensures sound { IsSound rest.new }
    ensures held { rest.new.held ≡ rest.old.held }
    ensures passing { rest.new.passing ≡ rest.old.passing }
    ensures walk { IsWalkOf progress.now.limits.max_item (place_of progress.now) rest.old.held.items rest.old.walk
        → IsWalkOf progress.now.limits.max_item (place_of progress.now) rest.old.held.items rest.new.walk
        × (result ≡ true → item_at progress.now.limits.max_item (place_of progress.now) rest.old.held.items ≡ Err ParseStop.Short) }
    ensures stands { (header : Header) → progress.now.header ≡ Some header → result ≡ true
        → StopsIn header.ids (bounds_within progress.now.room progress.now.limits.max_item rest.old.held.items) rest.old.held.items
        rest.new.walk ParseStop.Short }
    ensures held_whole { result ≡ true → passing_of progress.now.limits.max_item (place_of progress.now) rest.old.held.items ≡ None }
{
    let Some(header) = progress.header else {
        return false;
    };
    if progress.room == 0 {
        return false;
    }
    let item = BoundedBytes {
        bytes: &rest.held,
        room: progress.room as usize,
        longest: progress.limits.max_item as usize,
    };
    let (walk, end) = resume_sub_record(&item, header.ids, rest.walk);
    rest.walk = walk;
    matches!(end, Err(ParseStop::Short))
}

/// If the held bytes are the head of a record that is skipped, counts them instead of holding them.
fn count_passed(progress: &Progress, rest: &mut Rest)
    requires sound { IsSound rest.old }
    ensures sound { IsSound rest.new }
    ensures len { rest_len rest.new ≤ rest_len rest.old }
    ensures shorter { length rest.new.held.items ≤ length rest.old.held.items }
    ensures room { vec_capacity rest.new.held ≡ vec_capacity rest.old.held }
    ensures rest { item_at progress.now.limits.max_item (place_of progress.now) rest.old.held.items ≡ Err ParseStop.Short
        → IsWalkOf progress.now.limits.max_item (place_of progress.now) rest.old.held.items rest.old.walk
        → rest.old.passing ≡ None
        → IsRest progress.now.limits.max_item (place_of progress.now) rest.old.held.items rest.new }
{
    if let Some(passing) = passing_at(progress, &rest.held) {
        rest.clear();
        rest.passing = Some(passing);
    }
}

/// Appends bytes to the held item, and hands it to the sink once it is complete. Returns the bytes after the item, or those that were not
/// yet appended.
fn finish_once<'a, S: Sink>(
    progress: &mut Progress,
    rest: &mut Rest,
    bytes: &'a [u8],
    sink: &mut S,
) -> Result<&'a [u8], PartFault>
    requires counted { IsCounted progress.old (rest_len rest.old + length bytes.now) }
    requires begun { IsBegun progress.old.header (S.begun sink.old) }
    requires sound { IsSound rest.old }
    requires holds { 0 < length rest.old.held.items }
    requires some { 0 < length bytes.now }
    ensures finished { (front : List ℕ) → IsRest progress.old.limits.max_item (place_of progress.old) front rest.old
        → FinishesHeld S.begins S.steps S.refuses S.failed progress.old front bytes.now sink.old (seen result) progress.new rest.new
        sink.new }
    ensures sound { OnOk result (IsSound rest.new) }
    ensures full { result ≡ Err PartFault.OutOfMemory → NeedsGrowth rest.old (length bytes.now) }
    ensures room { IfOk result (λ left. KeepsRoom rest.old (length bytes.now) rest.new (length left.now)) }
    ensures shorter { IfOk result (λ left. length left.now + min 1 (length rest.new.held.items) < length bytes.now + min 1
        (length rest.old.held.items)) }
    ensures less { IfOk result (λ left. length left.now ≤ length bytes.now) }
    ensures counted { IfOk result (λ left. IsCounted progress.new (rest_len rest.new + length left.now)) }
    ensures begun { OnOk result (IsBegun progress.new.header (S.begun sink.new)) }
    ensures kept { (header : Header) → progress.old.header ≡ Some header → progress.new.header ≡ Some header }
{
    let before = rest.held.len();
    let count = portion(before, progress.limits.max_item).min(bytes.len());
    let (more, behind) = bytes.split_at(count);
    hold(&mut rest.held, more)?;
    if walks_short(progress, rest) {
        return Ok(behind);
    }
    let mut fact = Fact::End { thread: 0 };
    if let Some(len) = progress.step(&rest.held, &mut fact, sink)? {
        rest.clear();
        let (_, behind) = bytes.split_at(len.saturating_sub(before));
        return Ok(behind);
    }
    count_passed(progress, rest);
    Ok(behind)
}

/// Completes the held item, as far as there are bytes, and hands it to the sink. Returns the bytes after the item.
fn finish_held<'a, S: Sink>(
    progress: &mut Progress,
    rest: &mut Rest,
    bytes: &'a [u8],
    sink: &mut S,
) -> Result<&'a [u8], PartFault>
    requires counted { IsCounted progress.old (rest_len rest.old + length bytes.now) }
    requires begun { IsBegun progress.old.header (S.begun sink.old) }
    requires sound { IsSound rest.old }
    ensures finished { (front : List ℕ) → IsRest progress.old.limits.max_item (place_of progress.old) front rest.old
        → FinishesHeld S.begins S.steps S.refuses S.failed progress.old front bytes.now sink.old (seen result) progress.new rest.new
        sink.new }
    ensures full { result ≡ Err PartFault.OutOfMemory → NeedsGrowth rest.old (length bytes.now) }
    ensures room { IfOk result (λ left. KeepsRoom rest.old (length bytes.now) rest.new (length left.now)) }
    ensures done { IfOk result (λ left. (length rest.new.held.items ≡ 0) ⊎ (left.now ≡ [])) }
    ensures sound { OnOk result (IsSound rest.new) }
    ensures less { IfOk result (λ left. length left.now ≤ length bytes.now) }
    ensures counted { IfOk result (λ left. IsCounted progress.new (rest_len rest.new + length left.now)) }
    ensures begun { OnOk result (IsBegun progress.new.header (S.begun sink.new)) }
    ensures kept { (header : Header) → progress.old.header ≡ Some header → progress.new.header ≡ Some header }
{
    let mut left = bytes;
    while !rest.held.is_empty() && !left.is_empty() {
        left = finish_once(progress, rest, left, sink)?;
    }
    Ok(left)
}

/// Reads the complete items at the front of the held bytes followed by `bytes`. Returns the bytes that are left.
pub(crate) fn read_on<'a, S: Sink>(
    progress: &mut Progress,
    rest: &mut Rest,
    bytes: &'a [u8],
    sink: &mut S,
) -> Result<&'a [u8], PartFault>
    requires counted { IsCounted progress.old (rest_len rest.old + length bytes.now) }
    requires begun { IsBegun progress.old.header (S.begun sink.old) }
    requires sound { IsSound rest.old }
    ensures read { (front : List ℕ) → IsRest progress.old.limits.max_item (place_of progress.old) front rest.old
        → ReadsOn S.begins S.steps S.refuses S.failed progress.old front bytes.now sink.old (seen result) progress.new rest.new sink.new }
    ensures full { result ≡ Err PartFault.OutOfMemory → NeedsGrowth rest.old (length bytes.now) }
    ensures room { IfOk result (λ left. KeepsRoom rest.old (length bytes.now) rest.new (length left.now)) }
    ensures sound { OnOk result (IsSound rest.new) }
    ensures less { IfOk result (λ left. length left.now ≤ length bytes.now) }
    ensures counted { IfOk result (λ left. IsCounted progress.new (rest_len rest.new + length left.now)) }
    ensures begun { OnOk result (IsBegun progress.new.header (S.begun sink.new)) }
    ensures kept { (header : Header) → progress.old.header ≡ Some header → progress.new.header ≡ Some header }
{
    let left = finish_held(progress, rest, bytes, sink)?;
    let left = pass_over(progress, rest, left);
    if rest.passing.is_some() || !rest.held.is_empty() {
        return Ok(left);
    }
    rest.clear();
    progress.walk(left, sink)
}

/// Holds the rest after the last complete item: its bytes, or the number of bytes that have come of a record that is skipped.
pub(crate) fn keep(progress: &Progress, rest: &mut Rest, left: &[u8]) -> Result<(), PartFault>
    requires counted { IsCounted progress.now (rest_len rest.old + length left.now) }
    requires sound { IsSound rest.old }
    ensures ok { OnOk result ((still : List ℕ) → IsRest progress.now.limits.max_item (place_of progress.now) still rest.old
        → item_at progress.now.limits.max_item (place_of progress.now) (still ++ left.now) ≡ Err ParseStop.Short
        → (still ≡ []) ⊎ (left.now ≡ [])
        → IsRest progress.now.limits.max_item (place_of progress.now) (still ++ left.now) rest.new) }
    ensures err { OnErr result ((result ≡ Err PartFault.OutOfMemory) × (0 < length left.now)
        × ((still : List ℕ) → (still ≡ []) ⊎ (left.now ≡ [])
        → 0 < length (held_of progress.now.limits.max_item (place_of progress.now) (still ++ left.now)))) }
    ensures full { OnErr result (NeedsGrowth rest.old (length left.now)) }
    ensures sound { OnOk result (IsSound rest.new) }
    ensures counted { OnOk result (IsCounted progress.now (rest_len rest.new)) }
{
    if left.is_empty() {
        return Ok(());
    }
    if let Some(passing) = passing_at(progress, left) {
        rest.passing = Some(passing);
        return Ok(());
    }
    hold(&mut rest.held, left)
}
