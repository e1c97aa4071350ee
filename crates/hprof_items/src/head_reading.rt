//! Reading the head of a record.

ghost use Rattle.std.specs.Prelude.{◌≡◌, ℕ, ◌++◌, List, drop, Ok};
ghost use Rattle.hprof_items.specs.declared.head.Head.{Head};
ghost use Rattle.hprof_items.specs.Head.{head_bytes};
ghost use Rattle.hprof_items.specs.RecordBody.{is_legal_body};
ghost use Rattle.hprof_items.specs.Reading.{is_legal, judged_head, head_at, IsRightHead};

use crate::head::{HEAD_LEN, Head, HeadKind};
use crate::tag;
use byteorder::{BigEndian, ByteOrder};
use hprof_values::{IdSize, ParseStop, Reason, RecordTag};

/// Returns whether a record that states one fact may have this length.
fn may_have_body(known: RecordTag, len: usize, ids: IdSize) -> bool
    ensures { result ≡ is_legal_body ids known len }
{
    let id = ids.width();
    match known {
        RecordTag::Utf8 => id <= len,
        RecordTag::LoadClass => len == 8 + 2 * id,
        RecordTag::UnloadClass | RecordTag::EndThread => len == 4,
        RecordTag::Frame | RecordTag::StartThread => len == 8 + 4 * id,
        RecordTag::Trace => 12 <= len,
    }
}

/// Returns whether a record with this tag may have this length.
fn may_have_len(tag: u8, len: u32, ids: IdSize) -> bool
    ensures { result ≡ is_legal ids tag len }
{
    match RecordTag::from_code(tag) {
        Some(known) => may_have_body(known, len as usize, ids),
        None => tag != tag::HEAP_DUMP_END || len == 0,
    }
}

/// Returns the answer of `read_head`, where the fields of the head are there.
fn judge_head(head: Head, ids: IdSize, longest: u32) -> Result<(Head, usize), ParseStop>
    ensures { result ≡ judged_head ids longest head }
{
    if !may_have_len(head.tag, head.length, ids) {
        return Err(ParseStop::Fault(Reason::BadLength));
    }
    if head.kind() == HeadKind::FactRecord && longest < head.length {
        return Err(ParseStop::TooLong);
    }
    Ok((head, HEAD_LEN))
}

/// Returns the result of `read_head`.
#[tactic(auto, unfolding(crate::specs::Reading::head_at))]
fn head_in(bytes: &[u8], ids: IdSize, longest: u32) -> Result<(Head, usize), ParseStop>
    ensures { result ≡ head_at ids longest bytes.now }
{
    if bytes.len() < HEAD_LEN {
        return Err(ParseStop::Short);
    }
    let head = Head {
        tag: bytes[0],
        time: BigEndian::read_u32(&bytes[1..]),
        length: BigEndian::read_u32(&bytes[5..]),
    };
    judge_head(head, ids, longest)
}

/// Reads the head of any record at the front, and returns it with the number of its bytes.
///
/// The tests, in order: its nine bytes are there, the record may have its length, and a record that states one fact has at most `longest`
/// bytes after its head.
pub fn read_head(bytes: &[u8], ids: IdSize, longest: u32) -> Result<(Head, usize), ParseStop>
    // Which head it is, or what stopped it.
    ensures exact { result ≡ head_at ids longest bytes.now }
    // What is read is spelled so, and right.
    ensures found { (head : Head) (n : ℕ) → result ≡ Ok (head, n)
        → (bytes.now ≡ head_bytes head.tag head.time head.length ++ drop n bytes.now) × (n ≡ 9) × IsRightHead ids longest head }
    // What is spelled so and right is read, whatever follows.
    ensures only { (head : Head) (rest : List ℕ) → IsRightHead ids longest head
        → bytes.now ≡ head_bytes head.tag head.time head.length ++ rest → result ≡ Ok (head, 9) }
{
    head_in(bytes, ids, longest)
}
