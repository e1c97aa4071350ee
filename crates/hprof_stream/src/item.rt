//! Reading one item: the header, a record, or the head of a heap dump record.

ghost use Rattle.std.specs.Prelude.{◌≡◌, Some, None};
ghost use Rattle.hprof_items.specs.Head.{kind_of};
ghost use Rattle.hprof_items.specs.Reading.{IsRightHead};
ghost use Rattle.hprof_items.specs.Spelling.{longest_body};
ghost use Rattle.hprof_stream.specs.Item.{Start, Between, found_record, item_at};
ghost use Rattle.hprof_items.specs.declared.fact.Fact.{Fact};
ghost use Rattle.hprof_stream.specs.ItemValue.{Skipped, read_with};
ghost use Rattle.hprof_stream.specs.ItemStep.{IsFound, IfRead, IsOfPlace, ItemLists, IsFact};

use hprof_items::{
    Fact, HEAD_LEN, Head, HeadKind, Header, ParseStop, read_body_into, read_head, read_header,
};

/// The header or a record. Its fact is stored separately, so that no fact is moved from call to call.
#[derive(Clone, Copy)]
pub(crate) enum Item {
    /// The header.
    Header(Header),
    /// A record that states a fact.
    Fact,
    /// The head of a heap dump record, with the number of bytes of its sub-records.
    Dump(u32),
    /// The end of a heap dump.
    End,
    /// A record that is skipped.
    Skipped,
}

/// Returns the item at the first byte of a part.
#[tactic(auto, unfolding(crate::specs::Item::item_at))]
pub(crate) fn first_item(bytes: &[u8], longest: u32) -> Result<(Item, usize), ParseStop>
    ensures found { (fact : Fact) → IsFound Start (read_with result fact) (item_at longest Start bytes.now) }
    ensures place { (fact : Fact) → IfRead (read_with result fact) (IsOfPlace Start bytes.now) }
    ensures lists { (fact : Fact) → IfRead (read_with result fact) (ItemLists None) }
{
    let (header, len) = read_header(bytes)?;
    Ok((Item::Header(header), len))
}

/// Reads a record that states a fact. Its head was read.
fn fact_item<'a>(
    header: &Header,
    head: &Head,
    bytes: &'a [u8],
    fact: &mut Fact<'a>,
) -> Result<(Item, usize), ParseStop>
    requires whole { IsRightHead header.now.ids longest_body head.now }
    requires kind { kind_of head.now.tag ≡ HeadKind.FactRecord }
    ensures found { IsFound (Between header.now) (read_with result fact.new)
        (found_record header.now HeadKind.FactRecord head.now bytes.now) }
    ensures fact { IfRead (read_with result fact.new) IsFact }
    ensures lists { IfRead (read_with result fact.new) (ItemLists (Some header.now)) }
{
    let len = HEAD_LEN + head.length as usize;
    if bytes.len() < len {
        return Err(ParseStop::Short);
    }
    match read_body_into(head, &bytes[HEAD_LEN..len], header.ids, fact) {
        Ok(()) => Ok((Item::Fact, len)),
        Err(reason) => Err(ParseStop::Fault(reason)),
    }
}

/// Reads a record that is skipped. Its head was read.
fn skipped_item(header: &Header, head: &Head, bytes: &[u8]) -> Result<(Item, usize), ParseStop>
    ensures found { (fact : Fact) → IsFound (Between header.now) (read_with result fact)
        (found_record header.now HeadKind.Skipped head.now bytes.now) }
    ensures skipped { (fact : Fact) → IfRead (read_with result fact) (λ item. item ≡ Skipped) }
{
    let len = HEAD_LEN + head.length as usize;
    if bytes.len() < len {
        return Err(ParseStop::Short);
    }
    Ok((Item::Skipped, len))
}

/// Reads the item at the front, between two records. Stores its fact in `fact`.
#[tactic(auto, unfolding(crate::specs::Item::item_at))]
pub(crate) fn record_item<'a>(
    header: &Header,
    bytes: &'a [u8],
    longest: u32,
    fact: &mut Fact<'a>,
) -> Result<(Item, usize), ParseStop>
    ensures found { IsFound (Between header.now) (read_with result fact.new) (item_at longest (Between header.now) bytes.now) }
    ensures place { IfRead (read_with result fact.new) (IsOfPlace (Between header.now) bytes.now) }
    ensures lists { IfRead (read_with result fact.new) (ItemLists (Some header.now)) }
{
    let (head, _) = read_head(bytes, header.ids, longest)?;
    match head.kind() {
        HeadKind::FactRecord => fact_item(header, &head, bytes, fact),
        HeadKind::HeapDump => Ok((Item::Dump(head.length), HEAD_LEN)),
        HeadKind::DumpEnd => Ok((Item::End, HEAD_LEN)),
        HeadKind::Skipped => skipped_item(header, &head, bytes),
    }
}
