//! Reading the body of a record that states one fact.

ghost use Rattle.std.specs.Prelude.{◌≡◌, ◌≤◌, length, sum, true, Some, Ok, Err, IfOk, OnOk, IsOkAnd, MatchResult};
ghost use Rattle.hprof_values.specs.declared.record_tag.RecordTag.{RecordTag};
ghost use Rattle.hprof_values.specs.RecordTag.{record_fields, record_of_code};
ghost use Rattle.hprof_items.specs.Head.{kind_of};
ghost use Rattle.hprof_items.specs.Spelling.{longest_body};
ghost use Rattle.hprof_items.specs.Reading.{body_at, IsRightHead};
ghost use Rattle.hprof_items.specs.FactValue.{FactValue, value_of, ListsHave};
ghost use Rattle.hprof_items.specs.RecordBody.{is_legal_body, record_body, record_at, BodyFits};

use crate::fact::Fact;
use crate::head::{Head, HeadKind};
use hprof_values::number::{ids_len, split_id, split_u32};
use hprof_values::{IdList, IdSize, Reason, RecordTag};

/// Reads a class that was loaded.
#[tactic(auto, unfolding(crate::specs::RecordBody::record_at))]
fn read_load<'a>(body: &'a [u8], ids: IdSize) -> Fact<'a>
    requires { sum (record_fields ids RecordTag.LoadClass) ≤ length body.now }
    ensures exact { record_at ids RecordTag.LoadClass body.now ≡ Ok (value_of result) }
    ensures lists { ListsHave ids result }
{
    let (serial, rest) = split_u32(body);
    let (class, rest) = split_id(rest, ids);
    let (trace, rest) = split_u32(rest);
    let (name, _) = split_id(rest, ids);
    Fact::Load {
        serial,
        class,
        trace,
        name,
    }
}

/// Reads a stack frame.
#[tactic(auto, unfolding(crate::specs::RecordBody::record_at))]
fn read_frame<'a>(body: &'a [u8], ids: IdSize) -> Fact<'a>
    requires { sum (record_fields ids RecordTag.Frame) ≤ length body.now }
    ensures exact { record_at ids RecordTag.Frame body.now ≡ Ok (value_of result) }
    ensures lists { ListsHave ids result }
{
    let (id, rest) = split_id(body, ids);
    let (method, rest) = split_id(rest, ids);
    let (signature, rest) = split_id(rest, ids);
    let (source, rest) = split_id(rest, ids);
    let (class_serial, rest) = split_u32(rest);
    let (line, _) = split_u32(rest);
    Fact::Frame {
        id,
        method,
        signature,
        source,
        class_serial,
        line: line.cast_signed(),
    }
}

/// Reads a stack trace. Its body must have as many frames as it states.
#[tactic(auto, unfolding(crate::specs::RecordBody::record_at))]
fn read_trace<'a>(body: &'a [u8], ids: IdSize) -> Result<Fact<'a>, Reason>
    requires { sum (record_fields ids RecordTag.Trace) ≤ length body.now }
    ensures exact { MatchResult result
        (λ fact. record_at ids RecordTag.Trace body.now ≡ Ok (value_of fact))
        (λ reason. record_at ids RecordTag.Trace body.now ≡ Err reason) }
    ensures lists { IfOk result (λ fact. ListsHave ids fact) }
{
    let (serial, rest) = split_u32(body);
    let (thread, rest) = split_u32(rest);
    let (count, rest) = split_u32(rest);
    if rest.len() != ids_len(count, ids) {
        return Err(Reason::BadLength);
    }
    Ok(Fact::Trace {
        serial,
        thread,
        frames: IdList::of_whole(rest, ids),
    })
}

/// Reads a thread that was started.
#[tactic(auto, unfolding(crate::specs::RecordBody::record_at))]
fn read_start<'a>(body: &'a [u8], ids: IdSize) -> Fact<'a>
    requires { sum (record_fields ids RecordTag.StartThread) ≤ length body.now }
    ensures exact { record_at ids RecordTag.StartThread body.now ≡ Ok (value_of result) }
    ensures lists { ListsHave ids result }
{
    let (thread, rest) = split_u32(body);
    let (object, rest) = split_id(rest, ids);
    let (trace, rest) = split_u32(rest);
    let (name, rest) = split_id(rest, ids);
    let (group, rest) = split_id(rest, ids);
    let (parent_group, _) = split_id(rest, ids);
    Fact::Start {
        thread,
        object,
        trace,
        name,
        group,
        parent_group,
    }
}

/// Returns the fact that `read_record` reads.
#[tactic(auto, unfolding(crate::specs::RecordBody::record_at))]
fn fact_in<'a>(
    tag: RecordTag,
    body: &'a [u8],
    ids: IdSize,
    fact: &mut Fact<'a>,
) -> Result<(), Reason>
    requires { is_legal_body ids tag (length body.now) ≡ true }
    ensures exact { MatchResult result
        (λ _. record_at ids tag body.now ≡ Ok (value_of fact.new))
        (λ reason. record_at ids tag body.now ≡ Err reason) }
    ensures lists { OnOk result (ListsHave ids fact.new) }
{
    *fact = match tag {
        RecordTag::Utf8 => {
            let (id, text) = split_id(body, ids);
            Fact::Name { id, text }
        }
        RecordTag::LoadClass => read_load(body, ids),
        RecordTag::UnloadClass => {
            let (serial, _) = split_u32(body);
            Fact::Unload { serial }
        }
        RecordTag::Frame => read_frame(body, ids),
        RecordTag::Trace => read_trace(body, ids)?,
        RecordTag::StartThread => read_start(body, ids),
        RecordTag::EndThread => {
            let (thread, _) = split_u32(body);
            Fact::End { thread }
        }
    };
    Ok(())
}

/// Reads the body of a record that states one fact. The body has a length that the record may have.
pub(crate) fn read_record<'a>(
    tag: RecordTag,
    body: &'a [u8],
    ids: IdSize,
    fact: &mut Fact<'a>,
) -> Result<(), Reason>
    requires { is_legal_body ids tag (length body.now) ≡ true }
    // Which fact it is, or which fault.
    ensures exact { MatchResult result
        (λ _. record_at ids tag body.now ≡ Ok (value_of fact.new))
        (λ reason. record_at ids tag body.now ≡ Err reason) }
    // What is read is spelled so.
    ensures found { OnOk result (BodyFits ids tag (value_of fact.new)
        × (body.now ≡ record_body ids tag (value_of fact.new))) }
    // What is spelled so is read.
    ensures only { (spelled : FactValue) → BodyFits ids tag spelled
        → body.now ≡ record_body ids tag spelled → IsOkAnd result (λ _. value_of fact.new ≡ spelled) }
    // Its lists have identifiers of that size.
    ensures lists { OnOk result (ListsHave ids fact.new) }
{
    fact_in(tag, body, ids, fact)
}

/// Reads the body of a record, as [`read_body`] does, and stores the fact in `fact`. After a fault, the value of `fact` is unspecified.
pub fn read_body_into<'a>(
    head: &Head,
    body: &'a [u8],
    ids: IdSize,
    fact: &mut Fact<'a>,
) -> Result<(), Reason>
    requires whole { IsRightHead ids longest_body head.now }
    requires kind { kind_of head.now.tag ≡ HeadKind.FactRecord }
    requires length { length body.now ≡ head.now.length }
    // Which fact it is, or which fault.
    ensures exact { MatchResult result
        (λ _. body_at ids head.now.tag body.now ≡ Ok (value_of fact.new))
        (λ reason. body_at ids head.now.tag body.now ≡ Err reason) }
    // What is read is spelled so, and has lists of that size.
    ensures found { OnOk result ((known : RecordTag) × (record_of_code head.now.tag ≡ Some known)
        × BodyFits ids known (value_of fact.new) × (body.now ≡ record_body ids known (value_of fact.new))) }
    ensures lists { OnOk result (ListsHave ids fact.new) }
    // What is spelled so is read.
    ensures only { (spelled : FactValue) (known : RecordTag) → record_of_code head.now.tag ≡ Some known → BodyFits ids known spelled
        → body.now ≡ record_body ids known spelled → IsOkAnd result (λ _. value_of fact.new ≡ spelled) }
{
    let Some(known) = RecordTag::from_code(head.tag) else {
        // The head is that of a record with a fact.
        unreachable!()
    };
    read_record(known, body, ids, fact)
}

/// Reads the body of a record that states one fact, whose head was read.
///
/// - `BadLength`: a stack trace has another number of frames than it states. No other fault occurs.
pub fn read_body<'a>(head: &Head, body: &'a [u8], ids: IdSize) -> Result<Fact<'a>, Reason>
    requires whole { IsRightHead ids longest_body head.now }
    requires kind { kind_of head.now.tag ≡ HeadKind.FactRecord }
    requires length { length body.now ≡ head.now.length }
    // Which fact it is, or which fault.
    ensures exact { MatchResult result
        (λ fact. body_at ids head.now.tag body.now ≡ Ok (value_of fact))
        (λ reason. body_at ids head.now.tag body.now ≡ Err reason) }
    // What is read is spelled so, and has lists of that size.
    ensures found { IfOk result (λ fact. (known : RecordTag) × (record_of_code head.now.tag ≡ Some known)
        × BodyFits ids known (value_of fact) × (body.now ≡ record_body ids known (value_of fact))) }
    ensures lists { IfOk result (λ fact. ListsHave ids fact) }
    // What is spelled so is read.
    ensures only { (fact : FactValue) (known : RecordTag) → record_of_code head.now.tag ≡ Some known → BodyFits ids known fact
        → body.now ≡ record_body ids known fact → IsOkAnd result (λ read. value_of read ≡ fact) }
{
    let mut fact = Fact::End { thread: 0 };
    read_body_into(head, body, ids, &mut fact)?;
    Ok(fact)
}
