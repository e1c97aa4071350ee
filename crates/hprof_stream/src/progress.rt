//! The progress of reading a part, and the step over one item.

ghost use Rattle.std.specs.Prelude.{◌≡◌, ℕ, true, ◌+◌, ◌≤◌, length, drop, Some, None, Option, IfOk, IfErr, OnOk};
ghost use Rattle.hprof_stream.specs.Item.{item_at};
ghost use Rattle.hprof_stream.specs.ItemValue.{with_fact, bare, read_with};
ghost use Rattle.hprof_stream.specs.ItemStep.{IsFound, IfRead, IsOfPlace, ItemLists, facts_stated};
ghost use Rattle.hprof_items.specs.declared.header.Header.{Header};
ghost use Rattle.hprof_items.specs.Spelling.{longest_body};
ghost use Rattle.hprof_values.specs.Ids.{IsBytes};
ghost use Rattle.hprof_stream.specs.Walking.{IsBegun, GivesFit, Gives, GivesSome, Refuses, told_by};

use crate::item::{Item, first_item, record_item};
use crate::limits::Limits;
use crate::part_fault::PartFault;
use crate::sink::{Sink, SinkFault};
use hprof_items::{Fact, Header, IdSize, ParseStop, read_sub_into};

/// The progress of reading a part: the complete items from its start.
#[derive(Clone, Copy)]
pub(crate) struct Progress {
    pub(crate) limits: Limits,
    /// The header, once it is read.
    pub(crate) header: Option<Header>,
    /// The number of bytes left in the heap dump record that the next item is in; 0 if it is in none.
    pub(crate) room: u32,
    /// The offset of the next item.
    pub(crate) at: u64,
    /// The number of records so far.
    pub(crate) records: u64,
    /// The number of facts so far.
    pub(crate) facts: u64,
    /// True if one of the records ended a heap dump.
    pub(crate) ended: bool,
}

impl Progress {
    ghost use Rattle.hprof_stream.specs.Progress.{start_of, place_of, advanced, IsCounted, IsNext, IsOutside};
    ghost use Rattle.hprof_stream.specs.Walking.{StepsOver, WalksSubs, WalksAll, told_by, seen};

    /// Returns the progress at the start of a part.
    pub(crate) fn start(limits: Limits) -> Self
        ensures { result ≡ start_of limits }
    {
        Progress {
            limits,
            header: None,
            room: 0,
            at: 0,
            records: 0,
            facts: 0,
            ended: false,
        }
    }

    /// Reads the header or the record at the front. Stores its fact in `fact`.
    fn item<'a>(&self, bytes: &'a [u8], fact: &mut Fact<'a>) -> Result<(Item, usize), ParseStop>
        requires { IsOutside self.now }
        ensures found { IsFound (place_of self.now) (read_with result fact.new)
            (item_at self.now.limits.max_item (place_of self.now) bytes.now) }
        ensures place { IfRead (read_with result fact.new) (IsOfPlace (place_of self.now) bytes.now) }
        ensures lists { IfRead (read_with result fact.new) (ItemLists self.now.header) }
    {
        let longest = self.limits.max_item;
        match self.header {
            None => first_item(bytes, longest),
            Some(header) => record_item(&header, bytes, longest, fact),
        }
    }

    /// Notes the header, even if the sink refuses it.
    fn tell(&mut self, item: &Item)
        ensures { self.new ≡ record self.old { header = told_by self.old.header (bare item.now) } }
    {
        if let Item::Header(header) = *item {
            self.header = Some(header);
        }
    }

    /// Counts an item that was read.
    pub(crate) fn advance(&mut self, item: &Item, len: usize)
        requires counted { IsCounted self.old len }
        requires next { IsNext self.old (bare item.now) len }
        ensures { self.new ≡ advanced self.old (bare item.now) len }
    {
        self.at += len as u64;
        match *item {
            Item::Header(header) => {
                self.header = Some(header);
                self.room = 0;
            }
            Item::Fact => {
                self.records += 1;
                self.facts += 1;
            }
            Item::Dump(room) => {
                self.records += 1;
                self.room = room;
            }
            Item::End => {
                self.records += 1;
                self.ended = true;
            }
            Item::Skipped => self.records += 1,
        }
    }

    /// Steps over the sub-record at the front, in a part with this header, as [`Progress::step`] does.
    #[inline(always)]
    fn step_sub<'a, S: Sink>(
        &mut self,
        header: &Header,
        bytes: &'a [u8],
        fact: &mut Fact<'a>,
        sink: &mut S,
    ) -> Result<Option<usize>, PartFault>
        requires header { self.old.header ≡ Some header.now }
        requires room { 1 ≤ self.old.room }
        requires counted { IsCounted self.old (length bytes.now) }
        requires begun { IsBegun self.old.header (S.begun sink.old) }
        ensures step { StepsOver S.begins S.steps S.refuses S.failed self.old bytes.now sink.old result self.new sink.new }
        ensures begun { OnOk result (IsBegun self.new.header (S.begun sink.new)) }
    {
        let at = self.at;
        match read_sub_into(bytes, self.room, self.limits.max_item, header.ids, fact) {
            Ok(len) => {
                let (spelled, _) = bytes.split_at(len);
                if let Err(fault) = sink.take(fact, spelled) {
                    return Err(PartFault::Sink(fault));
                }
                self.at += len as u64;
                self.facts += 1;
                self.room -= len as u32;
                Ok(Some(len))
            }
            Err(ParseStop::Short) => Ok(None),
            Err(ParseStop::TooLong) => Err(PartFault::ItemTooLong { at }),
            Err(ParseStop::Fault(reason)) => Err(PartFault::Malformed { at, reason }),
        }
    }

    /// Steps over the header or the record at the front, as [`Progress::step`] does. It is not inlined into the loop over items, since few
    /// items are headers or records.
    #[inline(never)]
    fn step_outside<'a, S: Sink>(
        &mut self,
        bytes: &'a [u8],
        fact: &mut Fact<'a>,
        sink: &mut S,
    ) -> Result<Option<usize>, PartFault>
        requires outside { IsOutside self.old }
        requires room { self.old.room ≤ longest_body }
        requires counted { IsCounted self.old (length bytes.now) }
        requires begun { IsBegun self.old.header (S.begun sink.old) }
        ensures step { StepsOver S.begins S.steps S.refuses S.failed self.old bytes.now sink.old result self.new sink.new }
        ensures begun { OnOk result (IsBegun self.new.header (S.begun sink.new)) }
    {
        let at = self.at;
        match self.item(bytes, fact) {
            Ok((item, len)) => {
                if let Err(fault) = give(&item, fact, sink) {
                    self.tell(&item);
                    return Err(PartFault::Sink(fault));
                }
                self.advance(&item, len);
                Ok(Some(len))
            }
            Err(ParseStop::Short) => Ok(None),
            Err(ParseStop::TooLong) => Err(PartFault::ItemTooLong { at }),
            Err(ParseStop::Fault(reason)) => Err(PartFault::Malformed { at, reason }),
        }
    }

    /// Steps over the item at the front and hands it to the sink. Returns the number of its bytes, or `None` if it needs more bytes.
    ///
    /// The item's fact is stored in `fact`, whose value before and after is unspecified. It is not inlined, since few items come in two
    /// pieces.
    #[inline(never)]
    pub(crate) fn step<'a, S: Sink>(
        &mut self,
        bytes: &'a [u8],
        fact: &mut Fact<'a>,
        sink: &mut S,
    ) -> Result<Option<usize>, PartFault>
        requires counted { IsCounted self.old (length bytes.now) }
        requires begun { IsBegun self.old.header (S.begun sink.old) }
        ensures step { StepsOver S.begins S.steps S.refuses S.failed self.old bytes.now sink.old result self.new sink.new }
        ensures begun { OnOk result (IsBegun self.new.header (S.begun sink.new)) }
        ensures room { self.old.room ≤ longest_body }
        ensures bytes { IsBytes bytes.now }
    {
        let room = self.room;
        match self.header {
            Some(header) if room > 0 => self.step_sub(&header, bytes, fact, sink),
            _ => self.step_outside(bytes, fact, sink),
        }
    }

    /// Returns whether the next item is outside of every heap dump record.
    #[inline(always)]
    fn is_outside(&self) -> bool
        ensures outside { result ≡ true → IsOutside self.now }
        ensures within { IsOutside self.now → result ≡ true }
        ensures room { self.now.room ≤ longest_body }
    {
        let room = self.room;
        self.header.is_none() || room == 0
    }

    /// Steps over the complete sub-records at the front, as far as the heap dump record reaches, and returns the bytes after them. Outside
    /// of a heap dump record these are all bytes. The part has this header.
    #[inline(always)]
    fn walk_within<'a, S: Sink>(
        &mut self,
        header: Header,
        bytes: &'a [u8],
        fact: &mut Fact<'a>,
        sink: &mut S,
    ) -> Result<&'a [u8], PartFault>
        requires header { self.old.header ≡ Some header }
        requires counted { IsCounted self.old (length bytes.now) }
        requires begun { IsBegun self.old.header (S.begun sink.old) }
        ensures walk { WalksSubs S.begins S.steps S.refuses S.failed self.old bytes.now sink.old (seen result) self.new sink.new }
        ensures begun { OnOk result (IsBegun self.new.header (S.begun sink.new)) }
    {
        let mut rest = bytes;
        // It goes on in a copy, which needs no place in memory, so that a step writes none of it back.
        let mut progress = *self;
        while progress.room > 0 {
            match progress.step_sub(&header, rest, fact, sink) {
                Ok(Some(len)) => (_, rest) = rest.split_at(len),
                Ok(None) => break,
                Err(fault) => {
                    *self = progress;
                    return Err(fault);
                }
            }
        }
        *self = progress;
        Ok(rest)
    }

    /// Steps over the complete sub-records at the front, as [`Progress::walk_within`] does. Before the header there is none.
    #[inline(always)]
    fn walk_subs<'a, S: Sink>(
        &mut self,
        bytes: &'a [u8],
        fact: &mut Fact<'a>,
        sink: &mut S,
    ) -> Result<&'a [u8], PartFault>
        requires counted { IsCounted self.old (length bytes.now) }
        requires begun { IsBegun self.old.header (S.begun sink.old) }
        ensures walk { WalksSubs S.begins S.steps S.refuses S.failed self.old bytes.now sink.old (seen result) self.new sink.new }
        ensures begun { OnOk result (IsBegun self.new.header (S.begun sink.new)) }
    {
        let Some(header) = self.header else {
            return Ok(bytes);
        };
        // Where the size stands in the text, the loop is compiled for each size by itself.
        match header.ids {
            IdSize::Four => self.walk_within(
                Header {
                    ids: IdSize::Four,
                    ..header
                },
                bytes,
                fact,
                sink,
            ),
            IdSize::Eight => self.walk_within(
                Header {
                    ids: IdSize::Eight,
                    ..header
                },
                bytes,
                fact,
                sink,
            ),
        }
    }

    /// Steps over the complete items at the front, and returns the bytes after them.
    pub(crate) fn walk<'a, S: Sink>(
        &mut self,
        bytes: &'a [u8],
        sink: &mut S,
    ) -> Result<&'a [u8], PartFault>
        requires counted { IsCounted self.old (length bytes.now) }
        requires begun { IsBegun self.old.header (S.begun sink.old) }
        ensures walk { WalksAll S.begins S.steps S.refuses S.failed self.old bytes.now sink.old (seen result) self.new sink.new }
        ensures shorter { IfOk result (λ rest. length rest.now ≤ length bytes.now) }
        ensures begun { OnOk result (IsBegun self.new.header (S.begun sink.new)) }
    {
        let mut rest = bytes;
        let mut fact = Fact::End { thread: 0 };
        loop {
            rest = self.walk_subs(rest, &mut fact, sink)?;
            if !self.is_outside() {
                return Ok(rest);
            }
            let Some(len) = self.step_outside(rest, &mut fact, sink)? else {
                return Ok(rest);
            };
            (_, rest) = rest.split_at(len);
        }
    }
}

/// Hands a header, or the fact of a record, to the sink.
fn give<S: Sink>(item: &Item, fact: &Fact<'_>, sink: &mut S) -> Result<(), SinkFault>
    requires { GivesFit (S.begun sink.old) (with_fact item.now fact.now) }
    ensures gives { OnOk result (Gives S.begins S.steps sink.old (with_fact item.now fact.now) sink.new) }
    ensures begun { OnOk result ((header : Option Header) → IsBegun header (S.begun sink.old)
        → IsBegun (told_by header (with_fact item.now fact.now)) (S.begun sink.new)) }
    ensures refused { IfErr result (λ fault. GivesSome (with_fact item.now fact.now)
        × Refuses S.refuses S.failed sink.old (facts_stated (with_fact item.now fact.now)) fault sink.new) }
{
    match item {
        Item::Header(header) => sink.begin_part(*header),
        Item::Fact => sink.take(fact, &[]),
        Item::Dump(_) | Item::End | Item::Skipped => Ok(()),
    }
}
