//! Adding facts to tables.

ghost use Rattle.std.specs.Prelude.{◌≡◌, [], ◌∷◌};
ghost use Rattle.hprof_values.specs.Lists.{identifiers_of, identifiers_size};
ghost use Rattle.hprof_items.specs.FactValue.{Trace, ListsHave, value_of};
ghost use Rattle.hprof_items.specs.Spelling.{Fits};
ghost use Rattle.hprof_items.specs.SubRecord.{dump_bytes};
ghost use Rattle.hprof_byte_tables.specs.BytesTable.{byte_rows};
ghost use Rattle.hprof_byte_tables.specs.Spans.{the_bytes};
ghost use Rattle.hprof_rows.specs.declared.table.Table.TheVariants as tables;
ghost use Rattle.hprof_rows.specs.Content.{content_of};
ghost use Rattle.hprof_rows.specs.EachTable.{StatesFact, StatesRow, with_rows};
ghost use Rattle.hprof_rows.specs.Order.{order_of};
ghost use Rattle.hprof_heap.specs.Tables.{rows_in_tables};

use super::Tables;
use hprof_items::Fact;
use hprof_rows::{FrameRow, KeyRow, LoadRow, StartRow, thread_bytes};
use hprof_tables::Stated;
use hprof_values::IdList;
use std::alloc::AllocError;

impl Tables {
    /// Adds a stack trace. It is stored as the serial number of its thread, followed by the identifiers of its frames.
    fn state_trace(
        &mut self,
        serial: u32,
        thread: u32,
        frames: IdList<'_>,
    ) -> Result<Stated, AllocError>
        requires { identifiers_size frames ≡ self.old.ids }
        ensures { StatesFact (rows_in_tables self.old) (Trace serial thread (identifiers_of frames.entry)) result
            (rows_in_tables self.new) }
    {
        self.traces
            .state_prefixed(serial as u64, thread_bytes(thread), frames.bytes())
    }

    /// Adds an instance or an array with these sub-record bytes. They are stored without the identifier.
    #[inline(always)]
    fn state_object(&mut self, id: u64, fact: &Fact<'_>, bytes: &[u8]) -> Result<Stated, AllocError>
        requires order { order_of (value_of fact.now) ≡ 9 ∷ id ∷ [] }
        requires fits { Fits self.old.ids (value_of fact.now) }
        requires spelled { bytes.now ≡ dump_bytes self.old.ids (value_of fact.now) }
        ensures row { StatesRow the_bytes (byte_rows self.old.objects) id (content_of self.old.ids (value_of fact.now)) result
            (byte_rows self.new.objects) }
        ensures only { rows_in_tables self.new ≡ with_rows tables.Objects (rows_in_tables self.old) (rows_in_tables self.new) }
    {
        let Some((tag, fields)) = bytes.split_first() else {
            unreachable!()
        };
        let (_, rest) = fields.split_at(self.ids.width());
        self.objects.state_split(id, *tag, rest)
    }

    /// Adds a fact as [`Tables::state`] does. It is not inlined into the loop over the facts of a part, since few facts are not objects.
    #[inline(never)]
    fn state_any(&mut self, fact: &Fact<'_>, bytes: &[u8]) -> Result<Stated, AllocError>
        requires fits { Fits self.old.ids (value_of fact.now) }
        requires lists { ListsHave self.old.ids fact.now }
        requires spelled { bytes.now ≡ dump_bytes self.old.ids (value_of fact.now) }
        ensures { StatesFact (rows_in_tables self.old) (value_of fact.now) result (rows_in_tables self.new) }
    {
        match *fact {
            Fact::Name { id, text } => self.names.state(id, text),
            Fact::Load {
                serial,
                class,
                trace,
                name,
            } => {
                let row = LoadRow { class, trace, name };
                self.loads.state(serial as u64, row)
            }
            Fact::Unload { serial } => self.unloads.state(serial as u64, KeyRow),
            Fact::Frame {
                id,
                method,
                signature,
                source,
                class_serial,
                line,
            } => {
                let row = FrameRow {
                    method,
                    signature,
                    source,
                    class_serial,
                    line,
                };
                self.frames.state(id, row)
            }
            Fact::Trace {
                serial,
                thread,
                frames,
            } => self.state_trace(serial, thread, frames),
            Fact::Start {
                thread,
                object,
                trace,
                name,
                group,
                parent_group,
            } => {
                let row = StartRow {
                    object,
                    trace,
                    name,
                    group,
                    parent_group,
                };
                self.starts.state(thread as u64, row)
            }
            Fact::End { thread } => self.ends.state(thread as u64, KeyRow),
            Fact::Root(root) => self.roots.state(root),
            Fact::Class { id, .. } => self.classes.state(id, bytes),
            Fact::Instance { id, .. } | Fact::ObjArray { id, .. } | Fact::PrimArray { id, .. } => {
                self.state_object(id, fact, bytes)
            }
        }
    }

    /// Adds a fact. `bytes` is its sub-record, if a sub-record states it, and empty otherwise. If the fact is present, nothing is
    /// allocated. If memory runs out, the tables are unchanged.
    #[inline(always)]
    pub(crate) fn state(&mut self, fact: &Fact<'_>, bytes: &[u8]) -> Result<Stated, AllocError>
        requires fits { Fits self.old.ids (value_of fact.now) }
        requires lists { ListsHave self.old.ids fact.now }
        requires spelled { bytes.now ≡ dump_bytes self.old.ids (value_of fact.now) }
        ensures { StatesFact (rows_in_tables self.old) (value_of fact.now) result (rows_in_tables self.new) }
    {
        match *fact {
            Fact::Instance { id, .. } | Fact::ObjArray { id, .. } | Fact::PrimArray { id, .. } => {
                self.state_object(id, fact, bytes)
            }
            _ => self.state_any(fact, bytes),
        }
    }
}
