//! What a queue keeps of one fact.

ghost use Rattle.std.specs.Prelude.{◌≡◌, Some};
ghost use Rattle.std.specs.Option.{option_map};
ghost use Rattle.hprof_items.specs.FactValue.{FactValue, ListsHave, value_of};
ghost use Rattle.hprof_items.specs.Spelling.{Fits};
ghost use Rattle.hprof_items.specs.SubRecord.{dump_bytes};
ghost use Rattle.hprof_rows.specs.Spelled.{Spells};
ghost use Rattle.hprof_facts.specs.Kept.{Keeps};

use hprof_items::{Fact, IdList, read_sub_into};
use hprof_values::IdSize;

/// The form of a fact, and its numbers where a record states it.
#[derive(Clone, Copy, Debug, PartialEq, Eq)]
pub(crate) enum Form {
    /// A name, of which the bytes are kept.
    Name {
        id: u64,
    },
    Load {
        serial: u32,
        class: u64,
        trace: u32,
        name: u64,
    },
    Unload {
        serial: u32,
    },
    Frame {
        id: u64,
        method: u64,
        signature: u64,
        source: u64,
        class_serial: u32,
        line: i32,
    },
    /// A stack, of which the bytes of its frames are kept.
    Trace {
        serial: u32,
        thread: u32,
    },
    Start {
        thread: u32,
        object: u64,
        trace: u32,
        name: u64,
        group: u64,
        parent_group: u64,
    },
    End {
        thread: u32,
    },
    /// An object, whose bytes are kept as they came.
    Object {
        id: u64,
    },
    /// Another sub-record, whose bytes are kept as they came.
    Spelled,
}

/// A form, and where the bytes behind it stand.
#[derive(Clone, Copy, Debug, PartialEq, Eq)]
pub(crate) struct Slot {
    pub(crate) form: Form,
    pub(crate) at: usize,
    pub(crate) len: usize,
}

/// Returns what is kept of a fact: its form, and bytes.
#[inline(always)]
pub(crate) fn form_of<'a>(fact: &Fact<'a>, spelled: &'a [u8]) -> (Form, &'a [u8])
    ensures keeps { (ids : IdSize) → Fits ids (value_of fact.now) → ListsHave ids fact.now
        → spelled.now ≡ dump_bytes ids (value_of fact.now)
        → Keeps ids result.0 result.1.now (value_of fact.now) }
{
    match *fact {
        Fact::Name { id, text } => (Form::Name { id }, text),
        Fact::Load {
            serial,
            class,
            trace,
            name,
        } => (
            Form::Load {
                serial,
                class,
                trace,
                name,
            },
            b"",
        ),
        Fact::Unload { serial } => (Form::Unload { serial }, b""),
        Fact::Frame {
            id,
            method,
            signature,
            source,
            class_serial,
            line,
        } => (
            Form::Frame {
                id,
                method,
                signature,
                source,
                class_serial,
                line,
            },
            b"",
        ),
        Fact::Trace {
            serial,
            thread,
            frames,
        } => (Form::Trace { serial, thread }, frames.bytes()),
        Fact::Start {
            thread,
            object,
            trace,
            name,
            group,
            parent_group,
        } => (
            Form::Start {
                thread,
                object,
                trace,
                name,
                group,
                parent_group,
            },
            b"",
        ),
        Fact::End { thread } => (Form::End { thread }, b""),
        Fact::Instance { id, .. } | Fact::ObjArray { id, .. } | Fact::PrimArray { id, .. } => {
            (Form::Object { id }, spelled)
        }
        _ => (Form::Spelled, spelled),
    }
}

/// Returns the fact of which this is kept, if there is one.
#[inline(always)]
pub(crate) fn kept_fact(form: Form, bytes: &[u8], ids: IdSize) -> Option<Fact<'_>>
    ensures fact { (value : FactValue) → Keeps ids form bytes.now value → option_map value_of result ≡ Some value }
{
    match form {
        Form::Name { id } => Some(Fact::Name { id, text: bytes }),
        Form::Load {
            serial,
            class,
            trace,
            name,
        } => Some(Fact::Load {
            serial,
            class,
            trace,
            name,
        }),
        Form::Unload { serial } => Some(Fact::Unload { serial }),
        Form::Frame {
            id,
            method,
            signature,
            source,
            class_serial,
            line,
        } => Some(Fact::Frame {
            id,
            method,
            signature,
            source,
            class_serial,
            line,
        }),
        Form::Trace { serial, thread } => {
            if bytes.len() % ids.width() != 0 {
                return None;
            }
            Some(Fact::Trace {
                serial,
                thread,
                frames: IdList::of_whole(bytes, ids),
            })
        }
        Form::Start {
            thread,
            object,
            trace,
            name,
            group,
            parent_group,
        } => Some(Fact::Start {
            thread,
            object,
            trace,
            name,
            group,
            parent_group,
        }),
        Form::End { thread } => Some(Fact::End { thread }),
        Form::Object { .. } | Form::Spelled => sub_fact(bytes, ids),
    }
}

/// Returns the fact that the bytes of a sub-record spell, if they spell one.
#[inline(always)]
fn sub_fact(bytes: &[u8], ids: IdSize) -> Option<Fact<'_>>
    ensures fact { (value : FactValue) → Spells ids value bytes.now → option_map value_of result ≡ Some value }
{
    let mut fact = Fact::End { thread: 0 };
    if bytes.is_empty() {
        return None;
    }
    let Ok(len) = u32::try_from(bytes.len()) else {
        return None;
    };
    match read_sub_into(bytes, len, len, ids, &mut fact) {
        Ok(_) => Some(fact),
        Err(_) => None,
    }
}
