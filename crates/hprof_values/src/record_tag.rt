//! The tags of records that state one fact, from the comment "HPROF binary format" in heapDumper.cpp.

ghost use Rattle.std.specs.Prelude.{◌≡◌, ◌↔◌};

/// The kind of a record that states one fact.
#[derive(Clone, Copy, Debug, PartialEq, Eq)]
pub enum RecordTag {
    /// UTF8: a name.
    Utf8,
    /// LOAD_CLASS: a class that was loaded.
    LoadClass,
    /// UNLOAD_CLASS: a class that was unloaded.
    UnloadClass,
    /// FRAME: a stack frame.
    Frame,
    /// TRACE: a stack trace.
    Trace,
    /// START_THREAD: a thread that was started.
    StartThread,
    /// END_THREAD: a thread that ended.
    EndThread,
}

impl RecordTag {
    ghost use Rattle.hprof_values.specs.declared.record_tag.RecordTag.{RecordTag};
    ghost use Rattle.hprof_values.specs.RecordTag.{code_of_record, record_of_code};

    /// Returns the tag byte.
    pub fn code(self) -> u8
        ensures { result ≡ code_of_record self }
    {
        match self {
            RecordTag::Utf8 => 0x01,
            RecordTag::LoadClass => 0x02,
            RecordTag::UnloadClass => 0x03,
            RecordTag::Frame => 0x04,
            RecordTag::Trace => 0x05,
            RecordTag::StartThread => 0x0a,
            RecordTag::EndThread => 0x0b,
        }
    }

    /// Returns the kind of record with this tag byte, or `None` if the record states no fact of its own.
    pub fn from_code(code: u8) -> Option<RecordTag>
        ensures exact { result ≡ record_of_code code }
        ensures both { (tag : RecordTag) → (result ≡ Some tag) ↔ (code ≡ code_of_record tag) }
    {
        match code {
            0x01 => Some(RecordTag::Utf8),
            0x02 => Some(RecordTag::LoadClass),
            0x03 => Some(RecordTag::UnloadClass),
            0x04 => Some(RecordTag::Frame),
            0x05 => Some(RecordTag::Trace),
            0x0a => Some(RecordTag::StartThread),
            0x0b => Some(RecordTag::EndThread),
            _ => None,
        }
    }
}
