//! The nine bytes before the body of each record.

ghost use Rattle.std.specs.Prelude.{◌≡◌};

use crate::tag;

/// The number of bytes in a record's head.
pub const HEAD_LEN: usize = 9;

/// The head of a record.
#[derive(Clone, Copy, Debug, PartialEq, Eq)]
pub struct Head {
    /// The tag: the kind of the record.
    pub tag: u8,
    /// The time of the record, in microseconds since the time in the header. It is not used.
    pub time: u32,
    /// The number of bytes in the body.
    pub length: u32,
}

/// The purpose of a record, which its tag decides.
#[derive(Clone, Copy, Debug, PartialEq, Eq)]
pub enum HeadKind {
    /// A record that states one fact.
    FactRecord,
    /// A record with sub-records in its body.
    HeapDump,
    /// The record that ends a heap dump. It has no body.
    DumpEnd,
    /// Any other record. It states no fact.
    Skipped,
}

impl Head {
    ghost use Rattle.hprof_items.specs.Head.{kind_of};

    /// Returns the purpose of the record.
    pub fn kind(&self) -> HeadKind
        ensures { result ≡ kind_of self.now.tag }
    {
        match self.tag {
            tag::UTF8
            | tag::LOAD_CLASS
            | tag::UNLOAD_CLASS
            | tag::FRAME
            | tag::TRACE
            | tag::START_THREAD
            | tag::END_THREAD => HeadKind::FactRecord,
            tag::HEAP_DUMP | tag::HEAP_DUMP_SEGMENT => HeadKind::HeapDump,
            tag::HEAP_DUMP_END => HeadKind::DumpEnd,
            _ => HeadKind::Skipped,
        }
    }
}
