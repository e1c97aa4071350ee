//! The library of this project and its program. A program of your own names this crate alone: it has the calls that read parts, the
//! look-ups in a heap, the graph of its objects, and a call for each dump and each report. docs/LIBRARY.md has examples.
//!
//! One begins with [`FactReader`], which gives the facts of a part one after the other, with [`read_heap`], which reads parts into a
//! [`Heap`], or with [`join_to`] and [`report_to`], which write what the program writes.
#![tactic(auto)]

pub mod laws;
mod program;
mod reading;
mod retaining;
mod status;
mod storage;

// Readers, writers, and the facts of a part.
pub use hprof_devices::{Device, Health, ReadFault, Source, Target, WriteFault};
pub use hprof_facts::{FactPlace, FactReader};
pub use hprof_items::{
    Basic, Constant, ConstantList, Fact, Field, FieldList, Header, IdList, IdSize, Root, Static,
    StaticList, Value, Version,
};
pub use hprof_stream::{Limits, PartFault, PartPlace, PartSummary, Sink, SinkFault, read_part};
pub use hprof_text::{parse_id, printed};
pub use reading::read_heap;

// A heap, and what it has.
pub use hprof_heap::{
    ClassDump, Facts, Gatherer, Heap, Key, ObjectDump, Refusal, Table, find_class, find_name,
    find_object, same,
};
pub use hprof_naming::{class_label, name_text, type_word};

// The graph of its objects.
pub use hprof_graph::{
    Edge, FieldValue, Fields, Index, Kind, Layout, Live, LiveHeap, Reach, Row, Slot, Via, edges_of,
    fields, histogram, layout, reach, referrers,
};
pub use hprof_retained::Retained;
pub use retaining::retained;

// Dumps and reports of parts.
pub use hprof_ask::{
    AskFault, ask_to, biggest_to, check_to, classes_to, histo_to, keeps_to, object_to, objects_to,
    path_to, refs_to, report_to, retained_to, show_to, suspects_to, text_to, threads_to, who_to,
    why_to,
};
pub use hprof_diff::{DiffFault, diff_to};
pub use hprof_dump::{DumpFault, write_canonical, write_v101};
pub use hprof_engine::{
    FaultedPart, HeapFault, Joined, JoinedHeap, Loss, Salvaged, SalvagedHeap, ToolFault,
    join_returning_heap, join_to, join101_returning_heap, join101_to, salvage_returning_heap,
    salvage_to,
};
pub use hprof_questions::{DialogueFault, HeapReport, KindReport, Kinds, Node, NodeReport, Report};

// The program.
pub use program::run;
pub use status::Status;
pub use storage::Storage;
