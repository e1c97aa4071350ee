//! The calls that read parts and write a report on them.

ghost use Rattle.std.specs.Prelude.{◌≡◌, All};
ghost use Rattle.hprof_devices.specs.declared.health.Health.TheVariants.{Well};
ghost use Rattle.hprof_engine.specs.Joining.{fault_of};
ghost use Rattle.hprof_engine.specs.Makes.{Makes};
ghost use Rattle.hprof_ask.specs.Report.{report_making};

use crate::product::Reporting;
use crate::referring::write_who_once;
use hprof_devices::{Source, Target};
use hprof_engine::{NoSummaries, ToolFault, read_heap, write_to};
use hprof_graph::LiveHeap;
use hprof_histogram::Kind;
use hprof_questions::{HeapReport, KindReport, Kinds, Node, NodeReport, Report};
use hprof_reports::write_refs;
use hprof_stream::Limits;
use std::alloc::Global;

/// Reads all parts, and writes a report on them and on their heap. All parts are read before the first byte is written. If the report is on
/// a name that no class has, it is refused, and nothing is written. If memory runs out when all parts are read, the bytes written are the
/// beginning of the report.
pub fn report_to<R: Source, W: Target>(
    alloc: Global,
    readers: &mut [R],
    report: Report<'_>,
    target: &mut W,
    limits: Limits,
) -> Result<(), ToolFault>
    requires readers { All (λ reader. R.health reader ≡ Well) readers.old }
    requires writer { W.health target.old ≡ Well }
    ensures { Makes R.left R.health R.pulls W.written W.health limits (report_making report.entry)
        readers.old readers.new target.old target.new (fault_of result) }
{
    write_to(alloc, &Reporting { report }, readers, target, limits)
}

/// Reads all parts, and writes the report `check`: a line for each part, in order, a line for each table of their heap with the
/// number of its facts, and the number of names that are not modified UTF-8. All parts are read before the first byte is
/// written.
pub fn check_to<R: Source, W: Target>(
    alloc: Global,
    readers: &mut [R],
    target: &mut W,
    limits: Limits,
) -> Result<(), ToolFault>
    requires readers { All (λ reader. R.health reader ≡ Well) readers.old }
    requires writer { W.health target.old ≡ Well }
    ensures { Makes R.left R.health R.pulls W.written W.health limits (report_making (Report.Heap HeapReport.Check))
        readers.old readers.new target.old target.new (fault_of result) }
{
    report_to(
        alloc,
        readers,
        Report::Heap(HeapReport::Check),
        target,
        limits,
    )
}

/// Reads all parts, and writes the report `histo` on their heap: a line for each class and each type of arrays that has objects, with
/// their bytes and their number, the most bytes first. All parts are read before the first byte is written. If memory runs out then,
/// the bytes written are the beginning of the report.
pub fn histo_to<R: Source, W: Target>(
    alloc: Global,
    readers: &mut [R],
    target: &mut W,
    limits: Limits,
) -> Result<(), ToolFault>
    requires readers { All (λ reader. R.health reader ≡ Well) readers.old }
    requires writer { W.health target.old ≡ Well }
    ensures { Makes R.left R.health R.pulls W.written W.health limits (report_making (Report.Heap HeapReport.Histogram))
        readers.old readers.new target.old target.new (fault_of result) }
{
    report_to(
        alloc,
        readers,
        Report::Heap(HeapReport::Histogram),
        target,
        limits,
    )
}

/// Reads all parts, and writes the report `classes` on their heap: a line for each class dump, with its superclass and the objects of the
/// class. All parts are read before the first byte is written. If memory runs out then, the bytes written are the beginning of the
/// report.
pub fn classes_to<R: Source, W: Target>(
    alloc: Global,
    readers: &mut [R],
    target: &mut W,
    limits: Limits,
) -> Result<(), ToolFault>
    requires readers { All (λ reader. R.health reader ≡ Well) readers.old }
    requires writer { W.health target.old ≡ Well }
    ensures { Makes R.left R.health R.pulls W.written W.health limits (report_making (Report.Heap HeapReport.Classes))
        readers.old readers.new target.old target.new (fault_of result) }
{
    report_to(
        alloc,
        readers,
        Report::Heap(HeapReport::Classes),
        target,
        limits,
    )
}

/// Reads all parts, and writes the report `suspects` on their heap: the total of what strong references reach from a GC root, and for each
/// part of the heap whose pieces are a tenth of it at least their bytes, the objects that keep the part alive, and the pieces added up by
/// label. All parts are read before the first byte is written. If memory runs out then, the bytes written are the beginning of the report.
pub fn suspects_to<R: Source, W: Target>(
    alloc: Global,
    readers: &mut [R],
    target: &mut W,
    limits: Limits,
) -> Result<(), ToolFault>
    requires readers { All (λ reader. R.health reader ≡ Well) readers.old }
    requires writer { W.health target.old ≡ Well }
    ensures { Makes R.left R.health R.pulls W.written W.health limits (report_making (Report.Heap HeapReport.Suspects))
        readers.old readers.new target.old target.new (fault_of result) }
{
    report_to(
        alloc,
        readers,
        Report::Heap(HeapReport::Suspects),
        target,
        limits,
    )
}

/// Reads all parts, and writes the report `retained` on their heap: a line for each label of a class or a type with objects that strong
/// references reach from a GC root, with the bytes that these retain, their own bytes and their number, the most retained bytes first.
/// All parts are read before the first byte is written. If memory runs out then, the bytes written are the beginning of the report.
pub fn retained_to<R: Source, W: Target>(
    alloc: Global,
    readers: &mut [R],
    target: &mut W,
    limits: Limits,
) -> Result<(), ToolFault>
    requires readers { All (λ reader. R.health reader ≡ Well) readers.old }
    requires writer { W.health target.old ≡ Well }
    ensures { Makes R.left R.health R.pulls W.written W.health limits (report_making (Report.Heap HeapReport.Retained))
        readers.old readers.new target.old target.new (fault_of result) }
{
    report_to(
        alloc,
        readers,
        Report::Heap(HeapReport::Retained),
        target,
        limits,
    )
}

/// Reads all parts, and writes the report `biggest` on a class or a type in their heap: a line for each of its objects that strong
/// references reach from a GC root, with the bytes and the number of the objects that it retains, those that retain the most bytes first,
/// and nothing if there is none. All parts are read before the first byte is written. If memory runs out then, the bytes written are the
/// beginning of the report.
pub fn biggest_to<R: Source, W: Target>(
    alloc: Global,
    readers: &mut [R],
    kind: Kind,
    target: &mut W,
    limits: Limits,
) -> Result<(), ToolFault>
    requires readers { All (λ reader. R.health reader ≡ Well) readers.old }
    requires writer { W.health target.old ≡ Well }
    ensures { Makes R.left R.health R.pulls W.written W.health limits (report_making (Report.Kind KindReport.Biggest (Kinds.Of kind)))
        readers.old readers.new target.old target.new (fault_of result) }
{
    report_to(
        alloc,
        readers,
        Report::Kind(KindReport::Biggest, Kinds::Of(kind)),
        target,
        limits,
    )
}

/// Reads all parts, and writes the report `objects` on a class or a type in their heap: a line for each of its objects, with the bytes of
/// the object, the largest first, and nothing if there is none. All parts are read before the first byte is written. If memory runs out
/// then, the bytes written are the beginning of the report.
pub fn objects_to<R: Source, W: Target>(
    alloc: Global,
    readers: &mut [R],
    kind: Kind,
    target: &mut W,
    limits: Limits,
) -> Result<(), ToolFault>
    requires readers { All (λ reader. R.health reader ≡ Well) readers.old }
    requires writer { W.health target.old ≡ Well }
    ensures { Makes R.left R.health R.pulls W.written W.health limits (report_making (Report.Kind KindReport.Objects (Kinds.Of kind)))
        readers.old readers.new target.old target.new (fault_of result) }
{
    report_to(
        alloc,
        readers,
        Report::Kind(KindReport::Objects, Kinds::Of(kind)),
        target,
        limits,
    )
}

/// Reads all parts, and writes the report `object` on an identifier in their heap: the lines of its class dump, then those of
/// its object dump, or that it has neither. All parts are read before the first byte is written. If memory runs out then, the
/// bytes written are the beginning of the report.
pub fn object_to<R: Source, W: Target>(
    alloc: Global,
    readers: &mut [R],
    id: u64,
    target: &mut W,
    limits: Limits,
) -> Result<(), ToolFault>
    requires readers { All (λ reader. R.health reader ≡ Well) readers.old }
    requires writer { W.health target.old ≡ Well }
    ensures { Makes R.left R.health R.pulls W.written W.health limits (report_making (Report.Node NodeReport.Object (Node.Identifier id)))
        readers.old readers.new target.old target.new (fault_of result) }
{
    report_to(
        alloc,
        readers,
        Report::Node(NodeReport::Object, Node::Identifier(id)),
        target,
        limits,
    )
}

/// Reads all parts, and writes the report `path` on an identifier in their heap: its distance from the GC roots, then a line
/// for each node of the shortest path, or that no root reaches it. All parts are read before the first byte is written. If
/// memory runs out then, the bytes written are the beginning of the report.
pub fn path_to<R: Source, W: Target>(
    alloc: Global,
    readers: &mut [R],
    id: u64,
    target: &mut W,
    limits: Limits,
) -> Result<(), ToolFault>
    requires readers { All (λ reader. R.health reader ≡ Well) readers.old }
    requires writer { W.health target.old ≡ Well }
    ensures { Makes R.left R.health R.pulls W.written W.health limits (report_making (Report.Node NodeReport.Path (Node.Identifier id)))
        readers.old readers.new target.old target.new (fault_of result) }
{
    report_to(
        alloc,
        readers,
        Report::Node(NodeReport::Path, Node::Identifier(id)),
        target,
        limits,
    )
}

/// Reads all parts, and writes the report `text` on an identifier in their heap: the number of units of its text, and the text in print, or
/// that it has none. All parts are read before the first byte is written. If memory runs out then, the bytes written are the beginning
/// of the report.
pub fn text_to<R: Source, W: Target>(
    alloc: Global,
    readers: &mut [R],
    id: u64,
    target: &mut W,
    limits: Limits,
) -> Result<(), ToolFault>
    requires readers { All (λ reader. R.health reader ≡ Well) readers.old }
    requires writer { W.health target.old ≡ Well }
    ensures { Makes R.left R.health R.pulls W.written W.health limits (report_making (Report.Node NodeReport.Text (Node.Identifier id)))
        readers.old readers.new target.old target.new (fault_of result) }
{
    report_to(
        alloc,
        readers,
        Report::Node(NodeReport::Text, Node::Identifier(id)),
        target,
        limits,
    )
}

/// Reads all parts, and writes the report `threads` on their heap: for each thread its object and its name, the frames of its stack, and
/// below each frame the objects that it holds. All parts are read before the first byte is written. If memory runs out then, the bytes
/// written are the beginning of the report.
pub fn threads_to<R: Source, W: Target>(
    alloc: Global,
    readers: &mut [R],
    target: &mut W,
    limits: Limits,
) -> Result<(), ToolFault>
    requires readers { All (λ reader. R.health reader ≡ Well) readers.old }
    requires writer { W.health target.old ≡ Well }
    ensures { Makes R.left R.health R.pulls W.written W.health limits (report_making (Report.Heap HeapReport.Threads))
        readers.old readers.new target.old target.new (fault_of result) }
{
    report_to(
        alloc,
        readers,
        Report::Heap(HeapReport::Threads),
        target,
        limits,
    )
}

/// Reads all parts, and writes the report `show` on an identifier in their heap: the contents of its class dump and of its object dump,
/// with values decoded and references named, or that it has neither. All parts are read before the first byte is written. If memory runs
/// out then, the bytes written are the beginning of the report.
pub fn show_to<R: Source, W: Target>(
    alloc: Global,
    readers: &mut [R],
    id: u64,
    target: &mut W,
    limits: Limits,
) -> Result<(), ToolFault>
    requires readers { All (λ reader. R.health reader ≡ Well) readers.old }
    requires writer { W.health target.old ≡ Well }
    ensures { Makes R.left R.health R.pulls W.written W.health limits (report_making (Report.Node NodeReport.Show (Node.Identifier id)))
        readers.old readers.new target.old target.new (fault_of result) }
{
    report_to(
        alloc,
        readers,
        Report::Node(NodeReport::Show, Node::Identifier(id)),
        target,
        limits,
    )
}

/// Reads all parts, and writes the report `who` on an identifier in their heap: its GC roots, each with its thread, the sums of more than
/// 20 references, and a line for each reference to it, with names. References are kept while parts are read. All parts are read before the
/// first byte is written. If memory runs out then, the bytes written are the beginning of the report.
pub fn who_to<R: Source, W: Target>(
    alloc: Global,
    readers: &mut [R],
    id: u64,
    target: &mut W,
    limits: Limits,
) -> Result<(), ToolFault>
    requires readers { All (λ reader. R.health reader ≡ Well) readers.old }
    requires writer { W.health target.old ≡ Well }
    ensures { Makes R.left R.health R.pulls W.written W.health limits (report_making (Report.Node NodeReport.Who (Node.Identifier id)))
        readers.old readers.new target.old target.new (fault_of result) }
{
    let live = LiveHeap::watching(alloc, id);
    let (heap, index) = match read_heap(alloc, readers, limits, live, &NoSummaries, &mut ()) {
        Ok(found) => found,
        Err(fault) => return Err(fault),
    };
    match write_who_once(alloc, &heap, id, index.referrers(id), target) {
        Ok(()) => Ok(()),
        Err(stop) => Err(ToolFault::from(stop)),
    }
}

/// Reads all parts, and writes the report `keeps` on an identifier in their heap: what the roots hold together, the nodes that keep it
/// alive,
/// from the outermost, and those that it keeps alive right below it, each with the bytes and the objects that it retains; or that only weak
/// references lead there, or that no root reaches it. All parts are read before the first byte is written. If memory runs out then, the
/// bytes written are the beginning of the report.
pub fn keeps_to<R: Source, W: Target>(
    alloc: Global,
    readers: &mut [R],
    id: u64,
    target: &mut W,
    limits: Limits,
) -> Result<(), ToolFault>
    requires readers { All (λ reader. R.health reader ≡ Well) readers.old }
    requires writer { W.health target.old ≡ Well }
    ensures { Makes R.left R.health R.pulls W.written W.health limits (report_making (Report.Node NodeReport.Keeps (Node.Identifier id)))
        readers.old readers.new target.old target.new (fault_of result) }
{
    report_to(
        alloc,
        readers,
        Report::Node(NodeReport::Keeps, Node::Identifier(id)),
        target,
        limits,
    )
}

/// Reads all parts, and writes the report `why` on an identifier in their heap: the shortest path of strong references from a GC root, with
/// the roots, the threads, the names of classes and the references, folded where many are alike; or that only weak references lead there,
/// and the path by all; or that no root reaches it. All parts are read before the first byte is written. If memory runs out then, the bytes
/// written are the beginning of the report.
pub fn why_to<R: Source, W: Target>(
    alloc: Global,
    readers: &mut [R],
    id: u64,
    target: &mut W,
    limits: Limits,
) -> Result<(), ToolFault>
    requires readers { All (λ reader. R.health reader ≡ Well) readers.old }
    requires writer { W.health target.old ≡ Well }
    ensures { Makes R.left R.health R.pulls W.written W.health limits (report_making (Report.Node NodeReport.Why (Node.Identifier id)))
        readers.old readers.new target.old target.new (fault_of result) }
{
    report_to(
        alloc,
        readers,
        Report::Node(NodeReport::Why, Node::Identifier(id)),
        target,
        limits,
    )
}

/// Reads all parts, and writes the report `refs` on an identifier: a line for each reference to it in their heap, in order, and
/// nothing if there is none. References are kept while parts are read. All parts are read before the first byte is written. If
/// memory runs out then, the bytes written are the beginning of the report.
pub fn refs_to<R: Source, W: Target>(
    alloc: Global,
    readers: &mut [R],
    id: u64,
    target: &mut W,
    limits: Limits,
) -> Result<(), ToolFault>
    requires readers { All (λ reader. R.health reader ≡ Well) readers.old }
    requires writer { W.health target.old ≡ Well }
    ensures { Makes R.left R.health R.pulls W.written W.health limits (report_making (Report.Node NodeReport.Refs (Node.Identifier id)))
        readers.old readers.new target.old target.new (fault_of result) }
{
    let live = LiveHeap::watching(alloc, id);
    let (heap, index) = match read_heap(alloc, readers, limits, live, &NoSummaries, &mut ()) {
        Ok(found) => found,
        Err(fault) => return Err(fault),
    };
    match write_refs(alloc, &heap, index.referrers(id), target) {
        Ok(()) => Ok(()),
        Err(stop) => Err(ToolFault::from(stop)),
    }
}
