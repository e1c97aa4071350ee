//! Making products of parts, in a process that ends behind them.

ghost use Rattle.std.specs.Prelude.{◌≡◌, All};
ghost use Rattle.hprof_devices.specs.declared.health.Health.TheVariants.{Well};
ghost use Rattle.hprof_engine.specs.Joining.{fault_of};
ghost use Rattle.hprof_engine.specs.Makes.{Makes, making_of};
ghost use Rattle.hprof_stored.specs.StoredMaking.{stored_dump_making, stored_making};
ghost use Rattle.hprof_stored101.specs.StoredMaking101.{stored_dump101_making};
ghost use Rattle.hprof_tool.specs.Again.{IsReadyFor, report_of_parts};
ghost use Rattle.hprof_tool.specs.Program.{usual_limits};

use crate::program::again::Again;
use hprof_ask::{Reporting, refs_to, who_to};
use hprof_devices::{Source, Target};
use hprof_engine::{Dump, Dump101, Product, ToolFault, make_to};
use hprof_handles::{Handles, ReadAt};
use hprof_large::PassedReport;
use hprof_making::{PassProduct, make_stored};
use hprof_questions::{Node, NodeReport, Report};
use hprof_runs::Scratch;
use hprof_stored::join_stored;
use hprof_stored101::join101_stored;
use hprof_stream::Limits;
use std::alloc::Global;
use std::mem;

/// Makes something of the parts of the readers, without the heap, which need not be freed row by row, since the process ends.
pub(crate) fn make_of_heap<P: Product, R: Source, W: Target>(
    alloc: Global,
    product: &P,
    readers: &mut [R],
    target: &mut W,
) -> Result<(), ToolFault>
    requires readers { All (λ reader. R.health reader ≡ Well) readers.old }
    requires writer { W.health target.old ≡ Well }
    ensures { Makes R.left R.health R.pulls W.written W.health usual_limits
        (making_of (P.is_text product.now) (P.refuses product.now) (P.takes_room product.now) (P.takes_memory product.now))
        readers.old readers.new target.old target.new (fault_of result) }
{
    match make_to(alloc, product, readers, target, Limits::usual()) {
        Ok(heap) => {
            mem::forget(heap);
            Ok(())
        }
        Err(fault) => Err(fault),
    }
}

/// Joins the parts of the readers, whose objects are read again.
fn join_again<R: Source, H: ReadAt + Drop, S: Scratch + Drop, W: Target>(
    alloc: Global,
    readers: &mut [R],
    again: Again<H, S>,
    target: &mut W,
) -> Result<(), ToolFault>
    requires readers { All (λ reader. R.health reader ≡ Well) readers.old }
    requires writer { W.health target.old ≡ Well }
    requires again { IsReadyFor R.left H.bytes S.written S.health readers.old again }
    ensures { Makes R.left R.health R.pulls W.written W.health usual_limits stored_dump_making readers.old readers.new target.old target.new
        (fault_of result) }
{
    let Again {
        handles,
        scratch,
        keeping,
    } = again;
    let parts = Handles::new(&handles);
    join_stored(
        alloc,
        readers,
        &parts,
        Limits::usual(),
        keeping,
        scratch,
        target,
    )
}

/// Joins the parts of the readers into a 1.0.1 dump. Their objects are read again.
fn join101_again<R: Source, H: ReadAt + Drop, S: Scratch + Drop, W: Target>(
    alloc: Global,
    readers: &mut [R],
    again: Again<H, S>,
    target: &mut W,
) -> Result<(), ToolFault>
    requires readers { All (λ reader. R.health reader ≡ Well) readers.old }
    requires writer { W.health target.old ≡ Well }
    requires again { IsReadyFor R.left H.bytes S.written S.health readers.old again }
    ensures { Makes R.left R.health R.pulls W.written W.health usual_limits stored_dump101_making readers.old readers.new target.old
        target.new (fault_of result) }
{
    let Again {
        handles,
        scratch,
        keeping,
    } = again;
    let parts = Handles::new(&handles);
    join101_stored(
        alloc,
        readers,
        &parts,
        Limits::usual(),
        keeping,
        scratch,
        target,
    )
}

/// Makes something of passes over the objects of the parts of the readers.
pub(crate) fn make_again<M: PassProduct, R: Source, H: ReadAt + Drop, S: Scratch + Drop, W: Target>(
    alloc: Global,
    product: &M,
    readers: &mut [R],
    again: Again<H, S>,
    target: &mut W,
) -> Result<(), ToolFault>
    requires readers { All (λ reader. R.health reader ≡ Well) readers.old }
    requires writer { W.health target.old ≡ Well }
    requires again { IsReadyFor R.left H.bytes S.written S.health readers.old again }
    ensures { Makes R.left R.health R.pulls W.written W.health usual_limits
        (stored_making (M.is_text product.now) (M.refuses product.now)) readers.old readers.new target.old target.new (fault_of result) }
{
    let Again {
        handles,
        scratch,
        keeping,
    } = again;
    let parts = Handles::new(&handles);
    make_stored(
        alloc,
        product,
        readers,
        &parts,
        Limits::usual(),
        keeping,
        scratch,
        target,
    )
}

/// A product that a command makes.
pub(crate) trait Made {
    ghost use Rattle.std.specs.Prelude.{◌≡◌, All, IfSome};
    ghost use Rattle.hprof_tool.specs.Again.{IsReadyFor};
    ghost use Rattle.hprof_devices.specs.declared.health.Health.TheVariants.{Well};
    ghost use Rattle.hprof_engine.specs.Joining.{fault_of};
    ghost use Rattle.hprof_engine.specs.Makes.{Makes, Making};
    ghost use Rattle.hprof_tool.specs.Program.{usual_limits};

    // What is made.
    ghost making: { Self → Making };

    /// Makes it of the parts of the readers. Their objects are gone through again with `again`, if it is there.
    fn make<R: Source, H: ReadAt + Drop, S: Scratch + Drop, W: Target>(
        &self,
        alloc: Global,
        readers: &mut [R],
        again: Option<Again<H, S>>,
        target: &mut W,
    ) -> Result<(), ToolFault>
        requires readers { All (λ reader. R.health reader ≡ Well) readers.old }
        requires writer { W.health target.old ≡ Well }
        requires again { IfSome again (IsReadyFor R.left H.bytes S.written S.health readers.old) }
        ensures { Makes R.left R.health R.pulls W.written W.health usual_limits (making self.now) readers.old
            readers.new target.old target.new (fault_of result) };
}

impl Made for Dump {
    ghost use Rattle.hprof_stored.specs.StoredMaking.{stored_dump_making};

    ghost making = { λ _. stored_dump_making };

    fn make<R: Source, H: ReadAt + Drop, S: Scratch + Drop, W: Target>(
        &self,
        alloc: Global,
        readers: &mut [R],
        again: Option<Again<H, S>>,
        target: &mut W,
    ) -> Result<(), ToolFault> {
        match again {
            Some(again) => join_again(alloc, readers, again, target),
            None => make_of_heap(alloc, self, readers, target),
        }
    }
}

impl Made for Dump101 {
    ghost use Rattle.hprof_stored101.specs.StoredMaking101.{stored_dump101_making};

    ghost making = { λ _. stored_dump101_making };

    fn make<R: Source, H: ReadAt + Drop, S: Scratch + Drop, W: Target>(
        &self,
        alloc: Global,
        readers: &mut [R],
        again: Option<Again<H, S>>,
        target: &mut W,
    ) -> Result<(), ToolFault> {
        match again {
            Some(again) => join101_again(alloc, readers, again, target),
            None => make_of_heap(alloc, self, readers, target),
        }
    }
}

/// Writes a report on the parts of the readers, whose objects are kept in memory. References to one identifier are found while parts are
/// read.
fn report_in_memory<R: Source, W: Target>(
    alloc: Global,
    report: Report<'_>,
    readers: &mut [R],
    target: &mut W,
) -> Result<(), ToolFault>
    requires readers { All (λ reader. R.health reader ≡ Well) readers.old }
    requires writer { W.health target.old ≡ Well }
    ensures { Makes R.left R.health R.pulls W.written W.health usual_limits (report_of_parts report.entry) readers.old readers.new
        target.old target.new (fault_of result) }
{
    match report {
        Report::Node(NodeReport::Refs, Node::Identifier(id)) => {
            refs_to(alloc, readers, id, target, Limits::usual())
        }
        Report::Node(NodeReport::Who, Node::Identifier(id)) => {
            who_to(alloc, readers, id, target, Limits::usual())
        }
        _ => make_of_heap(alloc, &Reporting { report }, readers, target),
    }
}

impl<'a> Made for Report<'a> {
    ghost use Rattle.hprof_tool.specs.Again.{report_of_parts};

    ghost making = { report_of_parts };

    fn make<R: Source, H: ReadAt + Drop, S: Scratch + Drop, W: Target>(
        &self,
        alloc: Global,
        readers: &mut [R],
        again: Option<Again<H, S>>,
        target: &mut W,
    ) -> Result<(), ToolFault> {
        let report = *self;
        match again {
            Some(again) => make_again(alloc, &PassedReport { report }, readers, again, target),
            None => report_in_memory(alloc, report, readers, target),
        }
    }
}
