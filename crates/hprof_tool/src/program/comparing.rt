//! The difference of two dumps in files.

ghost use Rattle.std.specs.Prelude.{◌≡◌, ℕ, List, ⊤, All, IfOk, IfErr, IfSome};
ghost use Rattle.hprof_devices.specs.declared.health.Health.TheVariants.{Well};
ghost use Rattle.hprof_engine.specs.Joining.{Tell, fault_of};
ghost use Rattle.hprof_engine.specs.Makes.{WritesAll};
ghost use Rattle.hprof_stored.specs.Storing.{HaveObject};
ghost use Rattle.hprof_diff.specs.Comparing.{Counts};
ghost use Rattle.hprof_diff.specs.DifferenceText.{AreTotalsOf, IsDifferenceOf};
ghost use Rattle.hprof_diff.specs.Kept.{totals_in};
ghost use Rattle.hprof_tool.specs.Again.{IsReadyFor};
ghost use Rattle.hprof_tool.specs.Comparing.{ComparesFiles, IsOfOpeningOne, IsOneOpened, OverBoth, RefusesDiff, StopsComparing};
ghost use Rattle.hprof_tool.specs.Program.{usual_limits};

use crate::program::again::{Again, again_of};
use crate::program::folder::Folder;
use crate::program::made::{Made, make_again, make_of_heap};
use crate::program::refused::{Refused, Stopped};
use crate::program::writing::write_through_buffer;
use hprof_devices::{Source, Target};
use hprof_diff::{GrowthReport, LabelCounts, count_parts, count_stored};
use hprof_engine::ToolFault;
use hprof_handles::{Handles, ReadAt};
use hprof_runs::Scratch;
use hprof_stream::Limits;
use std::alloc::Global;
use std::io::Write;

/// Counts the objects of the parts of the readers, which are read again.
fn count_again<R: Source, H: ReadAt + Drop, S: Scratch + Drop>(
    alloc: Global,
    readers: &mut [R],
    again: Again<H, S>,
) -> Result<LabelCounts, ToolFault>
    requires readers { All (λ reader. R.health reader ≡ Well) readers.old }
    requires again { IsReadyFor R.left H.bytes S.written S.health readers.old again }
    ensures counts { Counts R.left R.health R.pulls HaveObject ⊤ usual_limits readers.old readers.new (fault_of result) }
    ensures totals { IfOk result (λ counts. (parts : List (List ℕ)) → Tell R.left readers.old parts
        → AreTotalsOf parts (totals_in counts)) }
{
    let Again {
        handles,
        scratch,
        keeping,
    } = again;
    let parts = Handles::new(&handles);
    count_stored(alloc, readers, &parts, Limits::usual(), keeping, scratch)
}

/// Counts the objects of the parts of the readers. They are read again with `again`, if they can be.
fn count_dump<R: Source, H: ReadAt + Drop, S: Scratch + Drop>(
    alloc: Global,
    readers: &mut [R],
    again: Option<Again<H, S>>,
) -> Result<LabelCounts, ToolFault>
    requires readers { All (λ reader. R.health reader ≡ Well) readers.old }
    requires again { IfSome again (IsReadyFor R.left H.bytes S.written S.health readers.old) }
    ensures counts { Counts R.left R.health R.pulls HaveObject ⊤ usual_limits readers.old readers.new (fault_of result) }
    ensures totals { IfOk result (λ counts. (parts : List (List ℕ)) → Tell R.left readers.old parts
        → AreTotalsOf parts (totals_in counts)) }
{
    match again {
        Some(again) => count_again(alloc, readers, again),
        None => count_parts(alloc, readers, Limits::usual()),
    }
}

impl<'a> Made for GrowthReport<'a> {
    ghost use Rattle.hprof_diff.specs.Kept.{totals_in};
    ghost use Rattle.hprof_tool.specs.Comparing.{growth_of_parts};

    ghost making = { λ report. growth_of_parts (totals_in report.old.now) };

    fn make<R: Source, H: ReadAt + Drop, S: Scratch + Drop, W: Target>(
        &self,
        alloc: Global,
        readers: &mut [R],
        again: Option<Again<H, S>>,
        target: &mut W,
    ) -> Result<(), ToolFault> {
        match again {
            Some(again) => make_again(alloc, self, readers, again, target),
            None => make_of_heap(alloc, self, readers, target),
        }
    }
}

/// Writes the difference of the parts of two heaps to a writer, which it gives back. The older parts are judged before a newer one is read.
fn compare_readers<R: Source, H: ReadAt + Drop, S: Scratch + Drop, W: Write + Drop>(
    alloc: Global,
    olds: &mut [R],
    olds_again: Option<Again<H, S>>,
    news: &mut [R],
    news_again: Option<Again<H, S>>,
    writer: W,
) -> Result<W, Stopped<W>>
    requires olds { All (λ reader. R.health reader ≡ Well) olds.old }
    requires olds_again { IfSome olds_again (IsReadyFor R.left H.bytes S.written S.health olds.old) }
    requires news { All (λ reader. R.health reader ≡ Well) news.old }
    requires news_again { IfSome news_again (IsReadyFor R.left H.bytes S.written S.health news.old) }
    ensures ok { IfOk result (λ written. OverBoth R.left olds.old news.old
        (λ old_parts new_parts. WritesAll (IsDifferenceOf old_parts) new_parts (W.contents writer) (W.contents written))) }
    ensures stops { IfErr result (λ stopped. StopsComparing R.left R.health R.pulls olds.old olds.new news.old news.new
        W.contents writer stopped.why stopped.writer) }
{
    let old = match count_dump(alloc, olds, olds_again) {
        Ok(old) => old,
        Err(fault) => {
            return Err(Stopped {
                why: Refused::from(fault).of_dump(0),
                writer: Some(writer),
            });
        }
    };
    let growth = GrowthReport { old: &old };
    match write_through_buffer(alloc, &growth, news, news_again, writer) {
        Ok(written) => Ok(written),
        Err(stopped) => Err(Stopped {
            why: stopped.why.of_dump(1),
            writer: stopped.writer,
        }),
    }
}

/// A dump that was opened, as the only part of a heap.
#[derive(Drop)]
struct OpenDump<R, H, S> {
    parts: Vec<R>,
    /// What is needed to read its objects again, if they are to be.
    again: Option<Again<H, S>>,
}

/// Opens the dump at that place of two.
fn open_dump<F: Folder>(
    alloc: Global,
    files: &F,
    name: &str,
    place: usize,
) -> Result<OpenDump<F::Part, F::Handle, F::Scratch>, Refused>
    ensures opened { IfOk result (λ dump. IsOneOpened (F.answered files.now) name.now dump.parts.items) }
    ensures well { IfOk result (λ dump. All (λ part. F.Part.health part ≡ Well) dump.parts.items) }
    ensures ready { IfOk result (λ dump. IfSome dump.again
        (IsReadyFor F.Part.left F.Handle.bytes F.Scratch.written F.Scratch.health dump.parts.items)) }
    ensures kind { IfErr result (IsOfOpeningOne (F.answered files.now) name.now place) }
{
    let Ok(part) = files.open_part(name) else {
        return Err(Refused::Open(place));
    };
    let mut parts = Vec::new(alloc);
    parts.push(part)?;
    match again_of(alloc, files, &parts, None) {
        Ok(again) => Ok(OpenDump { parts, again }),
        Err(_) => Err(Refused::OutOfMemory),
    }
}

/// Writes the difference of two dumps in files to a stream, which it gives back. Both files are opened before one is read.
pub(crate) fn compare_files<F: Folder, O: Write + Drop>(
    alloc: Global,
    files: &F,
    older: &str,
    newer: &str,
    output: O,
) -> Result<O, Stopped<O>>
    ensures ok { IfOk result (ComparesFiles (F.answered files.now) F.Part.left older.now newer.now O.contents output) }
    ensures refused { IfErr result (λ stopped. RefusesDiff (F.answered files.now) F.Part.left older.now newer.now O.contents
        output F.Part.health F.Part.pulls stopped.why stopped.writer) }
{
    let OpenDump {
        parts: mut olds,
        again: olds_again,
    } = match open_dump(alloc, files, older, 0) {
        Ok(dump) => dump,
        Err(why) => {
            return Err(Stopped {
                why,
                writer: Some(output),
            });
        }
    };
    let OpenDump {
        parts: mut news,
        again: news_again,
    } = match open_dump(alloc, files, newer, 1) {
        Ok(dump) => dump,
        Err(why) => {
            return Err(Stopped {
                why,
                writer: Some(output),
            });
        }
    };
    compare_readers(alloc, &mut olds, olds_again, &mut news, news_again, output)
}
