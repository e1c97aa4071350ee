//! The salvage of parts in files.

ghost use Rattle.std.specs.Prelude.{◌≡◌, ◌⊎◌, List, [], ◌∷◌, ◌++◌, ℕ, All, OnOk, OnErr, IfOk, IfErr, IfSome};
ghost use Rattle.std.specs.Io.KnownBytes.{Appends, append_known};
ghost use Rattle.std.specs.Io.Buffered.{writer_contents};
ghost use Rattle.hprof_devices.specs.declared.health.Health.TheVariants.{Well};
ghost use Rattle.hprof_engine.specs.FaultText.{IsFaultText};
ghost use Rattle.hprof_engine.specs.Salvaging.{Salvages};
ghost use Rattle.hprof_stored.specs.SalvagingStored.{SalvagesStored};
ghost use Rattle.hprof_tool.specs.Again.{IsReadyFor};
ghost use Rattle.hprof_tool.specs.Folder.{MayCreateBehind};
ghost use Rattle.hprof_tool.specs.Program.{usual_limits};
ghost use Rattle.hprof_tool.specs.SalvagedFiles.{SalvagesStream, IsSalvagedFile, IsSalvageRefusal};
ghost use Rattle.hprof_tool.specs.Telling.{TellsFaults, TellsFront, TellsSomeFaults, IsOfTelling, line_end};

use crate::program::again::{Again, again_of};
use crate::program::folder::Folder;
use crate::program::opening::{Started, start_file};
use crate::program::refused::{Refused, WRITE_FAILED};
use crate::program::telling::write_part_line;
use crate::program::writing::{Writing, take_apart};
use hprof_command::OutName;
use hprof_devices::{Device, Source, Target};
use hprof_engine::{FaultedPart, Salvaged, ToolFault, salvage_returning_heap};
use hprof_handles::{Handles, ReadAt};
use hprof_runs::Scratch;
use hprof_stored::salvage_stored;
use hprof_stream::Limits;
use std::alloc::Global;
use std::fmt::InlineText;
use std::io::{BufWriter, Write};
use std::mem;

/// The result of a salvage, and the writer that it was written to.
#[derive(Drop)]
pub(crate) struct Written<W> {
    pub(crate) salvaged: Salvaged,
    pub(crate) writer: W,
}

/// Salvages the parts of the readers, without the heap, which need not be freed row by row, since the process ends.
fn salvage_of_heap<R: Source, W: Target>(
    alloc: Global,
    readers: &mut [R],
    target: &mut W,
) -> Result<Salvaged, ToolFault>
    requires readers { All (λ reader. R.health reader ≡ Well) readers.old }
    requires writer { W.health target.old ≡ Well }
    ensures { Salvages R.left R.health R.pulls usual_limits readers.old readers.new W.written W.health target.old target.new result }
{
    match salvage_returning_heap(alloc, readers, target, Limits::usual()) {
        Ok(kept) => {
            mem::forget(kept.heap);
            Ok(kept.salvaged)
        }
        Err(fault) => Err(fault),
    }
}

/// Salvages the parts of the readers, whose objects are read again.
fn salvage_again<R: Source, H: ReadAt + Drop, S: Scratch + Drop, W: Target>(
    alloc: Global,
    readers: &mut [R],
    again: Again<H, S>,
    target: &mut W,
) -> Result<Salvaged, ToolFault>
    requires readers { All (λ reader. R.health reader ≡ Well) readers.old }
    requires writer { W.health target.old ≡ Well }
    requires again { IsReadyFor R.left H.bytes S.written S.health readers.old again }
    ensures { SalvagesStored R.left R.health R.pulls usual_limits readers.old readers.new W.written W.health target.old target.new
        result }
{
    let Again {
        handles,
        scratch,
        keeping,
    } = again;
    let parts = Handles::new(&handles);
    salvage_stored(
        alloc,
        readers,
        &parts,
        Limits::usual(),
        keeping,
        scratch,
        target,
    )
}

/// Salvages the parts of the readers. Their objects are read again with `again`, if it is there.
fn salvage_parts<R: Source, H: ReadAt + Drop, S: Scratch + Drop, W: Target>(
    alloc: Global,
    readers: &mut [R],
    again: Option<Again<H, S>>,
    target: &mut W,
) -> Result<Salvaged, ToolFault>
    requires readers { All (λ reader. R.health reader ≡ Well) readers.old }
    requires writer { W.health target.old ≡ Well }
    requires again { IfSome again (IsReadyFor R.left H.bytes S.written S.health readers.old) }
    ensures { Salvages R.left R.health R.pulls usual_limits readers.old readers.new W.written W.health target.old target.new result
        ⊎ SalvagesStored R.left R.health R.pulls usual_limits readers.old readers.new W.written W.health target.old target.new result }
{
    match again {
        Some(again) => salvage_again(alloc, readers, again, target),
        None => salvage_of_heap(alloc, readers, target),
    }
}

/// Salvages the parts of the readers into a buffered writer, and flushes it. Their objects are read again with `again`, if it is there.
fn salvage_into<R: Source, H: ReadAt + Drop, S: Scratch + Drop, W: Write + Drop>(
    alloc: Global,
    readers: &mut [R],
    again: Option<Again<H, S>>,
    buffered: BufWriter<W>,
) -> Writing<Salvaged, W>
    requires readers { All (λ reader. R.health reader ≡ Well) readers.old }
    requires again { IfSome again (IsReadyFor R.left H.bytes S.written S.health readers.old) }
    ensures salvages { SalvagesStream R.left R.health R.pulls readers.old readers.new (writer_contents W.contents buffered)
        (append_known (W.contents result.writer) result.unwritten.items) result.outcome }
    ensures flushed { OnOk result.outcome (result.unwritten.items ≡ []) }
{
    let mut target = Device::new(buffered);
    let saved = salvage_parts(alloc, readers, again, &mut target);
    take_apart(saved, target)
}

/// Salvages parts in files to a new file, which it gives back. It is created once all parts are opened. After a refusal it is removed; if
/// it cannot be removed, it stays. Objects that do not fit into the memory are read again.
pub(crate) fn salvage_file<F: Folder>(
    alloc: Global,
    files: &F,
    out: OutName<'_>,
    names: &[&str],
) -> Result<Written<F::Out>, Refused>
    requires { MayCreateBehind (F.answered files.now) names.now out.name.now }
    ensures ok { IfOk result (λ written. IsSalvagedFile (F.answered files.now) F.Part.left F.Part.health F.Part.pulls F.Out.contents
        names.now out.entry.name.now written.salvaged written.writer) }
    ensures refused { IfErr result (IsSalvageRefusal (F.answered files.now) F.Part.left F.Part.health F.Part.pulls F.Out.contents
        names.now out.entry.name.now) }
{
    let name = out.as_str();
    let Started {
        mut parts,
        buffered,
    } = start_file(alloc, files, out, names)?;
    let Ok(again) = again_of(alloc, files, &parts, Some(name)) else {
        let (file, _) = buffered.into_parts();
        files.remove_out(name, file);
        return Err(Refused::OutOfMemory);
    };
    let Writing {
        outcome,
        writer,
        unwritten,
    } = salvage_into(alloc, &mut parts, again, buffered);
    // To free this large block behind the rows would make the allocator go over all of them.
    mem::forget(unwritten);
    match outcome {
        Ok(salvaged) => Ok(Written { salvaged, writer }),
        Err(fault) => {
            files.remove_out(name, writer);
            Err(Refused::from(fault))
        }
    }
}

/// The number of bytes of room for the reason why a part is refused. Each such text is shorter.
const WHY_LEN: usize = 64;

/// Tells the fault of a part in a line, as it is told when the part is refused. It takes no memory. If it cannot be written, a front of it
/// is told.
fn tell_fault<O: Write>(fault: FaultedPart, output: &mut O) -> Result<(), Refused>
    ensures told { OnOk result ((line : List ℕ) × IsFaultText (ToolFault.Part fault.index fault.fault) line
        × Appends (O.contents output.old) (O.contents output.new) (line ++ line_end ∷ [])) }
    ensures failed { IfErr result IsOfTelling }
    ensures front { OnErr result ((line : List ℕ) × IsFaultText (ToolFault.Part fault.index fault.fault) line
        × TellsFront (line ++ line_end ∷ []) (O.contents output.old) (O.contents output.new)) }
{
    let FaultedPart { index, fault } = fault;
    let text = InlineText::<WHY_LEN>::of(fault);
    let why = text.as_str();
    match write_part_line(index, why, output) {
        Ok(()) => Ok(()),
        Err(_) => Err(WRITE_FAILED),
    }
}

/// Tells the faults of parts, one a line. It takes no memory, so a fault of the output alone keeps it from telling them. Then a front of
/// them is told.
pub(crate) fn tell_faults<O: Write>(faults: &[FaultedPart], output: &mut O) -> Result<(), Refused>
    ensures told { OnOk result ((text : List ℕ) × TellsFaults faults.now text
        × Appends (O.contents output.old) (O.contents output.new) text) }
    ensures failed { IfErr result IsOfTelling }
    ensures front { OnErr result (TellsSomeFaults faults.now (O.contents output.old) (O.contents output.new)) }
{
    for fault in faults {
        tell_fault(*fault, output)?;
    }
    if output.flush().is_err() {
        return Err(WRITE_FAILED);
    }
    Ok(())
}
