//! Products of a stream, or of files.

ghost use Rattle.std.specs.Prelude.{◌≡◌, length, [], ◌∷◌, Err, IfOk, IfErr, IfSome};
ghost use Rattle.hprof_devices.specs.declared.health.Health.TheVariants.{Well};
ghost use Rattle.hprof_engine.specs.Makes.{IsDump};
ghost use Rattle.hprof_tool.specs.Again.{IsReadyFor};
ghost use Rattle.hprof_tool.specs.Folder.{MayCreateBehind};
ghost use Rattle.hprof_tool.specs.Program.{IsMadeOfStream, IsMadeInFile, IsMadeOfFiles, IsFilesRefusal, IsOfMaking};
ghost use Rattle.hprof_tool.specs.Streams.{RefusesStream, RefusesReport};

use crate::program::again::{Again, again_of};
use crate::program::folder::Folder;
use crate::program::made::Made;
use crate::program::opening::{Started, open_parts, start_file};
use crate::program::refused::{Refused, Stopped};
use crate::program::writing::{write_buffered, write_through_buffer};
use hprof_command::OutName;
use hprof_devices::Source;
use hprof_engine::{Dump, ToolFault};
use hprof_handles::ReadAt;
use hprof_runs::Scratch;
use std::alloc::Global;
use std::io::Write;

/// Returns what is needed to read the objects of opened parts again, or `None` if they fit into the memory.
fn again_for<F: Folder>(
    alloc: Global,
    files: &F,
    parts: &[F::Part],
    out: Option<&str>,
) -> Result<Option<Again<F::Handle, F::Scratch>>, Refused>
    ensures ready { IfOk result (λ again. IfSome again (IsReadyFor F.Part.left F.Handle.bytes F.Scratch.written F.Scratch.health
        parts.now)) }
    ensures refused { IfErr result (λ why. why ≡ Refused.OutOfMemory) }
{
    match again_of(alloc, files, parts, out) {
        Ok(again) => Ok(again),
        Err(_) => Err(Refused::OutOfMemory),
    }
}

/// Joins the one part that a reader gives into a stream, which it gives back. Its objects are gone through again with `again`, if it is
/// there.
pub(crate) fn join_stream<I: Source + Drop, H: ReadAt + Drop, S: Scratch + Drop, O: Write + Drop>(
    alloc: Global,
    input: I,
    again: Option<Again<H, S>>,
    output: O,
) -> Result<O, Stopped<O>>
    requires input { I.health input ≡ Well }
    requires again { IfSome again (IsReadyFor I.left H.bytes S.written S.health (input ∷ [])) }
    ensures ok { IfOk result (IsMadeOfStream IsDump I.left O.contents input output) }
    ensures kind { IfErr result (λ stopped. IsOfMaking stopped.why) }
    ensures refused { IfErr result (λ stopped. RefusesStream I.left I.health I.pulls O.contents input output stopped.why stopped.writer) }
{
    let mut part = Vec::new(alloc);
    let Ok(()) = part.push(input) else {
        return Err(Stopped {
            why: Refused::OutOfMemory,
            writer: Some(output),
        });
    };
    write_through_buffer(alloc, &Dump, &mut part, again, output)
}

/// Writes the product of parts in files to a new file, which it gives back. It is created once all parts are opened. After a refusal it
/// is removed; if it cannot be removed, it stays.
pub(crate) fn write_file<P: Made, F: Folder>(
    alloc: Global,
    files: &F,
    product: &P,
    out: OutName<'_>,
    names: &[&str],
) -> Result<F::Out, Refused>
    requires { MayCreateBehind (F.answered files.now) names.now out.name.now }
    ensures ok { IfOk result (IsMadeInFile (P.making product.now).IsMade (F.answered files.now) F.Part.left F.Out.contents
        names.now out.entry.name.now) }
    ensures no_parts { result ≡ Err (Refused.Engine ToolFault.NoParts) → length names.now ≡ 0 }
    ensures refused { IfErr result (IsFilesRefusal
        (P.making product.now)
        (F.answered files.now) F.Part.left F.Part.health F.Part.pulls names.now out.entry.name.now) }
{
    let name = out.as_str();
    let Started {
        mut parts,
        buffered,
    } = start_file(alloc, files, out, names)?;
    let again = match again_for(alloc, files, &parts, Some(name)) {
        Ok(again) => again,
        Err(why) => {
            let (file, _) = buffered.into_parts();
            files.remove_out(name, file);
            return Err(why);
        }
    };
    match write_buffered(alloc, product, &mut parts, again, buffered) {
        Ok(file) => Ok(file),
        Err(left) => {
            files.remove_out(name, left.writer);
            Err(left.why)
        }
    }
}

/// Writes a report on parts in files to a stream, which it gives back.
pub(crate) fn report_files<P: Made, F: Folder, O: Write + Drop>(
    alloc: Global,
    files: &F,
    report: &P,
    names: &[&str],
    output: O,
) -> Result<O, Stopped<O>>
    ensures ok { IfOk result (IsMadeOfFiles (P.making report.now).IsMade (F.answered files.now) F.Part.left O.contents
        names.now output) }
    ensures no_parts { IfErr result (λ stopped. stopped.why ≡ Refused.Engine ToolFault.NoParts → length names.now ≡ 0) }
    ensures refused { IfErr result (λ stopped. RefusesReport
        (P.making report.now)
        (F.answered files.now) F.Part.left F.Part.health F.Part.pulls O.contents names.now output stopped.why stopped.writer) }
{
    let mut parts = match open_parts(alloc, files, names) {
        Ok(parts) => parts,
        Err(why) => {
            return Err(Stopped {
                why,
                writer: Some(output),
            });
        }
    };
    let again = match again_for(alloc, files, &parts, None) {
        Ok(again) => again,
        Err(why) => {
            return Err(Stopped {
                why,
                writer: Some(output),
            });
        }
    };
    write_through_buffer(alloc, report, &mut parts, again, output)
}
