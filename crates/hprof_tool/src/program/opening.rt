//! The files of a task, as they are opened.

ghost use Rattle.std.specs.Prelude.{◌≡◌, [], length, All, IfOk, IfErr};
ghost use Rattle.std.specs.Io.Buffered.{writer_buffer, writer_inner};
ghost use Rattle.hprof_devices.specs.declared.health.Health.TheVariants.{Well};
ghost use Rattle.hprof_tool.specs.Folder.{AreOpened, MayCreateBehind};
ghost use Rattle.hprof_tool.specs.Program.{IsOfOpening, IsOfStarting};

use crate::program::folder::Folder;
use crate::program::refused::Refused;
use hprof_command::OutName;
use std::alloc::Global;
use std::io::{BufWriter, Write};

/// The opened parts, and the new file behind an empty buffer.
#[derive(Drop)]
pub(crate) struct Started<P, W: Write + Drop> {
    pub(crate) parts: Vec<P>,
    pub(crate) buffered: BufWriter<W>,
}

/// Opens the parts in order.
pub(crate) fn open_parts<F: Folder>(
    alloc: Global,
    files: &F,
    names: &[&str],
) -> Result<Vec<F::Part>, Refused>
    ensures opened { IfOk result (λ parts. AreOpened (F.answered files.now) names.now parts.items) }
    ensures well { IfOk result (λ parts. All (λ part. F.Part.health part ≡ Well) parts.items) }
    ensures count { IfOk result (λ parts. length parts.items ≡ length names.now) }
    ensures kind { IfErr result (IsOfOpening (F.answered files.now) names.now) }
{
    let mut parts = Vec::new(alloc);
    for (index, name) in names.iter().enumerate() {
        match files.open_part(name) {
            Ok(part) => parts.push(part)?,
            Err(_) => return Err(Refused::Open(index)),
        }
    }
    Ok(parts)
}

/// Opens the parts in order, and then creates the new file.
pub(crate) fn start_file<F: Folder>(
    alloc: Global,
    files: &F,
    out: OutName<'_>,
    names: &[&str],
) -> Result<Started<F::Part, F::Out>, Refused>
    requires { MayCreateBehind (F.answered files.now) names.now out.name.now }
    ensures opened { IfOk result (λ started. AreOpened (F.answered files.now) names.now started.parts.items) }
    ensures well { IfOk result (λ started. All (λ part. F.Part.health part ≡ Well) started.parts.items) }
    ensures count { IfOk result (λ started. length started.parts.items ≡ length names.now) }
    ensures created { IfOk result (λ started. (F.answered files.now).IsCreated out.entry.name.now (writer_inner started.buffered)) }
    ensures empty { IfOk result (λ started. writer_buffer started.buffered ≡ []) }
    ensures kind { IfErr result (IsOfStarting (F.answered files.now) names.now out.entry.name.now) }
{
    let parts = match open_parts(alloc, files, names) {
        Ok(parts) => parts,
        Err(why) => {
            files.leave_out(out);
            return Err(why);
        }
    };
    let buffered = files.create_out(alloc, out)?;
    Ok(Started { parts, buffered })
}
