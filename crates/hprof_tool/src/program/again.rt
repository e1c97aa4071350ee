//! What is needed to read the objects of parts again.

ghost use Rattle.std.specs.Prelude.{◌≡◌, [], ◌∷◌, None, IfOk, IfSome};
ghost use Rattle.hprof_devices.specs.declared.health.Health.TheVariants.{Well};
ghost use Rattle.hprof_runs.specs.ReadBack.{HoldsNothing};
ghost use Rattle.hprof_tool.specs.Again.{AreHandles, IsReadyFor};

use crate::program::folder::Folder;
use hprof_devices::Source;
use hprof_handles::ReadAt;
use hprof_objects::Keeping;
use std::alloc::{AllocError, Global};
use std::io;
use std::io::ErrorKind;

/// What is needed to read the objects of parts again.
#[derive(Drop)]
pub(crate) struct Again<H, S> {
    /// What reads each part at offsets, in order.
    pub(crate) handles: Vec<H>,
    /// Scratch without bytes.
    pub(crate) scratch: S,
    /// How objects are kept.
    pub(crate) keeping: Keeping,
}

/// What stands for a part that is read once: each read fails.
#[derive(Drop)]
pub(crate) struct ReadOnce;

impl ReadAt for ReadOnce {
    ghost use Rattle.std.specs.Prelude.{None};

    ghost bytes = { λ _. None };

    fn read_at(&self, _piece: &mut [u8], _at: u64) -> io::Result<usize> {
        Err(io::Error::from(ErrorKind::Unsupported))
    }
}

/// Returns what is needed to go through the objects of a part that is read once. No stretch stays in it. `None` is for want of memory.
fn again_once<F: Folder>(alloc: Global, files: &F) -> Option<Again<ReadOnce, F::Scratch>>
    ensures none { IfSome result (λ again. again.keeping.stretches ≡ 0) }
    ensures nothing { IfSome result (λ again. HoldsNothing (F.Scratch.written again.scratch)) }
    ensures well { IfSome result (λ again. F.Scratch.health again.scratch ≡ Well) }
{
    let scratch = files.scratch(alloc, None).ok()?;
    let mut handles = Vec::new(alloc);
    handles.push(ReadOnce).ok()?;
    Some(Again {
        handles,
        scratch,
        keeping: files.keeping_once(),
    })
}

/// Returns a part that is read once, and what is needed to go through its objects again, unless there is no memory for it.
pub(crate) fn with_again<F: Folder, R: Source>(
    alloc: Global,
    files: &F,
    part: R,
) -> (R, Option<Again<ReadOnce, F::Scratch>>)
    requires untold { R.left part ≡ None }
    requires well { R.health part ≡ Well }
    ensures none { IfSome result.1 (λ again. again.keeping.stretches ≡ 0) }
    ensures same { result.0 ≡ part }
    ensures well { R.health result.0 ≡ Well }
    ensures ready { IfSome result.1 (IsReadyFor R.left (λ _. None) F.Scratch.written F.Scratch.health (result.0 ∷ [])) }
{
    (part, again_once(alloc, files))
}

/// Returns what reads each part at offsets.
fn handles_of<F: Folder>(
    alloc: Global,
    files: &F,
    parts: &[F::Part],
) -> Result<Vec<F::Handle>, AllocError>
    ensures { IfOk result (λ handles. AreHandles F.Part.left F.Handle.bytes parts.now handles.items) }
{
    let mut handles = Vec::new(alloc);
    for part in parts {
        let handle = files.handle(part)?;
        handles.push(handle)?;
    }
    Ok(handles)
}

/// Returns what is needed to read the objects of parts again, or `None` if they fit into the memory. Scratch is beside the new file, if one
/// is written.
pub(crate) fn again_of<F: Folder>(
    alloc: Global,
    files: &F,
    parts: &[F::Part],
    out: Option<&str>,
) -> Result<Option<Again<F::Handle, F::Scratch>>, AllocError>
    ensures { IfOk result (λ again. IfSome again (IsReadyFor F.Part.left F.Handle.bytes F.Scratch.written F.Scratch.health parts.now)) }
{
    if !files.are_long(parts) {
        return Ok(None);
    }
    let handles = handles_of(alloc, files, parts)?;
    let scratch = files.scratch(alloc, out)?;
    Ok(Some(Again {
        handles,
        scratch,
        keeping: files.keeping(parts),
    }))
}
