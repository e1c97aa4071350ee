//! The files of the program.

ghost use Rattle.std.specs.Prelude.{◌≡◌, ℕ, List, [], Some, IsSome, IfOk, IfErr, OnErr};
ghost use Rattle.std.specs.Io.Buffered.{writer_buffer, writer_inner};
ghost use Rattle.hprof_devices.specs.declared.health.Health.TheVariants.{Well};
ghost use Rattle.hprof_runs.specs.ReadBack.{HoldsNothing};
ghost use Rattle.hprof_tool.specs.Folder.{Answered};

use crate::program::refused::Refused;
use hprof_command::OutName;
use hprof_devices::Source;
use hprof_handles::ReadAt;
use hprof_objects::Keeping;
use hprof_runs::Scratch;
use std::alloc::{AllocError, Global};
use std::io;
use std::io::{BufWriter, Write};

/// The folder in which the program finds its files. The proofs hold for whatever a folder may tell of the files that it gives: they are
/// about the very files that were opened and created by these names, and about no others.
pub(crate) trait Folder {
    ghost use Rattle.hprof_tool.specs.Program.{IsOfCreating};

    /// An open part.
    type Part: Source + Drop;

    /// What reads a part again, at offsets.
    type Handle: ReadAt + Drop;

    /// Scratch for objects.
    type Scratch: Scratch + Drop;

    /// A new file.
    type Out: Write + Drop;

    // What came of the calls by names.
    ghost answered: { Self → Answered Self.Part Self.Out };

    /// Opens the file of a part.
    fn open_part(&self, name: &str) -> io::Result<Self::Part>
        ensures opened { IfOk result ((answered self.now).IsOpened name.now) }
        ensures well { IfOk result (λ part. Self.Part.health part ≡ Well) }
        ensures fails { OnErr result ((answered self.now).CannotOpen name.now) };

    /// Returns what reads the part again. Of a part that is read once it reads nothing: each read fails.
    fn handle(&self, part: &Self::Part) -> Result<Self::Handle, AllocError>
        ensures { IfOk result (λ handle. (told : List ℕ) → Self.Part.left part.now ≡ Some told → Self.Handle.bytes handle ≡ Some told) };

    /// Returns whether the parts may be too long for their objects to stay in memory.
    fn are_long(&self, parts: &[Self::Part]) -> bool;

    /// Returns how the objects of the parts are kept: none stays in a part that is read once.
    fn keeping(&self, parts: &[Self::Part]) -> Keeping;

    /// Returns the same of a part that is read once: no stretch stays in it.
    fn keeping_once(&self) -> Keeping
        ensures { result.stretches ≡ 0 };

    /// Returns scratch without bytes. It is beside the new file, if one is written.
    fn scratch(&self, alloc: Global, out: Option<&str>) -> Result<Self::Scratch, AllocError>
        ensures nothing { IfOk result (λ scratch. HoldsNothing (Self.Scratch.written scratch)) }
        ensures well { IfOk result (λ scratch. Self.Scratch.health scratch ≡ Well) }
        ensures told { IfOk result (λ scratch. (handle : Self.Handle) → IsSome (Self.Handle.bytes handle)
            → IsSome (Self.Scratch.written scratch)) };

    /// Creates a new file, if there is none, behind a buffer. If there is no memory for the buffer, the file is removed; if it cannot be
    /// removed, it stays.
    fn create_out(&self, alloc: Global, out: OutName<'_>) -> Result<BufWriter<Self::Out>, Refused>
        requires { (answered self.now).MayCreate out.name.now }
        ensures created { IfOk result (λ buffered. (answered self.now).IsCreated out.entry.name.now (writer_inner buffered)) }
        ensures empty { IfOk result (λ buffered. writer_buffer buffered ≡ []) }
        ensures fails { IfErr result (IsOfCreating (answered self.now) out.entry.name.now) };

    /// Gives up the name of a new file that was not created. It does nothing.
    fn leave_out(&self, out: OutName<'_>)
        ensures { (answered self.now).HasNone out.entry.name.now };

    /// Closes a new file that was created by that name, and removes it. If it cannot be removed, it stays.
    fn remove_out(&self, name: &str, file: Self::Out)
        requires { (created : Self.Out) × (answered self.now).IsCreated name.now created }
        ensures { (answered self.now).HasNone name.now };
}
