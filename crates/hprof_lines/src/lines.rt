//! Lines of a report that are written one after the other.

ghost use Rattle.std.specs.Prelude.{◌≡◌, IfOk, List, ℕ, string_bytes};
ghost use Rattle.hprof_devices.specs.declared.health.Health.TheVariants.{Well};
ghost use Rattle.hprof_lines.specs.Stopping.{LeavesTarget, WritesText};

use hprof_devices::{Target, push_all};
use hprof_engine::ProductFault;
use std::alloc::AllocError;

/// Writes a text. If the writer fails, the bytes written are the beginning of it.
pub fn write_str<W: Target>(text: &str, target: &mut W) -> Result<(), ProductFault>
    requires { W.health target.old ≡ Well }
    ensures bytes { WritesText (W.written target.old) (W.written target.new) result text.now }
    ensures health { LeavesTarget result (W.health target.new) }
{
    match push_all(text.as_bytes(), target) {
        Ok(()) => Ok(()),
        Err(fault) => Err(ProductFault::Write(fault)),
    }
}

/// Writes a line, if there was memory to make it. If it stops, the bytes written are the beginning of the line.
pub fn write_line<W: Target>(
    line: Result<String, AllocError>,
    target: &mut W,
) -> Result<(), ProductFault>
    requires { W.health target.old ≡ Well }
    ensures bytes { (text : List ℕ) → IfOk line (λ line. string_bytes line ≡ text)
        → WritesText (W.written target.old) (W.written target.new) result text }
    ensures health { LeavesTarget result (W.health target.new) }
{
    match line {
        Ok(line) => write_str(&line, target),
        Err(_) => Err(ProductFault::OutOfMemory),
    }
}
