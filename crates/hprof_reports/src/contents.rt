//! The contents of an array, in hexadecimal.

ghost use Rattle.std.specs.Prelude.{◌≡◌, ◌≤◌, length};
ghost use Rattle.hex.specs.Hex.{encode_lower};
ghost use Rattle.hprof_devices.specs.declared.health.Health.TheVariants.{Well};
ghost use Rattle.hprof_devices.specs.Device.{LeavesHealth, Writes};
ghost use Rattle.hprof_reports.specs.ObjectText.{contents_text};
ghost use Rattle.hprof_lines.specs.Stopping.{LeavesTarget, WritesText};

use hprof_devices::{Target, WriteFault, push_all};
use hprof_engine::ProductFault;
use hprof_lines::write_str;

/// The number of bytes that are written at a time.
const PIECE_LEN: usize = 512;

/// Writes a few bytes, two digits for each. At a fault some of them were written, from the front.
fn write_piece<W: Target>(bytes: &[u8], target: &mut W) -> Result<(), WriteFault>
    requires well { W.health target.old ≡ Well }
    requires few { length bytes.now ≤ PIECE_LEN }
    ensures bytes { Writes (W.written target.old) (W.written target.new) result (encode_lower bytes.now) }
    ensures health { LeavesHealth result (W.health target.new) }
{
    let mut room = [0; 2 * PIECE_LEN];
    let digits = &mut room[..2 * bytes.len()];
    let _ = hex::encode_to_slice(bytes, digits);
    push_all(digits, target)
}

/// Writes all bytes, two digits for each. At a fault some of them were written, from the front.
fn write_digits<W: Target>(bytes: &[u8], target: &mut W) -> Result<(), WriteFault>
    requires { W.health target.old ≡ Well }
    ensures bytes { Writes (W.written target.old) (W.written target.new) result (encode_lower bytes.now) }
    ensures health { LeavesHealth result (W.health target.new) }
{
    let mut rest = bytes;
    while !rest.is_empty() {
        let (piece, after) = rest.split_at(rest.len().min(PIECE_LEN));
        write_piece(piece, target)?;
        rest = after;
    }
    Ok(())
}

/// Writes the line of an array's contents, if it has any, piece by piece. At a fault some of it was written, from the front.
pub(crate) fn write_contents<W: Target>(bytes: &[u8], target: &mut W) -> Result<(), ProductFault>
    requires { W.health target.old ≡ Well }
    ensures bytes { WritesText (W.written target.old) (W.written target.new) result (contents_text bytes.now) }
    ensures health { LeavesTarget result (W.health target.new) }
{
    if bytes.is_empty() {
        return Ok(());
    }
    write_str("bytes ", target)?;
    if let Err(fault) = write_digits(bytes, target) {
        return Err(ProductFault::Write(fault));
    }
    write_str("\n", target)
}
