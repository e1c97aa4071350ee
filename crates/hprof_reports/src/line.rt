//! Lines of reports.

ghost use Rattle.std.specs.Prelude.{◌≡◌, flat_map};
ghost use Rattle.hprof_devices.specs.declared.health.Health.TheVariants.{Well};
ghost use Rattle.hprof_devices.specs.Device.{Writes, LeavesHealth};
ghost use Rattle.hprof_lines.specs.Line.{count_line};

use hprof_devices::{Target, WriteFault, push_all};
use itoa::Buffer;

/// Writes the pieces, one behind the other. At a fault some of their bytes were written, from the front.
pub(crate) fn write_pieces<W: Target>(pieces: &[&[u8]], target: &mut W) -> Result<(), WriteFault>
    requires { W.health target.old ≡ Well }
    ensures bytes { Writes (W.written target.old) (W.written target.new) result (flat_map (λ piece. piece.now) pieces.now) }
    ensures health { LeavesHealth result (W.health target.new) }
{
    for piece in pieces {
        push_all(piece, target)?;
    }
    Ok(())
}

/// Writes the line of a word and a number. At a fault some of it was written, from the front.
pub(crate) fn write_count<W: Target>(
    word: &[u8],
    number: u64,
    target: &mut W,
) -> Result<(), WriteFault>
    requires { W.health target.old ≡ Well }
    ensures bytes { Writes (W.written target.old) (W.written target.new) result (count_line word.now number) }
    ensures health { LeavesHealth result (W.health target.new) }
{
    let mut digits = Buffer::new();
    let number = digits.format(number).as_bytes();
    write_pieces(&[word, b" ", number, b"\n"], target)
}
