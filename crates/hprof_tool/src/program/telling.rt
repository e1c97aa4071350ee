//! Lines that are told without a buffer, and without memory.

ghost use Rattle.std.specs.Prelude.{◌≡◌, List, [], ◌∷◌, ◌++◌, codes, decimal};
ghost use Rattle.hprof_devices.specs.Device.{Writes};
ghost use Rattle.hprof_tool.specs.Telling.{TellsFront, line_end, told_line};

use hprof_devices::WriteFault;
use itoa::Buffer;
use std::io::Write;

/// Writes all of the bytes: those that one write did not take are written again. At a fault some of them were written, from the front.
fn write_bytes<W: Write>(bytes: &[u8], writer: &mut W) -> Result<(), WriteFault>
    ensures { Writes (W.contents writer.old) (W.contents writer.new) result bytes.now }
{
    let mut rest = bytes;
    while !rest.is_empty() {
        let Ok(count) = writer.write(rest) else {
            return Err(WriteFault::Failed);
        };
        if count == 0 {
            return Err(WriteFault::Stuck);
        }
        (_, rest) = rest.split_at(count);
    }
    Ok(())
}

/// Writes a text, and the end of its line. At a fault a front of them was written.
fn write_line<W: Write>(text: &[u8], writer: &mut W) -> Result<(), WriteFault>
    ensures { Writes (W.contents writer.old) (W.contents writer.new) result (text.now ++ line_end ∷ []) }
{
    write_bytes(text, writer)?;
    write_bytes(b"\n", writer)
}

/// Writes a line of two texts. At a fault a front of it was written.
fn write_line_behind<W: Write>(front: &[u8], text: &[u8], writer: &mut W) -> Result<(), WriteFault>
    ensures { Writes (W.contents writer.old) (W.contents writer.new) result (front.now ++ (text.now ++ line_end ∷ [])) }
{
    write_bytes(front, writer)?;
    write_line(text, writer)
}

/// Writes a number in decimal, and a line of two texts behind it. At a fault a front of them was written.
fn write_number<W: Write>(
    number: usize,
    front: &[u8],
    text: &[u8],
    writer: &mut W,
) -> Result<(), WriteFault>
    ensures { Writes (W.contents writer.old) (W.contents writer.new) result
        (decimal number ++ (front.now ++ (text.now ++ line_end ∷ []))) }
{
    let mut digits = Buffer::new();
    write_bytes(digits.format(number).as_bytes(), writer)?;
    write_line_behind(front, text, writer)
}

/// Writes the line of a part that is refused: its number, and why. At a fault a front of it was written.
pub(crate) fn write_part_line<W: Write>(
    index: usize,
    why: &str,
    writer: &mut W,
) -> Result<(), WriteFault>
    ensures { Writes (W.contents writer.old) (W.contents writer.new) result
        (codes "part " ++ (decimal index ++ (codes ": " ++ (why.now ++ line_end ∷ [])))) }
{
    write_bytes(b"part ", writer)?;
    write_number(index, b": ", why.as_bytes(), writer)
}

/// Tells a text in a line of the program. If it cannot be written, a front of it is told.
pub(crate) fn tell_line<W: Write>(text: &str, writer: &mut W)
    ensures { TellsFront (told_line text.now) (W.contents writer.old) (W.contents writer.new) }
{
    let _ = write_line_behind(b"hprof: ", text.as_bytes(), writer);
}
