//! Stack traces as a heap stores them: the serial number of the thread, and the identifiers of the frames.

ghost use Rattle.std.specs.Prelude.{◌≡◌};
ghost use Rattle.byteorder.specs.Endian.{big_bytes};
ghost use Rattle.hprof_items.specs.FactValue.{ListsHave, value_of};
ghost use Rattle.hprof_rows.specs.Content.{trace_fact};
ghost use Rattle.hprof_rows.specs.Trace.{IsTrace};

use byteorder::{BigEndian, ByteOrder};
use hprof_items::Fact;
use hprof_values::number::split_u32;
use hprof_values::{IdList, IdSize};

/// Returns the first four stored bytes of a stack trace: the serial number of its thread.
pub fn thread_bytes(thread: u32) -> [u8; 4]
    ensures { result ≡ big_bytes 4 thread }
{
    let mut bytes = [0; 4];
    BigEndian::write_u32(&mut bytes, thread);
    bytes
}

/// Returns the stack trace with this serial number, from its stored bytes.
pub fn decode_trace(serial: u32, kept: &[u8], ids: IdSize) -> Fact<'_>
    requires { IsTrace ids kept.now }
    ensures value { value_of result ≡ trace_fact ids serial kept.now }
    ensures lists { ListsHave ids result }
{
    let (thread, frames) = split_u32(kept);
    Fact::Trace {
        serial,
        thread,
        frames: IdList::of_whole(frames, ids),
    }
}
