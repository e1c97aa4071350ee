//! Writing a header, a record head or a fact.

ghost use Rattle.std.specs.Prelude.{◌≡◌, ◌≤◌, ◌++◌, length, drop};
ghost use Rattle.hprof_devices.specs.declared.health.Health.TheVariants.{Well};
ghost use Rattle.hprof_items.specs.Header.{text_of, header_bytes};
ghost use Rattle.hprof_items.specs.Head.{head_bytes};
ghost use Rattle.hprof_devices.specs.Device.{Writes, LeavesHealth};

use byteorder::{BigEndian, ByteOrder};
use hprof_devices::{Target, WriteFault, push_all};
use hprof_items::{
    Fact, HEAD_LEN, HEADER_LEN, Header, SIZED_LEN, TEXT_LEN, TEXT_V101, TEXT_V102, Version, tag,
};
use hprof_values::IdSize;

fn version_text(version: Version) -> &'static [u8; 19]
    ensures { result.now ≡ text_of version }
{
    match version {
        Version::V101 => TEXT_V101,
        Version::V102 => TEXT_V102,
    }
}

/// Stores the 31 bytes of the header at the front of `out`.
fn put_header(header: &Header, out: &mut [u8])
    requires { 31 ≤ length out.old }
    ensures { out.new ≡ header_bytes header.now ++ drop 31 out.old }
{
    out[..TEXT_LEN].copy_from_slice(version_text(header.version));
    BigEndian::write_u32(&mut out[TEXT_LEN..], header.ids.width() as u32);
    BigEndian::write_u64(&mut out[SIZED_LEN..], header.millis);
}

/// Writes the 31 bytes of the header. Does not flush. If this fails, a prefix of them was written.
pub fn write_header<W: Target>(header: &Header, target: &mut W) -> Result<(), WriteFault>
    requires { W.health target.old ≡ Well }
    ensures bytes { Writes (W.written target.old) (W.written target.new) result (header_bytes header.now) }
    ensures health { LeavesHealth result (W.health target.new) }
{
    let mut bytes = [0; HEADER_LEN];
    put_header(header, &mut bytes);
    push_all(&bytes, target)
}

/// Stores a record head with time 0 at the front of `out`.
fn put_head(tag: u8, len: u32, out: &mut [u8])
    requires { 9 ≤ length out.old }
    ensures { out.new ≡ head_bytes tag 0 len ++ drop 9 out.old }
{
    out[0] = tag;
    BigEndian::write_u32(&mut out[1..], 0);
    BigEndian::write_u32(&mut out[5..], len);
}

/// Writes the nine bytes of a record head with time 0. Does not flush. If this fails, a prefix of them was written.
pub fn write_head<W: Target>(tag: u8, len: u32, target: &mut W) -> Result<(), WriteFault>
    requires { W.health target.old ≡ Well }
    ensures bytes { Writes (W.written target.old) (W.written target.new) result (head_bytes tag 0 len) }
    ensures health { LeavesHealth result (W.health target.new) }
{
    let mut bytes = [0; HEAD_LEN];
    put_head(tag, len, &mut bytes);
    push_all(&bytes, target)
}
