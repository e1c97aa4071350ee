//! A sub-record, as a heap stores it.

ghost use Rattle.std.specs.Prelude.{◌≡◌, ◌+◌, ◌++◌, ◌<◌, ◌≤◌, ◌⊎◌, length, drop, IfSome, None};
ghost use Rattle.hprof_rows.specs.Content.{object_fact};
ghost use Rattle.hprof_rows.specs.TableRows.{IsObject};
ghost use Rattle.hprof_values.specs.Ids.{width_of};
ghost use Rattle.hprof_devices.specs.declared.health.Health.TheVariants.{Well};
ghost use Rattle.hprof_devices.specs.Device.{Writes, LeavesHealth};
ghost use Rattle.hprof_items.specs.Spelling.{longest_body};
ghost use Rattle.hprof_items.specs.SubRecord.{dump_bytes};

use hprof_devices::{Target, WriteFault, push_all};
use hprof_items::Fact;
use hprof_values::{IdSize, Number, Root, put_numbers};
use hprof_writing::{spelled_len, write_fact};

/// A sub-record, as a heap stores it.
#[derive(Clone, Copy)]
pub enum SubRow<'a> {
    /// A root.
    Root(Root),
    /// The sub-record of a class dump.
    Class(&'a [u8]),
    /// An instance or an array.
    Object {
        /// Its identifier.
        id: u64,
        /// Its sub-record without the identifier.
        kept: &'a [u8],
    },
}

/// Writes an instance or an array to the front: its tag, its identifier, and the bytes after them.
#[inline(always)]
fn put_object(id: u64, kept: &[u8], ids: IdSize, out: &mut [u8])
    requires kept { IsObject ids (id, kept.now) }
    requires room { width_of ids + length kept.now ≤ length out.old }
    ensures { out.new ≡ dump_bytes ids (object_fact ids id kept.now) ++ drop (width_of ids + length kept.now) out.old }
{
    let Some((tag, rest)) = kept.split_first() else {
        unreachable!()
    };
    let (front, behind) = out.split_at_mut(1 + ids.width());
    put_numbers(&[Number::One(*tag), Number::Id(id)], ids, front);
    behind[..rest.len()].copy_from_slice(rest);
}

/// The largest number of bytes of a tag and an identifier.
const FRONT_LEN: usize = 9;

/// Writes an instance or an array: its tag and its identifier in one piece, and then the bytes after them.
fn write_object<W: Target>(
    id: u64,
    kept: &[u8],
    ids: IdSize,
    target: &mut W,
) -> Result<(), WriteFault>
    requires well { W.health target.old ≡ Well }
    requires kept { IsObject ids (id, kept.now) }
    ensures bytes { Writes (W.written target.old) (W.written target.new) result (dump_bytes ids (object_fact ids id kept.now)) }
    ensures health { LeavesHealth result (W.health target.new) }
{
    let Some((tag, rest)) = kept.split_first() else {
        unreachable!()
    };
    let mut front = [0; FRONT_LEN];
    put_numbers(&[Number::One(*tag), Number::Id(id)], ids, &mut front);
    push_all(&front[..1 + ids.width()], target)?;
    push_all(rest, target)
}

impl SubRow<'_> {
    ghost use Rattle.hprof_rows.specs.SubRow.{sub_fact, IsWritable, IsNoObject};

    /// Returns the number of bytes of the sub-record.
    pub fn len(self, ids: IdSize) -> u64
        requires { IsWritable ids self }
        ensures value { result ≡ length (dump_bytes ids (sub_fact ids self.entry)) }
        ensures some { 0 < result }
        ensures short { result ≤ longest_body }
    {
        match self {
            SubRow::Root(root) => spelled_len(&Fact::Root(root), ids),
            SubRow::Class(bytes) => bytes.len() as u64,
            SubRow::Object { kept, .. } => ids.width() as u64 + kept.len() as u64,
        }
    }

    /// Writes an instance or an array to the front of `out`, and returns the number of its bytes.
    ///
    /// Returns `None` and leaves `out` unchanged if the row is neither, or if `out` is too short.
    #[inline(always)]
    pub fn put(self, ids: IdSize, out: &mut [u8]) -> Option<usize>
        requires { IsWritable ids self }
        ensures put { IfSome result (λ count. (count ≡ length (dump_bytes ids (sub_fact ids self.entry)))
            × (out.new ≡ dump_bytes ids (sub_fact ids self.entry) ++ drop count out.old)) }
        ensures not { result ≡ None → (out.new ≡ out.old) × (IsNoObject self.entry
            ⊎ (length out.old < length (dump_bytes ids (sub_fact ids self.entry)))) }
    {
        let SubRow::Object { id, kept } = self else {
            return None;
        };
        let count = ids.width() + kept.len();
        if out.len() < count {
            return None;
        }
        put_object(id, kept, ids, out);
        Some(count)
    }

    /// Writes the sub-record. If this fails, a prefix of it was written.
    pub fn write<W: Target>(self, ids: IdSize, target: &mut W) -> Result<(), WriteFault>
        requires well { W.health target.old ≡ Well }
        requires writable { IsWritable ids self }
        ensures bytes { Writes (W.written target.old) (W.written target.new) result (dump_bytes ids (sub_fact ids self.entry)) }
        ensures health { LeavesHealth result (W.health target.new) }
    {
        match self {
            SubRow::Root(root) => write_fact(&Fact::Root(root), ids, target),
            SubRow::Class(bytes) => push_all(bytes, target),
            SubRow::Object { id, kept } => write_object(id, kept, ids, target),
        }
    }
}
