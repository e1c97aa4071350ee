//! A buffer of sub-records, which are written in one piece.

ghost use Rattle.std.specs.Prelude.{◌≡◌, ◌+◌, ◌++◌, ◌<◌, ◌≤◌, ◌⊎◌, List, [], length, true, false, OnOk};
ghost use Rattle.hprof_devices.specs.declared.health.Health.TheVariants.{Well};
ghost use Rattle.hprof_devices.specs.Device.{Writes, LeavesHealth};
ghost use Rattle.hprof_items.specs.SubRecord.{dump_bytes};
ghost use Rattle.hprof_rows.specs.SubRow.{sub_fact, IsWritable, IsNoObject};

use hprof_devices::{Target, WriteFault, push_all};
use hprof_rows::SubRow;
use hprof_values::IdSize;

/// The number of bytes of the buffer.
const ROOM: usize = 4096;

/// A buffer: the bytes of `room` before `end` wait to be written.
#[derive(Drop)]
pub struct Batch {
    room: [u8; ROOM],
    end: usize,
    ghost sound: { end ≤ 4096 },
}

impl Batch {
    ghost use Rattle.hprof_dump.specs.Batch.{batch_bytes, WritesSome};

    /// Returns an empty batch.
    pub fn empty() -> Self
        ensures { batch_bytes result ≡ [] }
    {
        Batch {
            room: [0; ROOM],
            end: 0,
        }
    }

    /// Writes the waiting bytes. If this fails, a prefix of them was written, and the batch must not be used again.
    pub fn write<W: Target>(&mut self, target: &mut W) -> Result<(), WriteFault>
        requires { W.health target.old ≡ Well }
        ensures bytes { Writes (W.written target.old) (W.written target.new) result (batch_bytes self.old) }
        ensures none { OnOk result (batch_bytes self.new ≡ []) }
        ensures health { LeavesHealth result (W.health target.new) }
    {
        push_all(&self.room[..self.end], target)?;
        self.end = 0;
        Ok(())
    }

    /// Appends a sub-record to the waiting bytes, if there is room for it.
    #[inline(always)]
    fn puts(&mut self, row: SubRow<'_>, ids: IdSize) -> bool
        requires { IsWritable ids row }
        ensures put { result ≡ true → batch_bytes self.new ≡ batch_bytes self.old ++ dump_bytes ids (sub_fact ids row.entry) }
        ensures not { result ≡ false → batch_bytes self.new ≡ batch_bytes self.old }
        ensures full { result ≡ false
            → IsNoObject row.entry ⊎ (4096 < length (batch_bytes self.old) + length (dump_bytes ids (sub_fact ids row.entry))) }
    {
        match row.put(ids, &mut self.room[self.end..]) {
            None => false,
            Some(count) => {
                self.end += count;
                true
            }
        }
    }

    /// Writes the waiting bytes, and takes a sub-record for which they left no room: it waits if the buffer has room for it, and is written
    /// otherwise. If this fails, a prefix was written.
    #[inline(never)]
    fn take_next<W: Target>(
        &mut self,
        row: SubRow<'_>,
        ids: IdSize,
        target: &mut W,
    ) -> Result<(), WriteFault>
        requires well { W.health target.old ≡ Well }
        requires writable { IsWritable ids row }
        ensures bytes { WritesSome (W.written target.old) (W.written target.new) result
            (batch_bytes self.old ++ dump_bytes ids (sub_fact ids row.entry)) (batch_bytes self.new) }
        ensures health { LeavesHealth result (W.health target.new) }
    {
        self.write(target)?;
        if self.puts(row, ids) {
            return Ok(());
        }
        row.write(ids, target)
    }

    /// Takes a sub-record. If this fails, a prefix of the waiting bytes and the sub-record was written, and the batch must not be used
    /// again.
    #[inline(always)]
    pub fn take<W: Target>(
        &mut self,
        row: SubRow<'_>,
        ids: IdSize,
        target: &mut W,
    ) -> Result<(), WriteFault>
        requires well { W.health target.old ≡ Well }
        requires writable { IsWritable ids row }
        ensures bytes { WritesSome (W.written target.old) (W.written target.new) result
            (batch_bytes self.old ++ dump_bytes ids (sub_fact ids row.entry)) (batch_bytes self.new) }
        ensures health { LeavesHealth result (W.health target.new) }
    {
        if self.puts(row, ids) {
            return Ok(());
        }
        self.take_next(row, ids, target)
    }
}
