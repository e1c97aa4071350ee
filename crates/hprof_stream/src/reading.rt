//! Reading a part from a source.

ghost use Rattle.std.specs.Prelude.{◌≡◌, ℕ, ◌+◌, ◌≤◌, ◌<◌, List, length, []};
ghost use Rattle.std.specs.Io.KnownBytes.{Consumes};
ghost use Rattle.hprof_devices.specs.declared.health.Health.TheVariants.{Well};
ghost use Rattle.hprof_stream.specs.declared.limits.Limits.{Limits};
ghost use Rattle.hprof_stream.specs.Reader.{HasRead, IsReady, ReadsPart};
ghost use Rattle.hprof_stream.specs.Feeding.{FeedsAll};

use crate::limits::Limits;
use crate::part_fault::PartFault;
use crate::part_reader::PartReader;
use crate::sink::Sink;
use crate::summary::PartSummary;
use hprof_devices::Source;
use std::alloc::Global;

/// The number of bytes that a read asks for.
const PIECE_LEN: usize = 65_536;

/// Feeds the pieces of the source to the reader, up to the source's end.
fn feed_all<R: Source, S: Sink>(
    reader: &mut PartReader,
    source: &mut R,
    piece: &mut [u8],
    max_reads: u64,
    sink: &mut S,
) -> Result<(), PartFault>
    requires well { R.health source.old ≡ Well }
    requires room { 0 < length piece.old }
    requires few { length piece.old ≤ 65536 }
    requires begun { IsReady reader.old (S.begun sink.old) }
    ensures fed { (limits : Limits) → HasRead limits [] [] reader.old → limits.max_reads ≡ max_reads
        → ((came : List ℕ) × Consumes (R.left source.old) (R.left source.new) came
        × FeedsAll R.left R.health R.pulls S.begins S.steps S.refuses S.failed limits source.old came source.new sink.old result
        reader.new sink.new) }
    ensures pulls { R.pulls source.new ≤ R.pulls source.old + max_reads }
{
    for _ in 0..max_reads {
        let Ok(count) = source.pull(piece) else {
            return Err(PartFault::Read);
        };
        if count == 0 {
            return Ok(());
        }
        reader.feed(&piece[..count], sink)?;
    }
    Err(PartFault::ReadsExceeded)
}

/// Reads a part to its end, in pieces of 65,536 bytes, and hands its header and facts to the sink. A fault in the bytes comes before a
/// failed read and before too many reads.
pub fn read_part<R: Source, S: Sink>(
    alloc: Global,
    source: &mut R,
    limits: Limits,
    sink: &mut S,
) -> Result<PartSummary, PartFault>
    requires { R.health source.old ≡ Well }
    // Bytes came, one or more with each pull, and behind them a pull that gave none ends the part; this is what they come
    // to. Want of memory is the reader's where all but what the last pull gave had been judged and an item could not be
    // held, or where nothing was read.
    ensures read { (came : List ℕ) × Consumes (R.left source.old) (R.left source.new) came
        × ReadsPart R.left R.health R.pulls S.begins S.steps S.refuses S.failed limits source.old came source.new sink.old result sink.new }
    // No more reads were made than the limit.
    ensures pulls { R.pulls source.new ≤ R.pulls source.old + limits.max_reads }
{
    let Ok(mut piece) = vec![in alloc; 0u8; PIECE_LEN] else {
        return Err(PartFault::OutOfMemory);
    };
    let mut reader = PartReader::new(alloc, limits);
    feed_all(&mut reader, source, &mut piece, limits.max_reads, sink)?;
    reader.finish()
}
