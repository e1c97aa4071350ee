//! Reading a part into a sink that is told places.

ghost use Rattle.std.specs.Prelude.{◌≡◌, ◌++◌, ℕ, ◌+◌, ◌≤◌, ◌<◌, List, Option, Some, length, [], IfOk, OnOk};
ghost use Rattle.std.specs.Io.KnownBytes.{Consumes};
ghost use Rattle.hprof_items.specs.declared.header.Header.{Header};
ghost use Rattle.hprof_items.specs.FactValue.{FactValue};
ghost use Rattle.hprof_devices.specs.declared.health.Health.TheVariants.{Well};
ghost use Rattle.hprof_stream.specs.declared.limits.Limits.{Limits};
ghost use Rattle.hprof_stream.specs.Reader.{HasRead, IsReady};
ghost use Rattle.hprof_placed.specs.Feeding.{FeedsPlaced};
ghost use Rattle.hprof_placed.specs.Reading.{ReadsPlaced};

use crate::placed_sink::PlacedSink;
use hprof_devices::Source;
use hprof_stream::{Limits, PartFault, PartReader, PartSummary};
use std::alloc::Global;

/// The number of bytes that a read asks for.
const PIECE_LEN: usize = 65_536;

/// Tells the sink the place behind the last whole item.
fn note_place<S: PlacedSink>(reader: &PartReader, sink: &mut S)
    ensures holds { (limits : Limits) (earlier : S.Earlier) (header : Option Header) (bytes more : List ℕ) (facts : List FactValue)
        → HasRead limits (bytes ++ more) facts reader.now → S.holds sink.old limits earlier header bytes facts
        → S.holds sink.new limits earlier header (bytes ++ more) facts }
    ensures begun { S.begun sink.new ≡ S.begun sink.old }
{
    if let Some(place) = reader.place() {
        sink.note(place);
    }
}

/// Feeds the pieces of the source to the reader, up to the source's end, and tells the sink the place before each of them.
fn feed_all<R: Source, S: PlacedSink>(
    reader: &mut PartReader,
    source: &mut R,
    piece: &mut [u8],
    max_reads: u64,
    sink: &mut S,
) -> Result<(), PartFault>
    requires well { R.health source.old ≡ Well }
    requires room { 0 < length piece.old }
    requires few { length piece.old ≤ 65536 }
    requires begun { IsReady reader.old (S.begun sink.old) }
    ensures fed { (limits : Limits) → HasRead limits [] [] reader.old → limits.max_reads ≡ max_reads
        → ((came : List ℕ) × Consumes (R.left source.old) (R.left source.new) came
        × FeedsPlaced R.left R.health R.pulls S.holds S.refuses S.failed limits source.old came source.new sink.old result reader.new
        sink.new) }
    ensures pulls { R.pulls source.new ≤ R.pulls source.old + max_reads }
    ensures ready { OnOk result (IsReady reader.new (S.begun sink.new)) }
{
    for _ in 0..max_reads {
        let Ok(count) = source.pull(piece) else {
            return Err(PartFault::Read);
        };
        if count == 0 {
            return Ok(());
        }
        note_place(reader, sink);
        reader.feed(&piece[..count], sink)?;
    }
    Err(PartFault::ReadsExceeded)
}

/// Reads a part to its end, as [`hprof_stream::read_part`] does. Before each piece it tells the sink the place behind the last whole item.
///
/// Reading can begin again at such a place: `PartReader::resume`, `FactPlace::behind`.
pub fn read_placed<R: Source, S: PlacedSink>(
    alloc: Global,
    source: &mut R,
    limits: Limits,
    sink: &mut S,
) -> Result<PartSummary, PartFault>
    requires { R.health source.old ≡ Well }
    // The end is that of `read_part` with a sink that lists the header and the facts. The sink holds the same header, the same facts,
    // and all bytes that came but those of the last piece, behind whatever it was given earlier.
    ensures read { (came : List ℕ) × Consumes (R.left source.old) (R.left source.new) came
        × ReadsPlaced R.left R.health R.pulls S.holds S.refuses S.failed limits source.old came source.new sink.old result sink.new }
    // No more reads were made than the limit.
    ensures pulls { R.pulls source.new ≤ R.pulls source.old + limits.max_reads }
    // The sink was begun with the size of the part.
    ensures begun { IfOk result (λ summary. S.begun sink.new ≡ Some summary.header.ids) }
{
    let Ok(mut piece) = vec![in alloc; 0u8; PIECE_LEN] else {
        return Err(PartFault::OutOfMemory);
    };
    let mut reader = PartReader::new(alloc, limits);
    feed_all(&mut reader, source, &mut piece, limits.max_reads, sink)?;
    reader.finish()
}
