//! Making something of parts into a writer, through a buffer.

ghost use Rattle.std.specs.Prelude.{◌≡◌, [], All, None, Ok, Err, OnOk, OnErr, IfOk, IfErr, IfSome};
ghost use Rattle.std.specs.Io.KnownBytes.{Keeps, append_known};
ghost use Rattle.std.specs.Io.Buffered.{writer_buffer, writer_contents, writer_inner};
ghost use Rattle.hprof_devices.specs.declared.health.Health.TheVariants.{Well};
ghost use Rattle.hprof_engine.specs.Joining.{fault_of, IsBeforeWriting};
ghost use Rattle.hprof_devices.specs.Device.{inner_of, health_of};
ghost use Rattle.hprof_tool.specs.Again.{IsReadyFor};
ghost use Rattle.hprof_tool.specs.Program.{MakesStream};
ghost use Rattle.hprof_tool.specs.Streams.{LeavesStream, StopsStream};

use crate::program::again::Again;
use crate::program::made::Made;
use crate::program::refused::{Left, Refused, Stopped};
use hprof_devices::{Device, Source, WriteFault};
use hprof_engine::ToolFault;
use hprof_handles::ReadAt;
use hprof_runs::Scratch;
use std::alloc::Global;
use std::io::{BufWriter, Write};
use std::mem;

/// The number of bytes that are written at a time.
pub(crate) const BUFFER_LEN: usize = 65_536;

/// The fault when writing failed.
const WRITE_FAILED: ToolFault = ToolFault::Write(WriteFault::Failed);

/// The result of writing, with the writer and the bytes that did not reach it.
#[derive(Drop)]
pub(crate) struct Writing<T, W> {
    pub(crate) outcome: Result<T, ToolFault>,
    pub(crate) writer: W,
    pub(crate) unwritten: Vec<u8>,
}

/// Ends the writing after the answer of the engine: the buffer is flushed, and after a refusal it is left alone.
fn end_of_writing<T: Drop, W: Write + Drop>(
    made: Result<T, ToolFault>,
    buffered: &mut BufWriter<W>,
) -> Result<T, ToolFault>
    ensures done { IfOk result (λ value. made ≡ Ok value) }
    ensures flushed { OnOk result (writer_buffer buffered.new ≡ []) }
    ensures bytes { Keeps (writer_contents W.contents buffered.old) (writer_contents W.contents buffered.new) }
    ensures failed { OnOk made (OnErr result (result ≡ Err WRITE_FAILED)) }
    ensures refused { IfErr made (λ fault. result ≡ Err fault) }
    ensures unchanged { OnErr made (buffered.new ≡ buffered.old) }
{
    match made {
        Ok(value) => match buffered.flush() {
            Ok(()) => Ok(value),
            Err(_) => Err(WRITE_FAILED),
        },
        Err(fault) => Err(fault),
    }
}

/// Ends the writing after the answer of the engine, and gives the writer back. A buffer that is dropped would write once more what it
/// holds, so it is taken apart.
pub(crate) fn take_apart<T: Drop, W: Write + Drop>(
    made: Result<T, ToolFault>,
    target: Device<BufWriter<W>>,
) -> Writing<T, W>
    ensures done { IfOk result.outcome (λ value. made ≡ Ok value) }
    ensures flushed { OnOk result.outcome (result.unwritten.items ≡ []) }
    ensures bytes { Keeps (writer_contents W.contents (inner_of target))
        (append_known (W.contents result.writer) result.unwritten.items) }
    ensures failed { OnOk made (OnErr result.outcome (result.outcome ≡ Err WRITE_FAILED)) }
    ensures refused { IfErr made (λ fault. result.outcome ≡ Err fault) }
    ensures unchanged { OnErr made (append_known (W.contents result.writer) result.unwritten.items
        ≡ writer_contents W.contents (inner_of target)) }
    ensures untouched { OnErr made (result.writer ≡ writer_inner (inner_of target)) }
{
    let mut buffered = target.into_inner();
    let outcome = end_of_writing(made, &mut buffered);
    let (writer, unwritten) = buffered.into_parts();
    Writing {
        outcome,
        writer,
        unwritten,
    }
}

/// Makes something of the parts of the readers into a buffered writer, and flushes it.
fn write_and_flush<P: Made, R: Source, H: ReadAt + Drop, S: Scratch + Drop, W: Write + Drop>(
    alloc: Global,
    product: &P,
    readers: &mut [R],
    again: Option<Again<H, S>>,
    buffered: BufWriter<W>,
) -> Writing<(), W>
    requires readers { All (λ reader. R.health reader ≡ Well) readers.old }
    requires again { IfSome again (IsReadyFor R.left H.bytes S.written S.health readers.old) }
    ensures makes { MakesStream R.left R.health R.pulls
        (P.making product.now)
        readers.old readers.new (writer_contents W.contents buffered)
        (append_known (W.contents result.writer) result.unwritten.items) (fault_of result.outcome) }
    ensures flushed { OnOk result.outcome (result.unwritten.items ≡ []) }
    ensures untouched { IsBeforeWriting (fault_of result.outcome) → result.writer ≡ writer_inner buffered }
{
    let mut target = Device::new(buffered);
    let made = product.make(alloc, readers, again, &mut target);
    take_apart(made, target)
}

/// Makes something of the parts of the readers into a writer behind an empty buffer, flushes it, and gives the writer back.
pub(crate) fn write_buffered<
    P: Made,
    R: Source,
    H: ReadAt + Drop,
    S: Scratch + Drop,
    W: Write + Drop,
>(
    alloc: Global,
    product: &P,
    readers: &mut [R],
    again: Option<Again<H, S>>,
    buffered: BufWriter<W>,
) -> Result<W, Left<W>>
    requires readers { All (λ reader. R.health reader ≡ Well) readers.old }
    requires again { IfSome again (IsReadyFor R.left H.bytes S.written S.health readers.old) }
    requires empty { writer_buffer buffered ≡ [] }
    ensures ok { IfOk result (λ written. MakesStream R.left R.health R.pulls
        (P.making product.now)
        readers.old readers.new (W.contents (writer_inner buffered)) (W.contents written) None) }
    ensures stops { IfErr result (λ left. LeavesStream R.left R.health R.pulls
        (P.making product.now)
        readers.old readers.new W.contents (writer_inner buffered) left.why left.writer) }
{
    let Writing {
        outcome,
        writer,
        unwritten,
    } = write_and_flush(alloc, product, readers, again, buffered);
    // To free this large block behind the rows would make the allocator go over all of them.
    mem::forget(unwritten);
    match outcome {
        Ok(()) => Ok(writer),
        Err(fault) => Err(Left {
            why: Refused::from(fault),
            writer,
        }),
    }
}

/// Makes something of the parts of the readers into a writer, and gives the writer back.
pub(crate) fn write_through_buffer<
    P: Made,
    R: Source,
    H: ReadAt + Drop,
    S: Scratch + Drop,
    W: Write + Drop,
>(
    alloc: Global,
    product: &P,
    readers: &mut [R],
    again: Option<Again<H, S>>,
    writer: W,
) -> Result<W, Stopped<W>>
    requires readers { All (λ reader. R.health reader ≡ Well) readers.old }
    requires again { IfSome again (IsReadyFor R.left H.bytes S.written S.health readers.old) }
    ensures ok { IfOk result (λ written. MakesStream R.left R.health R.pulls
        (P.making product.now)
        readers.old readers.new (W.contents writer) (W.contents written) None) }
    ensures stops { IfErr result (λ stopped. StopsStream R.left R.health R.pulls
        (P.making product.now)
        readers.old readers.new W.contents writer stopped.why stopped.writer) }
{
    let Ok(buffered) = BufWriter::with_capacity(alloc, BUFFER_LEN, writer) else {
        return Err(Stopped {
            why: Refused::OutOfMemory,
            writer: None,
        });
    };
    match write_buffered(alloc, product, readers, again, buffered) {
        Ok(written) => Ok(written),
        Err(left) => Err(Stopped {
            why: left.why,
            writer: Some(left.writer),
        }),
    }
}
