//! Questions about the heap of parts in files.

ghost use Rattle.std.specs.Prelude.{◌≡◌, [], List, All, None, IfOk, IfErr, IfSome};
ghost use Rattle.std.specs.Io.Buffered.{writer_buffer, writer_contents};
ghost use Rattle.hprof_devices.specs.Buffered.{buffered_health, buffered_of};
ghost use Rattle.hprof_devices.specs.declared.health.Health.TheVariants.{Well};
ghost use Rattle.hprof_ask.specs.Asks.{LetsAsk, PassesAnswersOn, fault_of_asking};
ghost use Rattle.hprof_large.specs.AskingStored.{LetsAskStored};
ghost use Rattle.hprof_tool.specs.Again.{IsReadyFor};
ghost use Rattle.hprof_tool.specs.Conversing.{AnswersAll, AnswersQuestions, AsksReaders, CannotReadOn, LeavesAnswers, LetsAskReaders};
ghost use Rattle.hprof_tool.specs.Conversing.{OverReaders, RefusesQuestions, SaysOfReaders, is_flushed};
ghost use Rattle.hprof_tool.specs.Folder.{AreOpened};

use crate::program::again::{Again, again_of};
use crate::program::folder::Folder;
use crate::program::opening::open_parts;
use crate::program::refused::{Refused, Stopped};
use crate::program::writing::BUFFER_LEN;
use hprof_ask::{AskFault, ask_returning_heap};
use hprof_devices::{BufferedDevice, Device, Source};
use hprof_handles::{Handles, ReadAt};
use hprof_large::ask_stored;
use hprof_questions::Asker;
use hprof_runs::Scratch;
use hprof_stream::Limits;
use std::alloc::Global;
use std::io::{BufWriter, Write};
use std::mem;

/// Answers questions about the heap of the parts of the readers, whose objects are kept in memory. The heap need not be freed row by row,
/// since the process ends.
fn ask_in_memory<R: Source, Q: Asker<BufferedDevice<W>>, W: Write + Drop>(
    alloc: Global,
    readers: &mut [R],
    questions: &mut Q,
    target: &mut BufferedDevice<W>,
) -> Result<(), AskFault>
    requires readers { All (λ reader. R.health reader ≡ Well) readers.old }
    requires asking { Q.health questions.old ≡ Well }
    requires writer { buffered_health target.old ≡ Well }
    requires leave { LetsAsk R.left Q.left (λ device. writer_contents W.contents (buffered_of device)) is_flushed Q.may_read
        readers.old questions.old (writer_contents W.contents (buffered_of target.old)) }
    ensures asks { AsksReaders R.left R.health R.pulls Q.left Q.health Q.pulls (λ device. writer_contents W.contents (buffered_of device))
        buffered_health readers.old readers.new questions.old questions.new target.old target.new (fault_of_asking result) }
    ensures flushed { PassesAnswersOn (fault_of_asking result) (writer_buffer (buffered_of target.new) ≡ []) }
{
    match ask_returning_heap(alloc, readers, questions, target, Limits::usual()) {
        Ok(heap) => {
            mem::forget(heap);
            Ok(())
        }
        Err(fault) => Err(fault),
    }
}

/// Answers questions about the heap of the parts of the readers, whose objects are read again for each answer.
fn ask_again<
    R: Source,
    H: ReadAt + Drop,
    S: Scratch + Drop,
    Q: Asker<BufferedDevice<W>>,
    W: Write + Drop,
>(
    alloc: Global,
    readers: &mut [R],
    again: Again<H, S>,
    questions: &mut Q,
    target: &mut BufferedDevice<W>,
) -> Result<(), AskFault>
    requires readers { All (λ reader. R.health reader ≡ Well) readers.old }
    requires again { IsReadyFor R.left H.bytes S.written S.health readers.old again }
    requires asking { Q.health questions.old ≡ Well }
    requires writer { buffered_health target.old ≡ Well }
    requires leave { LetsAskStored R.left Q.left (λ device. writer_contents W.contents (buffered_of device)) is_flushed Q.may_read
        readers.old questions.old (writer_contents W.contents (buffered_of target.old)) }
    ensures asks { AsksReaders R.left R.health R.pulls Q.left Q.health Q.pulls (λ device. writer_contents W.contents (buffered_of device))
        buffered_health readers.old readers.new questions.old questions.new target.old target.new (fault_of_asking result) }
    ensures flushed { PassesAnswersOn (fault_of_asking result) (writer_buffer (buffered_of target.new) ≡ []) }
{
    let Again {
        handles,
        scratch,
        keeping,
    } = again;
    let parts = Handles::new(&handles);
    ask_stored(
        alloc,
        readers,
        &parts,
        Limits::usual(),
        keeping,
        scratch,
        questions,
        target,
    )
}

/// Answers questions about the heap of the parts of the readers. Their objects are gone through again with `again`, if it is there.
fn ask_readers<
    R: Source,
    H: ReadAt + Drop,
    S: Scratch + Drop,
    Q: Asker<BufferedDevice<W>>,
    W: Write + Drop,
>(
    alloc: Global,
    readers: &mut [R],
    again: Option<Again<H, S>>,
    questions: &mut Q,
    target: &mut BufferedDevice<W>,
) -> Result<(), AskFault>
    requires readers { All (λ reader. R.health reader ≡ Well) readers.old }
    requires again { IfSome again (IsReadyFor R.left H.bytes S.written S.health readers.old) }
    requires asking { Q.health questions.old ≡ Well }
    requires writer { buffered_health target.old ≡ Well }
    requires leave { LetsAskReaders R.left Q.left (λ device. writer_contents W.contents (buffered_of device)) is_flushed Q.may_read
        readers.old questions.old (writer_contents W.contents (buffered_of target.old)) }
    ensures asks { AsksReaders R.left R.health R.pulls Q.left Q.health Q.pulls (λ device. writer_contents W.contents (buffered_of device))
        buffered_health readers.old readers.new questions.old questions.new target.old target.new (fault_of_asking result) }
    ensures flushed { PassesAnswersOn (fault_of_asking result) (writer_buffer (buffered_of target.new) ≡ []) }
{
    match again {
        Some(again) => ask_again(alloc, readers, again, questions, target),
        None => ask_in_memory(alloc, readers, questions, target),
    }
}

/// Answers questions about the heap of the parts of the readers into a writer, through a buffer, and gives the writer back. Their objects
/// are gone through again with `again`, if it is there.
fn ask_through_buffer<
    R: Source,
    H: ReadAt + Drop,
    S: Scratch + Drop,
    Q: Asker<BufferedDevice<W>>,
    W: Write + Drop,
>(
    alloc: Global,
    readers: &mut [R],
    again: Option<Again<H, S>>,
    questions: &mut Q,
    writer: W,
) -> Result<W, Stopped<W>>
    requires readers { All (λ reader. R.health reader ≡ Well) readers.old }
    requires again { IfSome again (IsReadyFor R.left H.bytes S.written S.health readers.old) }
    requires asking { Q.health questions.old ≡ Well }
    requires leave { LetsAskReaders R.left Q.left (λ device. writer_contents W.contents (buffered_of device)) is_flushed Q.may_read
        readers.old questions.old (W.contents writer) }
    ensures ok { IfOk result (AnswersAll W.contents writer (OverReaders R.left Q.left readers.old questions.old)) }
    ensures stops { IfErr result (λ stopped. LeavesAnswers W.contents writer (OverReaders R.left Q.left readers.old questions.old)
        (SaysOfReaders R.left R.health R.pulls readers.old readers.new) stopped.why stopped.writer) }
    ensures cause { IfErr result (λ stopped. stopped.why ≡ Refused.Questions → CannotReadOn Q.health Q.pulls questions.new) }
    ensures gone { IfErr result (λ stopped. stopped.writer ≡ None → (readers.new ≡ readers.old) × (questions.new ≡ questions.old)) }
{
    let Ok(buffered) = BufWriter::with_capacity(alloc, BUFFER_LEN, writer) else {
        return Err(Stopped {
            why: Refused::OutOfMemory,
            writer: None,
        });
    };
    let mut target = BufferedDevice::new(buffered);
    let outcome = ask_readers(alloc, readers, again, questions, &mut target);
    // A buffer that is dropped would write once more what it holds, so it is taken apart.
    let (writer, unwritten) = target.into_buffered().into_parts();
    mem::forget(unwritten);
    match outcome {
        Ok(()) => Ok(writer),
        Err(fault) => Err(Stopped {
            why: Refused::from(fault),
            writer: Some(writer),
        }),
    }
}

/// Answers questions about the heap of parts in files, on `output`, which it gives back. All parts are read before the first question is.
/// If their objects do not fit into the memory, they are read again for each answer.
pub(crate) fn ask_files<F: Folder, Q: Asker<BufferedDevice<O>>, O: Write + Drop>(
    alloc: Global,
    files: &F,
    names: &[&str],
    questions: &mut Q,
    output: O,
) -> Result<O, Stopped<O>>
    requires asking { Q.health questions.old ≡ Well }
    // No more of the questions is read before all lines that ended are answered, and the answers were flushed.
    requires leave { (parts : List F.Part) → AreOpened (F.answered files.now) names.now parts
        → LetsAskReaders F.Part.left Q.left (λ device. writer_contents O.contents (buffered_of device)) is_flushed
        Q.may_read parts questions.old (O.contents output) }
    ensures ok { IfOk result (AnswersQuestions (F.answered files.now) F.Part.left Q.left O.contents names.now questions.old output) }
    ensures refused { IfErr result (λ stopped. RefusesQuestions (F.answered files.now) F.Part.left Q.left O.contents names.now
        questions.old output F.Part.health F.Part.pulls stopped.why stopped.writer) }
    ensures cause { IfErr result (λ stopped. stopped.why ≡ Refused.Questions → CannotReadOn Q.health Q.pulls questions.new) }
{
    let mut parts = match open_parts(alloc, files, names) {
        Ok(parts) => parts,
        Err(why) => {
            return Err(Stopped {
                why,
                writer: Some(output),
            });
        }
    };
    let Ok(again) = again_of(alloc, files, &parts, None) else {
        return Err(Stopped {
            why: Refused::OutOfMemory,
            writer: Some(output),
        });
    };
    ask_through_buffer(alloc, &mut parts, again, questions, output)
}
