//! Questions about the heap of parts that are larger than the memory.

ghost use Rattle.std.specs.Prelude.{◌≡◌, All};
ghost use Rattle.hprof_devices.specs.declared.health.Health.TheVariants.{Well};
ghost use Rattle.hprof_runs.specs.ReadBack.{HoldsNothing};
ghost use Rattle.hprof_stored.specs.StoredMaking.{CanBeReadAgain};
ghost use Rattle.hprof_ask.specs.Asks.{PassesAnswersOn, fault_of_asking};
ghost use Rattle.hprof_large.specs.AskingStored.{AsksStored, LetsAskStored};

use crate::cached_answers::CachedAnswers;
use crate::passed_answers::PassedAnswers;
use hprof_ask::AskFault;
use hprof_devices::{Flush, Source};
use hprof_engine::{AllSummaries, Summaries, ToolFault};
use hprof_objects::Keeping;
use hprof_parts::Parts;
use hprof_questions::{Asker, converse};
use hprof_runs::Scratch;
use hprof_stored::laws::stored_objects_are_those_of_the_parts;
use hprof_stored::{Agreed, InParts, StoredHeap, read_stored};
use hprof_stream::Limits;
use std::alloc::Global;

/// Reads all parts, and then answers each line of the questions over the heap that the parts state together, up to the first line that ends
/// the dialogue. Objects stay in the parts or go to scratch, as `keeping` says, and are read again for each answer: `parts` opens the same
/// parts as the readers. An answer that needs a few of them reads those. The texts of reports on the whole heap are kept in memory, and so
/// are the searches and the tree of dominators that reports want.
///
/// All parts are read, and their objects are compared, before the first question is read. All answers so far are flushed before more
/// questions are read, and at the end, also if the questions cannot be read on, if objects are lost or if memory runs out. If memory runs
/// out or the writer fails, the last answer is cut short. If objects are lost, nothing of the last answer was written.
///
/// # Errors
///
/// The first of these that applies is the fault.
///
/// - `Parts`: the parts were refused, they contradict each other, their objects cannot be read again, or the scratch failed. No question
///   was read.
/// - `Dialogue`: the dialogue stopped. `Lost`: a part has changed or cannot be read again, or the scratch failed, at an answer.
pub fn ask_stored<R: Source, S: Scratch + Drop, P: Parts, Q: Asker<W>, W: Flush>(
    alloc: Global,
    readers: &mut [R],
    parts: &P,
    limits: Limits,
    keeping: Keeping,
    scratch: S,
    questions: &mut Q,
    target: &mut W,
) -> Result<(), AskFault>
    requires readers { All (λ reader. R.health reader ≡ Well) readers.old }
    requires nothing { HoldsNothing (S.written scratch) }
    requires scratch { S.health scratch ≡ Well }
    requires again { CanBeReadAgain R.left readers.old (P.bytes parts.now) (S.written scratch) }
    requires asking { Q.health questions.old ≡ Well }
    requires writer { W.health target.old ≡ Well }
    // No more is read before all lines that ended are answered, and the answers were flushed, nor behind a line that ends the dialogue.
    requires leave { LetsAskStored R.left Q.left W.written W.flushed Q.may_read readers.old questions.old (W.written target.old) }
    ensures asks { AsksStored R.left R.health R.pulls Q.left Q.health Q.pulls W.written W.health limits readers.old readers.new
        questions.old questions.new target.old target.new (fault_of_asking result) }
    ensures flushed { PassesAnswersOn (fault_of_asking result) (W.flushed target.new) }
{
    if readers.is_empty() {
        return Err(AskFault::Parts(ToolFault::NoParts));
    }
    stored_objects_are_those_of_the_parts::<R, S, P>();
    let Ok(mut summaries) = AllSummaries.with_room(alloc, readers.len()) else {
        return Err(AskFault::Parts(ToolFault::OutOfMemory));
    };
    let StoredHeap { heap, objects } = match read_stored(
        alloc,
        readers,
        limits,
        keeping,
        scratch,
        &AllSummaries,
        &mut summaries,
    ) {
        Ok(stored) => stored,
        Err(fault) => return Err(AskFault::Parts(ToolFault::from(fault))),
    };
    let objects = objects.finish();
    let objects = InParts::new(&objects, parts, limits);
    // Two contents of one identifier are found before the first question.
    let objects = match Agreed::new(alloc, objects) {
        Ok(agreed) => agreed,
        Err(fault) => return Err(AskFault::Parts(ToolFault::from(fault))),
    };
    let answers = PassedAnswers {
        heap: &heap,
        objects,
        summaries: &summaries,
    };
    let mut kept = CachedAnswers::new(alloc);
    match converse(alloc, &answers, &mut kept, questions, target) {
        Ok(()) => Ok(()),
        Err(stop) => Err(AskFault::Dialogue(stop)),
    }
}
