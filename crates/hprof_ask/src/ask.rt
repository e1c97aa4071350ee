//! Questions about the heap of parts.

ghost use Rattle.std.specs.Prelude.{◌≡◌, ℕ, List, All, IfOk};
ghost use Rattle.hprof_devices.specs.declared.health.Health.TheVariants.{Well};
ghost use Rattle.hprof_engine.specs.Joining.{Tell, Agree};
ghost use Rattle.hprof_heap.specs.Heap.{heap_of};
ghost use Rattle.hprof_ask.specs.Asks.{Asks, LetsAsk, PassesAnswersOn, fault_of_asking};

use crate::answerer::Answerer;
use crate::ask_fault::AskFault;
use crate::cache::Cache;
use hprof_devices::{Flush, Source};
use hprof_engine::{AllSummaries, Summaries, ToolFault, read_heap};
use hprof_heap::{Gatherer, Heap};
use hprof_questions::{Asker, converse};
use hprof_stream::Limits;
use std::alloc::Global;

/// Does what [`ask_to`] does, and returns the heap: a program that ends need not free it row by row.
pub fn ask_returning_heap<R: Source, Q: Asker<W>, W: Flush>(
    alloc: Global,
    readers: &mut [R],
    questions: &mut Q,
    target: &mut W,
    limits: Limits,
) -> Result<Heap, AskFault>
    requires readers { All (λ reader. R.health reader ≡ Well) readers.old }
    requires asking { Q.health questions.old ≡ Well }
    requires writer { W.health target.old ≡ Well }
    // No more is read before all lines that ended are answered, and the answers were flushed, nor behind a line that ends the dialogue.
    requires leave { LetsAsk R.left Q.left W.written W.flushed Q.may_read readers.old questions.old (W.written target.old) }
    ensures asks { Asks R.left R.health R.pulls Q.left Q.health Q.pulls W.written W.health limits readers.old readers.new
        questions.old questions.new target.old target.new (fault_of_asking result) }
    ensures flushed { PassesAnswersOn (fault_of_asking result) (W.flushed target.new) }

    // What is handed back is of the parts.
    ensures heap { IfOk result (λ found. (parts : List (List ℕ)) → Tell R.left readers.old parts
        → let heap = heap_of found in Agree parts heap.ids heap.millis heap.facts) }
{
    let Ok(mut summaries) = AllSummaries.with_room(alloc, readers.len()) else {
        return Err(AskFault::Parts(ToolFault::OutOfMemory));
    };
    let gatherer = Gatherer::new(alloc);
    let heap = match read_heap(
        alloc,
        readers,
        limits,
        gatherer,
        &AllSummaries,
        &mut summaries,
    ) {
        Ok(heap) => heap,
        Err(fault) => return Err(AskFault::Parts(fault)),
    };
    let answerer = Answerer {
        heap: &heap,
        summaries: &summaries,
    };
    let mut cache = Cache::for_many();
    match converse(alloc, &answerer, &mut cache, questions, target) {
        Ok(()) => Ok(heap),
        Err(stop) => Err(AskFault::Dialogue(stop)),
    }
}

/// Reads all parts, and then answers each line of the questions over the heap that the parts state together, up to the first line that ends
/// the dialogue.
///
/// All parts are read, or refused, before the first question is read. All answers so far are flushed before more questions are read, and
/// at the end, also if the questions cannot be read on or memory runs out. If memory runs out or the writer fails, the last answer is cut
/// short.
pub fn ask_to<R: Source, Q: Asker<W>, W: Flush>(
    alloc: Global,
    readers: &mut [R],
    questions: &mut Q,
    target: &mut W,
    limits: Limits,
) -> Result<(), AskFault>
    requires readers { All (λ reader. R.health reader ≡ Well) readers.old }
    requires asking { Q.health questions.old ≡ Well }
    requires writer { W.health target.old ≡ Well }
    // No more is read before all lines that ended are answered, and the answers were flushed, nor behind a line that ends the dialogue.
    requires leave { LetsAsk R.left Q.left W.written W.flushed Q.may_read readers.old questions.old (W.written target.old) }
    ensures asks { Asks R.left R.health R.pulls Q.left Q.health Q.pulls W.written W.health limits readers.old readers.new
        questions.old questions.new target.old target.new (fault_of_asking result) }
    ensures flushed { PassesAnswersOn (fault_of_asking result) (W.flushed target.new) }
{
    match ask_returning_heap(alloc, readers, questions, target, limits) {
        Ok(_heap) => Ok(()),
        Err(fault) => Err(fault),
    }
}
