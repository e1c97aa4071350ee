//! Questions that are taken line by line, and answered.

ghost use Rattle.std.specs.Prelude.{◌≡◌, ◌++◌, ◌∷◌, [], ◌<◌, ◌≤◌, ◌+◌, ◌-◌, ℕ, List, Option, take, length, vec_capacity};
ghost use Rattle.std.specs.Prelude.{◌⊎◌, Err, IfErr, OnOk};
ghost use Rattle.std.specs.Io.KnownBytes.{Keeps};
ghost use Rattle.hprof_devices.specs.declared.health.Health.TheVariants.{Well, Failed};
ghost use Rattle.hprof_rows.specs.HeapValue.{HeapValue};
ghost use Rattle.hprof_questions.specs.Answering.{EndsAtQuit, IsOfWriter, LeavesWriter, PassesOn, TakesQuestion, TellsLoss, WritesAnswer};
ghost use Rattle.hprof_questions.specs.Dialogue.{AnswersDialogue, EndsDialogue, Finishes, GoesOver, Heard, LetsReadOnAbout, TakesLines};
ghost use Rattle.hprof_questions.specs.Dialogue.{TakesOn};

use crate::asker::Asker;
use crate::dialogue_fault::DialogueFault;
use crate::question::{Question, ended_question, last_question};
use hprof_devices::{Flush, ReadFault, Target};
use std::alloc::Global;

/// The number of bytes that are pulled at a time.
const PIECE_LEN: usize = 4096;

/// The number of bytes of a line that are kept. The longest line that is understood has one fewer, with a return behind it.
const KEPT: usize = 4098;

/// Whether a dialogue goes on.
#[derive(Clone, Copy, Debug, PartialEq, Eq)]
pub(crate) enum Course {
    /// It goes on.
    Open,
    /// A line ended it.
    Ended,
}

/// A type that answers questions about a heap.
///
/// The heap may be one whose objects are read again for each answer. Then an answer may stop because they are lost, and the heap is known
/// only if the bytes of its parts are.
pub trait Answers {
    ghost use Rattle.hprof_devices.specs.declared.health.Health.TheVariants.{Well};
    ghost use Rattle.hprof_engine.specs.declared.loss.Loss.{Loss};
    ghost use Rattle.hprof_questions.specs.declared.question.Question.{Question};
    ghost use Rattle.hprof_questions.specs.Same.{IsSame};
    ghost use Rattle.hprof_rows.specs.HeapValue.{HeapValue};

    // The answers may be about that heap. It need not be known which one it is: if the bytes of the parts are not known, there may be
    // several such heaps, or none. So all that is said of answers is said for each heap that they may be about.
    ghost about: { Self → HeapValue → Type 0 };

    // The text is the answer to that question about that heap.
    ghost is_answer: { Self → HeapValue → Question → List ℕ → Type 0 };

    // What the answers are about cannot be read again, for that reason.
    ghost loses: { Self → Loss → Type 0 };

    // What is kept between questions is of this. It is no part of any answer.
    ghost keeps: { Self → Self.Cache → Type 0 };

    /// The state that is kept between questions.
    type Cache;

    /// Writes the answer to a question. If it stops, at a fault or because memory runs out, some of the answer was written, from the front.
    /// If it stops because what it is about is lost, nothing of it was written.
    fn answer<W: Target>(
        &self,
        alloc: Global,
        cache: &mut Self::Cache,
        question: Question<'_>,
        target: &mut W,
    ) -> Result<(), DialogueFault>
        requires well { W.health target.old ≡ Well }
        requires kept { keeps self.now cache.old }
        ensures bytes { (heap : HeapValue) → about self.now heap → (text : List ℕ) × is_answer self.now heap question.entry text
            × WritesAnswer (W.written target.old) (W.written target.new) result text }
        ensures health { LeavesWriter result (W.health target.new) }
        ensures lost { TellsLoss (loses self.now) result }
        ensures kept { keeps self.now cache.new };

    // A question has an answer about each heap.
    ghost some_answer: { (answers : Self) (heap : HeapValue) → about answers heap → (question : Question)
        → (text : List ℕ) × is_answer answers heap question text };

    // And no other about that heap, wherever the bytes of a name lie.
    ghost one_answer: { (answers : Self) (heap : HeapValue) → about answers heap → (question same : Question) (one other : List ℕ)
        → IsSame question same → is_answer answers heap question one → is_answer answers heap same other → one ≡ other };
}

/// Keeps one more byte of a line, if there is room for it.
fn keep(line: &mut Vec<u8>, byte: u8)
    requires { KEPT ≤ vec_capacity line.old }
    ensures kept { (rest : List ℕ) → line.old.items ≡ take 4098 rest → line.new.items ≡ take 4098 (rest ++ byte ∷ []) }
    ensures room { KEPT ≤ vec_capacity line.new }
{
    if line.len() < KEPT {
        line.push_reserved(byte);
    }
}

/// Answers a question, unless it ends the dialogue. Returns whether the dialogue goes on.
fn take_question<A: Answers, W: Target>(
    alloc: Global,
    answers: &A,
    cache: &mut A::Cache,
    question: Question<'_>,
    target: &mut W,
) -> Result<Course, DialogueFault>
    requires well { W.health target.old ≡ Well }
    requires kept { A.keeps answers.now cache.old }
    ensures takes { (heap : HeapValue) → A.about answers.now heap
        → TakesQuestion (A.is_answer answers.now heap) question.entry (W.written target.old) (W.written target.new) result }
    ensures ends { EndsAtQuit question.entry result }
    ensures health { LeavesWriter result (W.health target.new) }
    ensures lost { TellsLoss (A.loses answers.now) result }
    ensures kept { A.keeps answers.now cache.new }
{
    match question {
        Question::Quit => Ok(Course::Ended),
        _ => {
            answers.answer(alloc, cache, question, target)?;
            Ok(Course::Open)
        }
    }
}

/// Goes over a piece of the questions: answers each line that ends in it, up to one that ends the dialogue, and keeps the first bytes
/// behind the last one. Returns whether the dialogue goes on.
fn go_over<A: Answers, W: Target>(
    alloc: Global,
    answers: &A,
    cache: &mut A::Cache,
    piece: &[u8],
    line: &mut Vec<u8>,
    target: &mut W,
) -> Result<Course, DialogueFault>
    requires well { W.health target.old ≡ Well }
    requires kept { A.keeps answers.now cache.old }
    requires room { KEPT ≤ vec_capacity line.old }
    ensures bytes { (heap : HeapValue) → A.about answers.now heap → (bytes : List ℕ) (start : Option (List ℕ))
        → Heard (A.is_answer answers.now heap) bytes start (W.written target.old) line.old.items
        → GoesOver (A.is_answer answers.now heap) (bytes ++ piece.now) start (W.written target.new) line.new.items result }
    ensures takes { (bytes : List ℕ) → TakesLines bytes line.old.items → TakesOn (bytes ++ piece.now) line.new.items result }
    ensures health { LeavesWriter result (W.health target.new) }
    ensures lost { TellsLoss (A.loses answers.now) result }
    ensures kept { A.keeps answers.now cache.new }
    ensures room { KEPT ≤ vec_capacity line.new }
{
    for byte in piece {
        if *byte == b'\n' {
            let question = ended_question(line);
            if let Course::Ended = take_question(alloc, answers, cache, question, target)? {
                return Ok(Course::Ended);
            }
            line.clear();
        } else {
            keep(line, *byte);
        }
    }
    Ok(Course::Open)
}

/// Passes on all bytes that were written.
fn flush_all<W: Flush>(target: &mut W) -> Result<(), DialogueFault>
    requires { W.health target.old ≡ Well }
    ensures bytes { Keeps (W.written target.old) (W.written target.new) }
    ensures flushed { OnOk result (W.flushed target.new) }
    ensures passes { PassesOn result (W.flushed target.new) }
    ensures health { LeavesWriter result (W.health target.new) }
    ensures writer { IfErr result IsOfWriter }
{
    match target.flush() {
        Ok(()) => Ok(()),
        Err(fault) => Err(DialogueFault::Write(fault)),
    }
}

/// Passes on all bytes that were written before a stop, unless the writer has failed. Returns why it stops now.
fn pass_on<W: Flush>(stop: DialogueFault, target: &mut W) -> DialogueFault
    requires { LeavesWriter {A = Unit {0}} (Err stop) (W.health target.old) }
    ensures bytes { Keeps (W.written target.old) (W.written target.new) }
    ensures passes { PassesOn {A = Unit {0}} (Err result) (W.flushed target.new) }
    ensures health { LeavesWriter {A = Unit {0}} (Err result) (W.health target.new) }
    ensures stop { (result ≡ stop) ⊎ IsOfWriter result }
{
    if let DialogueFault::Write(fault) = stop {
        return DialogueFault::Write(fault);
    }
    match flush_all(target) {
        Ok(()) => stop,
        Err(failed) => failed,
    }
}

/// Answers the bytes behind the last line feed, if there are some.
fn answer_last<A: Answers, W: Target>(
    alloc: Global,
    answers: &A,
    cache: &mut A::Cache,
    line: &[u8],
    target: &mut W,
) -> Result<(), DialogueFault>
    requires well { W.health target.old ≡ Well }
    requires kept { A.keeps answers.now cache.old }
    ensures bytes { (heap : HeapValue) → A.about answers.now heap → (bytes : List ℕ) (start : Option (List ℕ))
        → Heard (A.is_answer answers.now heap) bytes start (W.written target.old) line.now
        → Finishes (A.is_answer answers.now heap) bytes start (W.written target.new) result }
    ensures health { LeavesWriter result (W.health target.new) }
    ensures lost { TellsLoss (A.loses answers.now) result }
    ensures kept { A.keeps answers.now cache.new }
{
    if line.is_empty() {
        return Ok(());
    }
    take_question(alloc, answers, cache, last_question(line), target)?;
    Ok(())
}

/// Answers the bytes behind the last line feed, if there are some, and passes all on.
fn finish<A: Answers, W: Flush>(
    alloc: Global,
    answers: &A,
    cache: &mut A::Cache,
    line: &[u8],
    target: &mut W,
) -> Result<(), DialogueFault>
    requires well { W.health target.old ≡ Well }
    requires kept { A.keeps answers.now cache.old }
    ensures bytes { (heap : HeapValue) → A.about answers.now heap → (bytes : List ℕ) (start : Option (List ℕ))
        → Heard (A.is_answer answers.now heap) bytes start (W.written target.old) line.now
        → Finishes (A.is_answer answers.now heap) bytes start (W.written target.new) result }
    ensures health { LeavesWriter result (W.health target.new) }
    ensures lost { TellsLoss (A.loses answers.now) result }
    ensures flushed { PassesOn result (W.flushed target.new) }
    ensures kept { A.keeps answers.now cache.new }
{
    if let Err(stop) = answer_last(alloc, answers, cache, line, target) {
        return Err(pass_on(stop, target));
    }
    flush_all(target)
}

/// Does what [`converse`] does, with room for a piece of the questions and for a line.
fn take_lines<A: Answers, Q: Asker<W>, W: Flush>(
    alloc: Global,
    answers: &A,
    cache: &mut A::Cache,
    questions: &mut Q,
    piece: &mut [u8],
    line: &mut Vec<u8>,
    target: &mut W,
) -> Result<(), DialogueFault>
    requires asking { Q.health questions.old ≡ Well }
    requires well { W.health target.old ≡ Well }
    requires kept { A.keeps answers.now cache.old }
    requires leave { LetsReadOnAbout (A.about answers.now) (A.is_answer answers.now) Q.left W.written W.flushed Q.may_read questions.old
        (W.written target.old) }
    requires some { 0 < length piece.old }
    requires empty { line.old.items ≡ [] }
    requires room { KEPT ≤ vec_capacity line.old }
    ensures dialogue { (heap : HeapValue) → A.about answers.now heap
        → AnswersDialogue (A.is_answer answers.now heap) Q.left Q.health Q.pulls W.written W.health questions.old questions.new
        target.old target.new result }
    ensures ends { EndsDialogue Q.left Q.health Q.pulls W.health questions.old questions.new target.new result }
    ensures flushed { PassesOn result (W.flushed target.new) }
    ensures lost { TellsLoss (A.loses answers.now) result }
    ensures kept { A.keeps answers.now cache.new }
{
    'turns: for _turn in 0..u64::MAX {
        if let Err(stop) = flush_all(target) {
            return Err(stop);
        }
        let count = match questions.read_on(piece, target) {
            Ok(count) => count,
            Err(fault) => return Err(DialogueFault::Questions(fault)),
        };
        if count == 0 {
            return finish(alloc, answers, cache, line, target);
        }
        match go_over(alloc, answers, cache, &piece[..count], line, target) {
            Ok(Course::Open) => {}
            Ok(Course::Ended) => return flush_all(target),
            Err(stop) => return Err(pass_on(stop, target)),
        }
    }
    // So often no source is pulled.
    match flush_all(target) {
        Ok(()) => Err(DialogueFault::Questions(ReadFault::Failed)),
        Err(stop) => Err(stop),
    }
}

/// Takes the lines of the questions and answers each, until there are no more or a line ends the dialogue. What stands behind that line is
/// not answered, and no more is read. All answers so far are flushed before more is read, and at the end, also if memory runs out, if what
/// the answers are about is lost or if the questions cannot be read on. Of a line no more than its first bytes are kept.
pub fn converse<A: Answers, Q: Asker<W>, W: Flush>(
    alloc: Global,
    answers: &A,
    cache: &mut A::Cache,
    questions: &mut Q,
    target: &mut W,
) -> Result<(), DialogueFault>
    requires asking { Q.health questions.old ≡ Well }
    requires well { W.health target.old ≡ Well }
    requires kept { A.keeps answers.now cache.old }
    // No more is read before all lines that ended are answered, and the answers were flushed, nor behind a line that ends the dialogue.
    requires leave { LetsReadOnAbout (A.about answers.now) (A.is_answer answers.now) Q.left W.written W.flushed Q.may_read questions.old
        (W.written target.old) }
    ensures dialogue { (heap : HeapValue) → A.about answers.now heap
        → AnswersDialogue (A.is_answer answers.now heap) Q.left Q.health Q.pulls W.written W.health questions.old questions.new
        target.old target.new result }
    ensures ends { EndsDialogue Q.left Q.health Q.pulls W.health questions.old questions.new target.new result }
    ensures flushed { PassesOn result (W.flushed target.new) }
    ensures lost { TellsLoss (A.loses answers.now) result }
    ensures kept { A.keeps answers.now cache.new }
{
    let Ok(mut piece) = vec![in alloc; 0u8; PIECE_LEN] else {
        return Err(pass_on(DialogueFault::OutOfMemory, target));
    };
    let Ok(mut line) = Vec::with_capacity(alloc, KEPT) else {
        return Err(pass_on(DialogueFault::OutOfMemory, target));
    };
    take_lines(
        alloc, answers, cache, questions, &mut piece, &mut line, target,
    )
}
