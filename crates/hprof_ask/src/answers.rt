//! The answers to questions, by reports.

ghost use Rattle.std.specs.Prelude.{◌≡◌, ℕ, List};
ghost use Rattle.std.specs.List.{flat_map};
ghost use Rattle.hprof_devices.specs.declared.health.Health.TheVariants.{Well};
ghost use Rattle.hprof_heap.specs.HeapFacts.{facts_of, size_of};
ghost use Rattle.hprof_lines.specs.Stopping.{LeavesTarget, WritesText};
ghost use Rattle.hprof_ask.specs.HeapAnswers.{IsHeapAnswer, IsReply, IsReportReply, behind_reply, reply_without_report};
ghost use Rattle.hprof_ask.specs.Cache.{IsCacheOf};
ghost use Rattle.hprof_questions.specs.Words.{all_words, follows_text, help_text, usage_line};

use crate::answerer::Answerer;
use crate::cache::Cache;
use hprof_devices::Target;
use hprof_engine::ProductFault;
use hprof_lines::write_str;
use hprof_questions::{Answers, DialogueFault, Follows, Misnamed, Question, Report, ReportWord};
use std::alloc::Global;

/// Returns what stands in help for that which follows a word.
fn follows_text(follows: Follows) -> &'static str
    ensures { result.now ≡ follows_text follows }
{
    match follows {
        Follows::Nothing => "\n",
        Follows::Identifier | Follows::ClassOrObject => " ID\n",
        Follows::ClassOrType => " KIND\n",
    }
}

/// Writes the line of a report in help.
fn write_usage<W: Target>(word: ReportWord, target: &mut W) -> Result<(), ProductFault>
    requires { W.health target.old ≡ Well }
    ensures bytes { WritesText (W.written target.old) (W.written target.new) result (usage_line word) }
    ensures health { LeavesTarget result (W.health target.new) }
{
    let row = word.row();
    write_str(row.word, target)?;
    write_str(follows_text(row.follows), target)
}

/// Writes the line of each report in help.
fn write_usages<W: Target>(target: &mut W) -> Result<(), ProductFault>
    requires { W.health target.old ≡ Well }
    ensures bytes { WritesText (W.written target.old) (W.written target.new) result (flat_map usage_line all_words) }
    ensures health { LeavesTarget result (W.health target.new) }
{
    for word in &ReportWord::ALL {
        write_usage(*word, target)?;
    }
    Ok(())
}

/// Writes the questions that can be asked, one a line.
fn write_help<W: Target>(target: &mut W) -> Result<(), ProductFault>
    requires { W.health target.old ≡ Well }
    ensures bytes { WritesText (W.written target.old) (W.written target.new) result help_text }
    ensures health { LeavesTarget result (W.health target.new) }
{
    write_str("help\n", target)?;
    write_usages(target)?;
    write_str("quit\nexit\n", target)
}

/// Writes the reply to a question for which no report is written: help, or a line. The reply to a question for a report is then that no
/// class has the name that it is on. What stands behind the reply is not written. If it stops, the bytes written are the beginning of the
/// reply.
pub fn write_reply_without_report<W: Target>(
    question: Question<'_>,
    target: &mut W,
) -> Result<(), ProductFault>
    requires { W.health target.old ≡ Well }
    ensures bytes { WritesText (W.written target.old) (W.written target.new) result (reply_without_report question.entry) }
    ensures health { LeavesTarget result (W.health target.new) }
{
    match question {
        Question::Nothing => write_str("", target),
        Question::Help => write_help(target),
        Question::Quit => write_str("", target),
        Question::Report(_) => write_str("no class has this name\n", target),
        Question::Misnamed(Misnamed::NoIdentifier) => write_str("not an identifier\n", target),
        Question::NotUnderstood => write_str("not understood\n", target),
    }
}

/// Returns what stands behind the reply to a question: an empty line, or nothing if the question ends the dialogue.
pub fn behind_reply(question: Question<'_>) -> &'static str
    ensures { result.now ≡ behind_reply question.entry }
{
    match question {
        Question::Quit => "",
        _ => "\n",
    }
}

/// Writes the reply to a question for a report: the report, or that no class has the name that it is on. If it stops, the bytes written are
/// the beginning of the reply.
fn write_report<W: Target>(
    alloc: Global,
    answerer: &Answerer<'_>,
    cache: &mut Cache,
    report: Report<'_>,
    target: &mut W,
) -> Result<(), ProductFault>
    requires well { W.health target.old ≡ Well }
    requires kept { IsCacheOf (size_of answerer.now.heap.now) (facts_of answerer.now.heap.now) cache.old }
    ensures bytes { (text : List ℕ)
        × IsReportReply answerer.now.summaries.now (size_of answerer.now.heap.now) (facts_of answerer.now.heap.now) report.entry text
        × WritesText (W.written target.old) (W.written target.new) result text }
    ensures health { LeavesTarget result (W.health target.new) }
    ensures kept { IsCacheOf (size_of answerer.now.heap.now) (facts_of answerer.now.heap.now) cache.new }
{
    match answerer.write(alloc, cache, report, target) {
        Ok(()) => Ok(()),
        Err(ProductFault::Refused(_)) => write_reply_without_report(
            Question::Report(report),
            target,
        ),
        Err(ProductFault::Write(fault)) => Err(ProductFault::Write(fault)),
        Err(ProductFault::OutOfMemory) => Err(ProductFault::OutOfMemory),
    }
}

/// Writes the reply to a question, without the empty line behind it. If it stops, the bytes written are the beginning of the reply.
fn write_reply<W: Target>(
    alloc: Global,
    answerer: &Answerer<'_>,
    cache: &mut Cache,
    question: Question<'_>,
    target: &mut W,
) -> Result<(), ProductFault>
    requires well { W.health target.old ≡ Well }
    requires kept { IsCacheOf (size_of answerer.now.heap.now) (facts_of answerer.now.heap.now) cache.old }
    ensures bytes { (text : List ℕ)
        × IsReply answerer.now.summaries.now (size_of answerer.now.heap.now) (facts_of answerer.now.heap.now) question.entry text
        × WritesText (W.written target.old) (W.written target.new) result text }
    ensures health { LeavesTarget result (W.health target.new) }
    ensures kept { IsCacheOf (size_of answerer.now.heap.now) (facts_of answerer.now.heap.now) cache.new }
{
    match question {
        Question::Report(report) => write_report(alloc, answerer, cache, report, target),
        _ => write_reply_without_report(question, target),
    }
}

/// Writes the answer to a question: the reply, and an empty line unless the question ends the dialogue. If it stops, the bytes written are
/// the beginning of the answer.
fn write_answer<W: Target>(
    alloc: Global,
    answerer: &Answerer<'_>,
    cache: &mut Cache,
    question: Question<'_>,
    target: &mut W,
) -> Result<(), ProductFault>
    requires well { W.health target.old ≡ Well }
    requires kept { IsCacheOf (size_of answerer.now.heap.now) (facts_of answerer.now.heap.now) cache.old }
    ensures bytes { (text : List ℕ)
        × IsHeapAnswer answerer.now.summaries.now (size_of answerer.now.heap.now) (facts_of answerer.now.heap.now) question.entry text
        × WritesText (W.written target.old) (W.written target.new) result text }
    ensures health { LeavesTarget result (W.health target.new) }
    ensures kept { IsCacheOf (size_of answerer.now.heap.now) (facts_of answerer.now.heap.now) cache.new }
{
    match write_reply(alloc, answerer, cache, question, target) {
        Ok(()) => write_str(behind_reply(question), target),
        Err(stop) => Err(stop),
    }
}

impl<'a> Answers for Answerer<'a> {
    ghost use Rattle.hprof_ask.specs.InMemory.{IsValueOf};
    ghost use Rattle.hprof_ask.specs.OneHeapAnswer.{one_heap_answer};
    ghost use Rattle.hprof_ask.specs.SomeHeapAnswer.{some_heap_answer};

    ghost about = { λ answers. IsValueOf answers.heap.now };

    ghost is_answer = { λ answers heap. IsHeapAnswer answers.summaries.now heap.ids heap.facts };

    // A heap in memory is never lost.
    ghost loses = { λ answers loss. ⊥ };

    ghost keeps = { λ answers cache. IsCacheOf (size_of answers.heap.now) (facts_of answers.heap.now) cache };

    type Cache = Cache;

    fn answer<W: Target>(
        &self,
        alloc: Global,
        cache: &mut Cache,
        question: Question<'_>,
        target: &mut W,
    ) -> Result<(), DialogueFault> {
        match write_answer(alloc, self, cache, question, target) {
            Ok(()) => Ok(()),
            Err(ProductFault::Write(fault)) => Err(DialogueFault::Write(fault)),
            Err(ProductFault::OutOfMemory) => Err(DialogueFault::OutOfMemory),
            // A report that is refused is answered by a line.
            Err(ProductFault::Refused(_)) => unreachable!(),
        }
    }

    ghost some_answer = { λ answers. some_heap_answer answers.summaries.now answers.heap.now };

    ghost one_answer = { λ answers heap is. one_heap_answer answers.summaries.now heap.ids heap.facts };
}
