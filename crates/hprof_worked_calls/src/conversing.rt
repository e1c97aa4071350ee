//! Questions about the heap of parts.

ghost use Rattle.std.specs.Prelude.{◌≡◌, All};
ghost use Rattle.hprof_devices.specs.declared.health.Health.TheVariants.{Well};
ghost use Rattle.hprof_devices.specs.Device.{health_of};

use crate::engine::{Answer, Call, Given, Ways, made_of_heap, plain, text_of_fault};
use crate::outcome::Outcome;
use crate::streams::{Reader, Writer};
use crate::trouble::Trouble;
use hprof_ask::{AskFault, ask_to};
use hprof_devices::Device;
use hprof_engine::ToolFault;
use hprof_histogram::Kind;
use hprof_naming::type_word;
use hprof_questions::{DialogueFault, Kinds, Node, Report, ReportWord};
use hprof_stream::Limits;
use std::alloc::{AllocError, Global};

/// Returns the text of the fault that ended a dialogue.
fn text_of_asking(alloc: Global, fault: AskFault) -> Result<String, AllocError> {
    match fault {
        AskFault::Parts(fault) => text_of_fault(alloc, fault),
        AskFault::Dialogue(DialogueFault::Questions(_)) => String::from_str(alloc, "read failed"),
        AskFault::Dialogue(DialogueFault::Write(fault)) => {
            text_of_fault(alloc, ToolFault::Write(fault))
        }
        AskFault::Dialogue(DialogueFault::Lost(loss)) => {
            text_of_fault(alloc, ToolFault::Lost(loss))
        }
        AskFault::Dialogue(DialogueFault::OutOfMemory) => String::from_str(alloc, "out of memory"),
    }
}

/// Returns the text of a name, which the table gave as text.
fn text_of_name(name: &[u8]) -> &str {
    str::from_utf8(name).unwrap_or("")
}

/// Returns the line that asks for a report.
fn question_of(alloc: Global, report: Report<'_>) -> Result<String, AllocError> {
    match report {
        Report::Heap(report) => {
            let word = ReportWord::Heap(report).row().word;
            format!(in alloc; "{word}\n")
        }
        Report::Kind(report, Kinds::Of(Kind::Class(class))) => {
            let word = ReportWord::Kind(report).row().word;
            format!(in alloc; "{word} {class:x}\n")
        }
        Report::Kind(report, Kinds::Of(Kind::Prim(elem))) => {
            let word = ReportWord::Kind(report).row().word;
            let elem = type_word(elem);
            format!(in alloc; "{word} {elem}[]\n")
        }
        Report::Kind(report, Kinds::Named(name)) => {
            let word = ReportWord::Kind(report).row().word;
            let name = text_of_name(name);
            format!(in alloc; "{word} {name}\n")
        }
        Report::Node(report, Node::Identifier(id)) => {
            let word = ReportWord::Node(report).row().word;
            format!(in alloc; "{word} {id:x}\n")
        }
        Report::Node(report, Node::Named(name)) => {
            let word = ReportWord::Node(report).row().word;
            let name = text_of_name(name);
            format!(in alloc; "{word} {name}\n")
        }
    }
}

/// Returns the pieces, one after the other.
fn joined(alloc: Global, pieces: &[&[u8]]) -> Result<Vec<u8>, AllocError> {
    let mut bytes = Vec::new(alloc);
    for piece in pieces {
        bytes.extend_from_slice(piece)?;
    }
    Ok(bytes)
}

/// Asks for the same as a call, before and after a question that is not understood. Checks that both answers are the call's output, or that
/// the parts are refused as before.
pub fn check_asked(
    alloc: Global,
    call: Call<'_>,
    parts: &[&[u8]],
    ways: Ways,
    whole: &Outcome,
) -> Result<(), Trouble> {
    let Call::Report(report) = call else {
        return Ok(());
    };
    let line = question_of(alloc, report)?;
    // Of that the lines of the case tell.
    if whole.is_out_of_memory() {
        return Ok(());
    }
    let input = joined(alloc, &[line.as_bytes(), b"?\n", line.as_bytes()])?;
    let given = Given {
        parts,
        input: &input,
    };
    let asked = made_of_heap(alloc, Call::Ask, given, ways)?;
    let answer = whole.answer_asked();
    let answers = if answer == "done" {
        let reply = whole.reply_asked();
        joined(alloc, &[reply, b"\nnot understood\n\n", reply, b"\n"])?
    } else {
        Vec::new(alloc)
    };
    asked.check_says(alloc, answer, &answers)
}

/// Returns the answer of a call that answers questions.
pub(crate) fn of_dialogue(
    alloc: Global,
    answer: Result<(), AskFault>,
) -> Result<Answer, AllocError> {
    let text = match answer {
        Ok(()) => String::from_str(alloc, "done")?,
        Err(fault) => text_of_asking(alloc, fault)?,
    };
    Ok(plain(alloc, text))
}

/// Asks the questions of the input, and returns the result of the call.
pub(crate) fn conversed(
    alloc: Global,
    readers: &mut [Device<Reader<'_>>],
    input: Reader<'_>,
    target: &mut Device<Writer>,
    limits: Limits,
) -> Result<Answer, AllocError>
    requires readers { All (λ reader. health_of reader ≡ Well) readers.old }
    requires writer { health_of target.old ≡ Well }
{
    let mut questions = Device::new(input);
    let answer = ask_to(alloc, readers, &mut questions, target, limits);
    of_dialogue(alloc, answer)
}
