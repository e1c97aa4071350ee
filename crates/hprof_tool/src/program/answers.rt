//! The texts of the program beside the dump, and the status that it ends with.

ghost use Rattle.std.specs.Prelude.{◌≡◌, ◌≢◌, Some, None, IfErr, OnOk, MatchResult, codes};
ghost use Rattle.std.specs.IoError.{error_kind};
ghost use Rattle.std.specs.declared.io.ErrorKind.TheVariants.{OutOfMemory};
ghost use Rattle.clap.specs.Values.{kind_of};
ghost use Rattle.hprof_ask.specs.HeapAnswers.{misnamed_text};
ghost use Rattle.hprof_tool.specs.Program.{IsStatusOfWords};
ghost use Rattle.hprof_tool.specs.Telling.{TellsFront, TellsRefusal, told_line};

use crate::program::refused::{Refused, Stopped, WRITE_FAILED};
use crate::program::telling::tell_line;
use crate::status::Status;
use clap::Error;
use clap::error::ErrorKind;
use hprof_questions::Misnamed;
use std::alloc::Global;
use std::io;
use std::io::Write;

/// The end of a task, the stream that it may have written to, which is gone if there was no memory for the buffer before it, and the new
/// file that it wrote, if it wrote one.
#[derive(Drop)]
pub(crate) struct Ended<O, W> {
    pub(crate) status: Status,
    pub(crate) output: Option<O>,
    pub(crate) file: Option<W>,
}

/// The end of a task that writes a new file, and the file, if it was written.
#[derive(Drop)]
pub(crate) struct EndedFile<W> {
    pub(crate) status: Status,
    pub(crate) file: Option<W>,
}

/// Tells in one line why the program refused. If memory runs out for the text, the line says that.
fn tell_refusal<E: Write>(alloc: Global, refused: &Refused, errors: &mut E)
    ensures { TellsRefusal refused.now (E.contents errors.old) (E.contents errors.new) }
{
    match refused.text(alloc) {
        Ok(text) => tell_line(&text, errors),
        Err(_) => tell_line("out of memory", errors),
    }
}

/// Ends a task that was refused, and tells why.
pub(crate) fn refuse<E: Write>(alloc: Global, refused: &Refused, errors: &mut E) -> Status
    ensures status { result ≡ Status.Refused }
    ensures told { TellsRefusal refused.now (E.contents errors.old) (E.contents errors.new) }
{
    tell_refusal(alloc, refused, errors);
    Status::Refused
}

/// Ends a task that writes to a stream.
pub(crate) fn answer_stream<O, W, E: Write>(
    alloc: Global,
    outcome: Result<O, Stopped<O>>,
    errors: &mut E,
) -> Ended<O, W>
    ensures status { MatchResult outcome (λ _. result.status ≡ Status.Done) (λ _. result.status ≡ Status.Refused) }
    ensures output { MatchResult outcome (λ written. result.output ≡ Some written) (λ stopped. result.output ≡ stopped.writer) }
    ensures no_file { result.file ≡ None }
    ensures silent { OnOk outcome (errors.new ≡ errors.old) }
    ensures told { IfErr outcome (λ stopped. TellsRefusal stopped.why (E.contents errors.old) (E.contents errors.new)) }
{
    match outcome {
        Ok(written) => Ended {
            status: Status::Done,
            output: Some(written),
            file: None,
        },
        Err(Stopped { why, writer }) => Ended {
            status: refuse(alloc, &why, errors),
            output: writer,
            file: None,
        },
    }
}

/// Answers words that are not understood, or a request for help.
pub(crate) fn answer_words<O: Write, E: Write>(
    alloc: Global,
    error: &Error,
    output: &mut O,
    errors: &mut E,
) -> Status
    ensures status { IsStatusOfWords (kind_of error.now) result }
    ensures quiet { result ≡ Status.NotUnderstood → output.new ≡ output.old }
{
    if error.kind() == ErrorKind::OutOfMemory {
        return refuse(alloc, &Refused::OutOfMemory, errors);
    }
    if error.use_stderr() {
        let _ = write!(errors, "{error}");
        return Status::NotUnderstood;
    }
    if write!(output, "{error}").is_err() || output.flush().is_err() {
        return refuse(alloc, &WRITE_FAILED, errors);
    }
    Status::Done
}

/// Answers that the words could not be had: they are no text, or memory ran out.
pub(crate) fn answer_no_words<E: Write>(alloc: Global, error: &io::Error, errors: &mut E) -> Status
    ensures memory { error_kind error.now ≡ OutOfMemory → result ≡ Status.Refused }
    ensures no_text { error_kind error.now ≢ OutOfMemory → result ≡ Status.NotUnderstood }
    ensures told { error_kind error.now ≢ OutOfMemory
        → TellsFront (told_line (codes "the words are no text")) (E.contents errors.old) (E.contents errors.new) }
{
    if error.kind() == io::ErrorKind::OutOfMemory {
        return refuse(alloc, &Refused::OutOfMemory, errors);
    }
    tell_line("the words are no text", errors);
    Status::NotUnderstood
}

/// Answers that a text does not follow the word of a report.
pub(crate) fn answer_misnamed<E: Write>(fault: Misnamed, errors: &mut E) -> Status
    ensures status { result ≡ Status.NotUnderstood }
    ensures told { TellsFront (told_line (misnamed_text fault)) (E.contents errors.old) (E.contents errors.new) }
{
    match fault {
        Misnamed::NoIdentifier => tell_line("not an identifier", errors),
    }
    Status::NotUnderstood
}

/// Answers that the text of the option `--memory` is no size.
pub(crate) fn answer_no_size<E: Write>(errors: &mut E) -> Status
    ensures status { result ≡ Status.NotUnderstood }
    ensures told { TellsFront (told_line (codes "not a size")) (E.contents errors.old) (E.contents errors.new) }
{
    tell_line("not a size", errors);
    Status::NotUnderstood
}

/// Answers that a word is none of the commands.
pub(crate) fn answer_no_command<E: Write>(errors: &mut E) -> Status
    ensures status { result ≡ Status.NotUnderstood }
    ensures told { TellsFront (told_line (codes "not a command")) (E.contents errors.old) (E.contents errors.new) }
{
    tell_line("not a command", errors);
    Status::NotUnderstood
}
