//! The program: the task that its words ask for, over files and standard streams that the caller passes.

ghost use Rattle.std.specs.Prelude.{◌≡◌, ◌≢◌, ℕ, List, [], ◌∷◌, Some, None, IfSome};
ghost use Rattle.std.specs.Io.KnownBytes.{Appends};
ghost use Rattle.hprof_devices.specs.declared.health.Health.TheVariants.{Well};
ghost use Rattle.hprof_engine.specs.Makes.{IsDump, IsMadeOf};
ghost use Rattle.hprof_questions.specs.declared.report.Report.{Report};
ghost use Rattle.hprof_questions.specs.declared.subject.Misnamed.{Misnamed};
ghost use Rattle.hprof_questions.specs.Asked.{AsksReport, IsMisnamed};
ghost use Rattle.hprof_ask.specs.HeapAnswers.{misnamed_text};
ghost use Rattle.hprof_ask.specs.Report.{IsReportText};
ghost use Rattle.hprof_tool.specs.Again.{IsReadyFor, report_of_parts};
ghost use Rattle.hprof_tool.specs.Comparing.{ComparesFiles, RefusesDiff};
ghost use Rattle.hprof_tool.specs.Conversing.{AnswersQuestions, HasFailed, RefusesQuestions};
ghost use Rattle.hprof_engine.specs.declared.salvaged.Salvaged.{Salvaged};
ghost use Rattle.hprof_tool.specs.Folder.{MayCreateBehind};
ghost use Rattle.hprof_tool.specs.Program.{IsMadeOfStream, IsMadeInFile, IsMadeOfFiles, IsFilesRefusal};
ghost use Rattle.hprof_tool.specs.SalvagedFiles.{IsSalvagedFile};
ghost use Rattle.hprof_tool.specs.Streams.{RefusesStream, RefusesReport};
ghost use Rattle.hprof_tool.specs.Tasks.{DoesTask, IsMisnamedTask, MayDo, ReadsNothing, RefusesTask, WritesNoFile, new_file_making};
ghost use Rattle.hprof_tool.specs.Telling.{TellsFaults, TellsFront, RefusesSalvage, TellsRefusal, told_line};
ghost use Rattle.hprof_tool.specs.Words.{is_new_file};

use crate::status::Status;
use crate::storage::Storage;
use again::{Again, with_again};
use answers::{
    Ended, EndedFile, answer_misnamed, answer_no_command, answer_no_size, answer_no_words,
    answer_stream, answer_words, refuse,
};
use comparing::compare_files;
use conversing::ask_files;
use folder::Folder;
use hprof_command::{Asked, Misunderstood, NewFile, OutName, Task, asked_of};
use hprof_devices::{Device, Source};
use hprof_engine::{Dump, Dump101};
use hprof_handles::ReadAt;
use hprof_questions::ReportWord;
use hprof_runs::Scratch;
use joining::{join_stream, report_files, write_file};
use made::Made;
use meter::Meter;
use metered::{Clearing, Metered, StandardInput};
use prompting::Prompting;
use refused::Refused;
use salvaging::{Written, salvage_file, tell_faults};
use std::alloc::Global;
use std::env::Args;
use std::io;
use std::io::{Read, Write};
use std::os::unix::fs::FileExt;
use std::rt::{Clock, Files};

mod again;
mod answers;
mod comparing;
mod conversing;
mod folder;
mod joining;
mod made;
mod meter;
mod metered;
mod opening;
mod part_file;
mod prompting;
mod refused;
mod salvaging;
mod scratch_place;
mod telling;
mod writing;

/// Joins the part on `input` to `output`, which it gives back. Its objects are gone through again with `again`, if it is there.
fn join_input<I: Source + Drop, H: ReadAt + Drop, S: Scratch + Drop, O: Write + Drop, W, E: Write>(
    alloc: Global,
    input: I,
    again: Option<Again<H, S>>,
    output: O,
    errors: &mut E,
) -> Ended<O, W>
    requires input { I.health input ≡ Well }
    requires again { IfSome again (IsReadyFor I.left H.bytes S.written S.health (input ∷ [])) }
    ensures done { result.status ≡ Status.Done → (written : O) × (result.output ≡ Some written)
        × IsMadeOfStream IsDump I.left O.contents input output written }
    ensures refused { result.status ≡ Status.Refused → (why : Refused)
        × RefusesStream I.left I.health I.pulls O.contents input output why result.output
        × TellsRefusal why (E.contents errors.old) (E.contents errors.new) }
    ensures silent { result.status ≡ Status.Done → errors.new ≡ errors.old }
    ensures understood { result.status ≢ Status.NotUnderstood }
    ensures no_file { result.file ≡ None }
{
    answer_stream(alloc, join_stream(alloc, input, again, output), errors)
}

/// Writes the product of parts in files to a new file, which it gives back.
fn write_new_file<P: Made, F: Folder, E: Write>(
    alloc: Global,
    files: &F,
    product: &P,
    out: OutName<'_>,
    names: &[&str],
    errors: &mut E,
) -> EndedFile<F::Out>
    requires { MayCreateBehind (F.answered files.now) names.now out.name.now }
    ensures done { result.status ≡ Status.Done → (written : F.Out) × (result.file ≡ Some written)
        × IsMadeInFile (P.making product.now).IsMade (F.answered files.now) F.Part.left F.Out.contents names.now
        out.entry.name.now written }
    ensures refused { result.status ≡ Status.Refused → (result.file ≡ None) × ((why : Refused) × IsFilesRefusal
        (P.making product.now)
        (F.answered files.now) F.Part.left F.Part.health F.Part.pulls names.now out.entry.name.now why
        × TellsRefusal why (E.contents errors.old) (E.contents errors.new)) }
    ensures silent { result.status ≡ Status.Done → errors.new ≡ errors.old }
    ensures understood { result.status ≢ Status.NotUnderstood }
{
    match write_file(alloc, files, product, out, names) {
        Ok(file) => EndedFile {
            status: Status::Done,
            file: Some(file),
        },
        Err(why) => EndedFile {
            status: refuse(alloc, &why, errors),
            file: None,
        },
    }
}

/// Salvages parts in files to a new file, which it gives back, and then tells the faults of the parts on `output`, one a line. If a fault
/// cannot be told, the new file stays: it is whole.
fn salvage<F: Folder, O: Write, E: Write>(
    alloc: Global,
    files: &F,
    out: OutName<'_>,
    names: &[&str],
    output: &mut O,
    errors: &mut E,
) -> EndedFile<F::Out>
    requires { MayCreateBehind (F.answered files.now) names.now out.name.now }
    ensures done { result.status ≡ Status.Done → (salvaged : Salvaged) × ((written : F.Out) × (result.file ≡ Some written)
        × IsSalvagedFile (F.answered files.now) F.Part.left F.Part.health F.Part.pulls F.Out.contents names.now
        out.entry.name.now salvaged written)
        × ((text : List ℕ) × TellsFaults salvaged.faults.items text
        × Appends (O.contents output.old) (O.contents output.new) text) }
    ensures refused { result.status ≡ Status.Refused → (why : Refused) × RefusesSalvage (F.answered files.now) F.Part.left F.Part.health
        F.Part.pulls F.Out.contents names.now out.entry.name.now O.contents result.file output.old output.new why
        × TellsRefusal why (E.contents errors.old) (E.contents errors.new) }
    ensures silent { result.status ≡ Status.Done → errors.new ≡ errors.old }
    ensures understood { result.status ≢ Status.NotUnderstood }
{
    let Written { salvaged, writer } = match salvage_file(alloc, files, out, names) {
        Ok(written) => written,
        Err(why) => {
            return EndedFile {
                status: refuse(alloc, &why, errors),
                file: None,
            };
        }
    };
    match tell_faults(&salvaged.faults, output) {
        Ok(()) => EndedFile {
            status: Status::Done,
            file: Some(writer),
        },
        Err(why) => EndedFile {
            status: refuse(alloc, &why, errors),
            file: Some(writer),
        },
    }
}

/// Writes the report that a word asks for on parts in files to `output`, which it gives back. A text that does not follow the word is told
/// before any part is opened.
fn report<F: Folder, O: Write + Drop, E: Write>(
    alloc: Global,
    files: &F,
    word: ReportWord,
    text: &str,
    names: &[&str],
    output: O,
    errors: &mut E,
) -> Ended<O, F::Out>
    ensures done { result.status ≡ Status.Done → (report : Report) × AsksReport word text.now report
        × ((written : O) × (result.output ≡ Some written) × IsMadeOfFiles (IsMadeOf (IsReportText report)) (F.answered files.now)
        F.Part.left O.contents names.now output written) }
    ensures refused { result.status ≡ Status.Refused → (report : Report) × AsksReport word text.now report
        × ((why : Refused) × RefusesReport (report_of_parts report) (F.answered files.now) F.Part.left F.Part.health F.Part.pulls
        O.contents names.now output why result.output × TellsRefusal why (E.contents errors.old) (E.contents errors.new)) }
    ensures silent { result.status ≡ Status.Done → errors.new ≡ errors.old }
    ensures understood { (report : Report) → AsksReport word text.now report → result.status ≢ Status.NotUnderstood }
    ensures misnamed { (fault : Misnamed) → IsMisnamed word text.now fault
        → (result.status ≡ Status.NotUnderstood) × (result.output ≡ Some output) }
    ensures why { result.status ≡ Status.NotUnderstood → (fault : Misnamed) × IsMisnamed word text.now fault
        × TellsFront (told_line (misnamed_text fault)) (E.contents errors.old) (E.contents errors.new) }
    ensures no_file { result.file ≡ None }
{
    match word.report(text.as_bytes()) {
        Ok(report) => answer_stream(
            alloc,
            report_files(alloc, files, &report, names, output),
            errors,
        ),
        Err(fault) => Ended {
            status: answer_misnamed(fault, errors),
            output: Some(output),
            file: None,
        },
    }
}

/// Writes the dump that is asked for of parts in files to a new file, which it gives back.
fn write_dump<F: Folder, E: Write>(
    alloc: Global,
    files: &F,
    product: NewFile,
    out: OutName<'_>,
    names: &[&str],
    errors: &mut E,
) -> EndedFile<F::Out>
    requires { MayCreateBehind (F.answered files.now) names.now out.name.now }
    ensures done { result.status ≡ Status.Done → (written : F.Out) × (result.file ≡ Some written)
        × IsMadeInFile (IsMadeOf (is_new_file product)) (F.answered files.now) F.Part.left F.Out.contents names.now
        out.entry.name.now written }
    ensures refused { result.status ≡ Status.Refused → (result.file ≡ None) × ((why : Refused) × IsFilesRefusal
        (new_file_making product) (F.answered files.now) F.Part.left F.Part.health F.Part.pulls names.now out.entry.name.now why
        × TellsRefusal why (E.contents errors.old) (E.contents errors.new)) }
    ensures silent { result.status ≡ Status.Done → errors.new ≡ errors.old }
    ensures understood { result.status ≢ Status.NotUnderstood }
{
    match product {
        NewFile::Dump => write_new_file(alloc, files, &Dump, out, names, errors),
        NewFile::Dump101 => write_new_file(alloc, files, &Dump101, out, names, errors),
    }
}

/// Answers questions that come as lines of `input` about the heap of parts in files, on `output`, which it gives back.
fn converse<F: Folder, I: Source + Drop, P: Write + Drop, O: Write + Drop, E: Write>(
    alloc: Global,
    files: &F,
    names: &[&str],
    input: I,
    prompts: Option<P>,
    output: O,
    errors: &mut E,
) -> Ended<O, F::Out>
    requires { I.health input ≡ Well }
    ensures done { result.status ≡ Status.Done → (written : O) × (result.output ≡ Some written)
        × AnswersQuestions (F.answered files.now) F.Part.left I.left O.contents names.now input output written }
    ensures refused { result.status ≡ Status.Refused → (why : Refused) × RefusesQuestions (F.answered files.now) F.Part.left
        I.left O.contents names.now input output F.Part.health F.Part.pulls why result.output
        × HasFailed I.health I.pulls why × TellsRefusal why (E.contents errors.old) (E.contents errors.new) }
    ensures silent { result.status ≡ Status.Done → errors.new ≡ errors.old }
    ensures understood { result.status ≢ Status.NotUnderstood }
    ensures no_file { result.file ≡ None }
{
    let mut questions = Prompting::new(input, prompts);
    answer_stream(
        alloc,
        ask_files(alloc, files, names, &mut questions, output),
        errors,
    )
}

/// Writes the difference of two dumps in files to `output`, which it gives back.
fn compare<F: Folder, O: Write + Drop, E: Write>(
    alloc: Global,
    files: &F,
    older: &str,
    newer: &str,
    output: O,
    errors: &mut E,
) -> Ended<O, F::Out>
    ensures done { result.status ≡ Status.Done → (written : O) × (result.output ≡ Some written)
        × ComparesFiles (F.answered files.now) F.Part.left older.now newer.now O.contents output written }
    ensures refused { result.status ≡ Status.Refused → (why : Refused) × RefusesDiff (F.answered files.now) F.Part.left
        older.now newer.now O.contents output F.Part.health F.Part.pulls why result.output
        × TellsRefusal why (E.contents errors.old) (E.contents errors.new) }
    ensures silent { result.status ≡ Status.Done → errors.new ≡ errors.old }
    ensures understood { result.status ≢ Status.NotUnderstood }
    ensures no_file { result.file ≡ None }
{
    answer_stream(
        alloc,
        compare_files(alloc, files, older, newer, output),
        errors,
    )
}

/// Returns the words as a list.
fn list_of(alloc: Global, words: io::Result<Args>) -> io::Result<Vec<String>> {
    Ok(words?.collect(alloc)?)
}

/// The standard input, and where a person is prompted for questions. They were not touched.
#[derive(Drop)]
struct Unread<I, P> {
    input: I,
    prompts: Option<P>,
}

/// Does what a task asks for. It gives back `output`, unless there was no memory for the buffer before it, and the new file, if it wrote
/// one; and beside them `input` and `prompts`, if the task does not read. With `again`, if it is there, the objects of a part on `input`
/// are gone through again.
fn perform<
    F: Folder,
    I: Source + Drop,
    H: ReadAt + Drop,
    O: Write + Drop,
    E: Write,
    P: Write + Drop,
>(
    alloc: Global,
    files: &F,
    task: Task<'_>,
    input: I,
    again: Option<Again<H, F::Scratch>>,
    mut output: O,
    errors: &mut E,
    prompts: Option<P>,
) -> (Ended<O, F::Out>, Option<Unread<I, P>>)
    requires folder { MayDo (F.answered files.now) task }
    requires input { I.health input ≡ Well }
    requires again { IfSome again (IsReadyFor I.left H.bytes F.Scratch.written F.Scratch.health (input ∷ [])) }
    ensures done { result.0.status ≡ Status.Done → (after : O) × (result.0.output ≡ Some after) × DoesTask (F.answered files.now)
        F.Part.left F.Part.health F.Part.pulls F.Out.contents I.left I.health I.pulls O.contents result.0.file task.entry input output
        after }
    ensures refused { result.0.status ≡ Status.Refused → (why : Refused) × RefusesTask (F.answered files.now)
        F.Part.left F.Part.health F.Part.pulls F.Out.contents I.left I.health I.pulls O.contents result.0.file task.entry input output why
        result.0.output
        × TellsRefusal why (E.contents errors.old) (E.contents errors.new) }
    ensures silent { result.0.status ≡ Status.Done → errors.new ≡ errors.old }
    ensures understood { result.0.status ≡ Status.NotUnderstood → result.0.output ≡ Some output }
    ensures misnamed { result.0.status ≡ Status.NotUnderstood → (fault : Misnamed) × IsMisnamedTask task.entry fault
        × TellsFront (told_line (misnamed_text fault)) (E.contents errors.old) (E.contents errors.new) }
    ensures no_file { WritesNoFile task.entry → result.0.file ≡ None }
    ensures unread { ReadsNothing task.entry → result.1 ≡ Some (record { input = input; prompts = prompts }) }
{
    match task {
        Task::JoinInput => (join_input(alloc, input, again, output, errors), None),
        Task::Write {
            product,
            out,
            parts,
        } => {
            let EndedFile { status, file } = write_dump(alloc, files, product, out, &parts, errors);
            let output = Some(output);
            (
                Ended {
                    status,
                    output,
                    file,
                },
                Some(Unread { input, prompts }),
            )
        }
        Task::Salvage { out, parts } => {
            let EndedFile { status, file } = salvage(
                alloc,
                files,
                out,
                &parts,
                &mut output,
                errors,
            );
            let output = Some(output);
            (
                Ended {
                    status,
                    output,
                    file,
                },
                Some(Unread { input, prompts }),
            )
        }
        Task::Report { word, text, parts } => {
            let ended = report(alloc, files, word, text, &parts, output, errors);
            (ended, Some(Unread { input, prompts }))
        }
        Task::Compare { older, newer } => {
            let ended = compare(alloc, files, older, newer, output, errors);
            (ended, Some(Unread { input, prompts }))
        }
        Task::Ask { parts } => (
            converse(alloc, files, &parts, input, prompts, output, errors),
            None,
        ),
    }
}

/// Does what a task asks for, with a progress meter on the terminal, if there is one. The meter's line goes before anything else is
/// written.
fn perform_metered<S: Files + Clock, I: Read + Drop, O: Write + Drop, E: Write, P: Write + Drop>(
    alloc: Global,
    system: &S,
    storage: Storage<'_>,
    task: Task<'_>,
    input: I,
    output: O,
    errors: &mut E,
    prompts: Option<P>,
    terminal: Option<P>,
) -> Status
where
    S::File: FileExt,
{
    let meter = Meter::new(terminal);
    let files = Metered {
        alloc,
        system,
        meter: &meter,
        storage,
    };
    let output = Clearing {
        meter: &meter,
        writer: output,
    };
    let mut errors = Clearing {
        meter: &meter,
        writer: errors,
    };
    let prompts = prompts.map(|writer| Clearing {
        meter: &meter,
        writer,
    });
    let input = StandardInput {
        device: Device::new(input),
    };
    let (input, again) = with_again(alloc, &files, input);
    let (ended, _) = perform(
        alloc,
        &files,
        task,
        input,
        again,
        output,
        &mut errors,
        prompts,
    );
    meter.clear();
    ended.status
}

/// Does what the words ask for. Refusals are told on `errors`.
///
/// - Without a word behind the program's name, it joins the part on `input` to `output`.
/// - `join OUT PART..` and `join101 OUT PART..` join parts in files to a new file.
/// - `salvage OUT PART..` salvages parts in files to a new file, and tells their faults on `output`.
/// - `check PART..`, `histo PART..`, `classes PART..`, `objects KIND PART..`, `object ID PART..`, `path ID PART..`, `refs ID PART..`,
///   `text ID PART..` and `why ID PART..` write a report on parts in files to `output`.
/// - `diff OLD NEW` writes a report on two dumps in files to `output`.
/// - `ask PART..` reads parts in files, and answers on `output` the questions that come as lines on `input`. It prompts for each line on
///   `prompts`, if there are prompts.
///
/// `storage` says how many bytes of objects may be in memory, and where more of them go. The option `--memory SIZE` of a command gives
/// another number of bytes.
///
/// While parts in files are read, a line on `terminal`, if there is one, says how much of them was read.
pub fn run<S: Files + Clock, I: Read + Drop, O: Write + Drop, E: Write, P: Write + Drop>(
    alloc: Global,
    system: &S,
    storage: Storage<'_>,
    words: io::Result<Args>,
    input: I,
    mut output: O,
    errors: &mut E,
    prompts: Option<P>,
    terminal: Option<P>,
) -> Status
where
    S::File: FileExt,
{
    let words = match list_of(alloc, words) {
        Ok(words) => words,
        Err(error) => return answer_no_words(alloc, &error, errors),
    };
    match asked_of(alloc, &words) {
        Ok(Asked { task, memory }) => perform_metered(
            alloc,
            system,
            storage.with_memory(memory),
            task,
            input,
            output,
            errors,
            prompts,
            terminal,
        ),
        Err(Misunderstood::Words(error)) => answer_words(alloc, &error, &mut output, errors),
        Err(Misunderstood::NoCommand) => answer_no_command(errors),
        Err(Misunderstood::NoSize) => answer_no_size(errors),
    }
}
