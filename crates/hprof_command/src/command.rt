//! The words of the command line.

ghost use Rattle.std.specs.Prelude.{◌≡◌, ◌<◌, ◌^◌, ℕ, [], ◌∷◌, false, map, MatchResult, IfOk, string_bytes, codes};
ghost use Rattle.clap.specs.Words.{app_of, found_of, rows_of, rule_of, shape_of, subcommand_rows_of, with_subcommand};
ghost use Rattle.hprof_questions.specs.Words.{follows_of};
ghost use Rattle.hprof_scratch.specs.Size.{IsSize};
ghost use Rattle.hprof_command.specs.CommandLine.{IsAskedByWords, IsMisunderstanding, command_line, memory_rule, parts_rule, required_rule};
ghost use Rattle.hprof_command.specs.CommandLine.{rules_if, shape_of_row, with_rules};
ghost use Rattle.hprof_command.specs.Commands.{ArePartsIn, AsksFor, AsksForNothing, IsAsked, IsMemory, IsNoSize, IsUnmatched, command_word};
ghost use Rattle.hprof_command.specs.Commands.{memory_in, subject_in, text_in};

use clap::{Arg, ArgAction, ArgMatches, Command, Error};
use hprof_questions::{Follows, ReportWord};
use hprof_scratch::parse_size;
use std::alloc::{AllocError, Global};
use subcommands::{Argument, COMMANDS, CommandRow, CommandWord};

mod help;
mod subcommands;

/// What the words ask for.
#[derive(Drop)]
pub struct Asked<'a> {
    /// The task.
    pub task: Task<'a>,
    /// The number of bytes that objects may take in memory, if the words say it.
    pub memory: Option<u64>,
}

/// The task that the words ask for.
#[derive(Drop)]
pub enum Task<'a> {
    /// To join the part on standard input, to standard output.
    JoinInput,
    /// To write a dump of the parts in files to a new file.
    Write {
        /// The dump to write.
        product: NewFile,
        /// The name of the new file.
        out: OutName<'a>,
        /// The names of the parts, in order.
        parts: Vec<&'a str>,
    },
    /// To salvage the parts in files, to a new file.
    Salvage {
        /// The name of the new file.
        out: OutName<'a>,
        /// The names of the parts, in order.
        parts: Vec<&'a str>,
    },
    /// To write a report on the parts in files.
    Report {
        /// The report.
        word: ReportWord,
        /// The text that says what it is about; empty if nothing follows the word.
        text: &'a str,
        /// The names of the parts, in order.
        parts: Vec<&'a str>,
    },
    /// To report what grew from one dump to another.
    Compare {
        /// The name of the older dump.
        older: &'a str,
        /// The name of the newer dump.
        newer: &'a str,
    },
    /// To answer questions on standard input about the heap of the parts in files.
    Ask {
        /// The names of the parts, in order.
        parts: Vec<&'a str>,
    },
}

/// The name of the one new file that a task may create. The command line alone makes it, it cannot be copied, and creating the file uses it
/// up.
#[derive(Drop)]
pub struct OutName<'a> {
    name: &'a str,
}

impl<'a> OutName<'a> {
    /// Returns the name.
    pub fn as_str(&self) -> &'a str
        ensures { result.now ≡ self.now.name.now }
    {
        self.name
    }
}

/// The dump that is written to a new file.
#[derive(Clone, Copy, Debug, PartialEq, Eq)]
pub enum NewFile {
    /// The canonical dump.
    Dump,
    /// The 1.0.1 dump.
    Dump101,
}

/// The reason why words ask for no task.
#[derive(Drop)]
pub enum Misunderstood {
    /// They are not understood, or ask for help.
    Words(Error),
    /// The first of them is none of the commands.
    NoCommand,
    /// The text of the option `--memory` is no size.
    NoSize,
}

impl From<Error> for Misunderstood {
    ghost use Rattle.std.specs.Prelude.{◌≡◌};
    ghost use Rattle.hprof_command.specs.declared.command.Misunderstood.TheVariants.{Words};

    ghost from_gives = { λ error why. why ≡ Words error };

    fn from(error: Error) -> Misunderstood {
        Misunderstood::Words(error)
    }
}

impl From<AllocError> for Misunderstood {
    ghost use Rattle.std.specs.Prelude.{◌≡◌};
    ghost use Rattle.clap.specs.declared.error.ErrorKind.TheVariants.{OutOfMemory};
    ghost use Rattle.clap.specs.Values.{kind_of};
    ghost use Rattle.hprof_command.specs.declared.command.Misunderstood.TheVariants.{Words};

    ghost from_gives = { λ _ why. (error : _) × (why ≡ Words error) × (kind_of error ≡ OutOfMemory) };

    fn from(error: AllocError) -> Misunderstood {
        Misunderstood::Words(Error::from(error))
    }
}

/// Returns the argument for the names of the parts, any number of them.
fn parts_arg<'a>(alloc: Global) -> Arg<'a>
    ensures rule { rule_of result ≡ parts_rule }
    ensures local { result.global ≡ false }
{
    Arg::new(alloc, "part")
        .value_name("PART")
        .help("The dump, or the parts that together hold one heap")
        .num_args(0..)
        .action(ArgAction::Append)
}

/// Returns the option for the number of bytes that objects may take in memory.
fn memory_arg<'a>(alloc: Global) -> Arg<'a>
    ensures rule { rule_of result ≡ memory_rule }
    ensures local { result.global ≡ false }
{
    Arg::new(alloc, "memory")
        .long("memory")
        .value_name("SIZE")
        .help("The memory that objects may take, as 512M or 4G")
        .action(ArgAction::Set)
}

/// Returns an argument that a command must be given.
fn required_arg<'a>(alloc: Global, argument: Argument) -> Arg<'a>
    ensures rule { rule_of result ≡ required_rule argument.name.now }
    ensures local { result.global ≡ false }
{
    Arg::new(alloc, argument.name)
        .value_name(argument.value_name)
        .help(argument.help)
        .required(true)
        .action(ArgAction::Set)
}

/// Adds arguments that a command must be given.
fn with_required<'a>(
    alloc: Global,
    command: Command<'a>,
    arguments: &[Argument],
) -> Result<Command<'a>, AllocError>
    ensures { IfOk result (λ command_then. app_of command_then
        ≡ with_rules (app_of command.entry) (map (λ argument. required_rule argument.name.now) arguments.now)) }
{
    let mut command = command;
    for argument in arguments {
        command = command.arg(required_arg(alloc, *argument))?;
    }
    Ok(command)
}

/// Adds the names of the parts to a command, if it takes them.
fn with_parts<'a>(
    alloc: Global,
    command: Command<'a>,
    takes_parts: bool,
) -> Result<Command<'a>, AllocError>
    ensures { IfOk result (λ command_then. app_of command_then ≡ with_rules (app_of command.entry) (rules_if takes_parts parts_rule)) }
{
    if takes_parts {
        return command.arg(parts_arg(alloc));
    }
    Ok(command)
}

/// Adds the option for the memory to a command.
fn with_memory<'a>(alloc: Global, command: Command<'a>) -> Result<Command<'a>, AllocError>
    ensures { IfOk result (λ command_then. app_of command_then ≡ with_rules (app_of command.entry) (memory_rule ∷ [])) }
{
    command.arg(memory_arg(alloc))
}

/// Returns a command of the program.
fn subcommand<'a>(alloc: Global, row: &CommandRow) -> Result<Command<'a>, AllocError>
    ensures { IfOk result (λ command. shape_of command ≡ shape_of_row row.now) }
{
    let command = Command::new(alloc, row.word)
        .about(row.about)
        .after_help(row.help);
    let command = with_required(alloc, command, row.arguments)?;
    let command = with_parts(alloc, command, row.takes_parts)?;
    with_memory(alloc, command)
}

/// Adds a command to the program.
fn with_subcommand<'a>(
    alloc: Global,
    program: Command<'a>,
    row: &CommandRow,
) -> Result<Command<'a>, AllocError>
    ensures { IfOk result (λ program_then. app_of program_then ≡ with_subcommand (app_of program.entry) (shape_of_row row.now)) }
{
    program.subcommand(subcommand(alloc, row)?)
}

/// Returns the program's command line.
fn command<'a>(alloc: Global) -> Result<Command<'a>, AllocError>
    ensures { IfOk result (λ command. app_of command ≡ command_line) }
{
    let mut program = Command::new(alloc, "hprof")
        .version(help::VERSION)
        .about("Reads Java heap dumps, answers questions about them, and joins them")
        .after_help(help::PROGRAM);
    for command in &COMMANDS {
        program = with_subcommand(alloc, program, &command.row())?;
    }
    Ok(program)
}

/// Returns the names of the parts that were given to a command.
fn parts_of<'a>(alloc: Global, words: &ArgMatches<'a>) -> Result<Vec<&'a str>, AllocError>
    ensures { IfOk result (λ parts. ArePartsIn (rows_of (found_of words.now)) parts.items) }
{
    let mut parts = Vec::new(alloc);
    parts.extend_from_slice(words.get_strs("part").unwrap_or(&[]))?;
    Ok(parts)
}

/// Returns the value of an argument. If a command must be given it, clap refuses words without it.
fn value_of<'a>(words: &ArgMatches<'a>, argument: &str) -> &'a str
    ensures { result.now ≡ text_in argument.now (rows_of (found_of words.now)) }
{
    words.get_str(argument).unwrap_or("")
}

/// Returns the number of bytes of a size.
fn size_of(text: &str) -> Result<u64, Misunderstood>
    ensures { MatchResult result (λ bytes. IsSize text.now bytes)
        (λ why. (why ≡ Misunderstood.NoSize) × ((bytes : ℕ) → bytes < 2 ^ 64 → ¬ (IsSize text.now bytes))) }
{
    match parse_size(text) {
        Some(bytes) => Ok(bytes),
        None => Err(Misunderstood::NoSize),
    }
}

/// Returns the number of bytes that objects may take in memory, or `None` if the words do not say it.
fn memory_of(words: &ArgMatches<'_>) -> Result<Option<u64>, Misunderstood>
    ensures { MatchResult result (IsMemory (memory_in (rows_of (found_of words.now))))
        (λ why. (why ≡ Misunderstood.NoSize) × IsNoSize (memory_in (rows_of (found_of words.now)))) }
{
    match words.get_str("memory") {
        Some(text) => match size_of(text) {
            Ok(bytes) => Ok(Some(bytes)),
            Err(why) => Err(why),
        },
        None => Ok(None),
    }
}

/// Returns the name of the new file.
fn out_of<'a>(words: &ArgMatches<'a>) -> OutName<'a>
    ensures { result.name.now ≡ text_in (codes "out") (rows_of (found_of words.now)) }
{
    OutName {
        name: value_of(words, "out"),
    }
}

/// Returns the text that says what a report is about.
fn subject_of<'a>(words: &ArgMatches<'a>, report: ReportWord) -> &'a str
    ensures { result.now ≡ subject_in (follows_of report) (rows_of (found_of words.now)) }
{
    match report.row().follows {
        Follows::Nothing => "",
        Follows::Identifier | Follows::ClassOrObject => value_of(words, "id"),
        Follows::ClassOrType => value_of(words, "kind"),
    }
}

/// Returns the task of a command that was given these words.
fn task_of_command<'a>(
    alloc: Global,
    command: CommandWord,
    words: &ArgMatches<'a>,
) -> Result<Task<'a>, AllocError>
    ensures { IfOk result (AsksFor (command_word command) (rows_of (found_of words.now))) }
{
    let parts = parts_of(alloc, words)?;
    Ok(match command {
        CommandWord::Write(product) => Task::Write {
            product,
            out: out_of(words),
            parts,
        },
        CommandWord::Salvage => Task::Salvage {
            out: out_of(words),
            parts,
        },
        CommandWord::Report(word) => Task::Report {
            word,
            text: subject_of(words, word),
            parts,
        },
        CommandWord::Compare => Task::Compare {
            older: value_of(words, "older"),
            newer: value_of(words, "newer"),
        },
        CommandWord::Ask => Task::Ask { parts },
    })
}

/// Returns what a command asks for that was given these words.
fn asked_of_command<'a>(
    alloc: Global,
    command: CommandWord,
    words: &ArgMatches<'a>,
) -> Result<Asked<'a>, Misunderstood>
    ensures { MatchResult result (λ asked. AsksFor (command_word command) (rows_of (found_of words.now)) asked.task
        × IsMemory (memory_in (rows_of (found_of words.now))) asked.memory) (AsksForNothing (rows_of (found_of words.now))) }
{
    match memory_of(words) {
        Ok(memory) => {
            let task = task_of_command(alloc, command, words)?;
            Ok(Asked { task, memory })
        }
        Err(why) => Err(why),
    }
}

/// Returns what the words ask for that clap has understood.
fn asked_matched<'a>(alloc: Global, matches: &ArgMatches<'a>) -> Result<Asked<'a>, Misunderstood>
    ensures { MatchResult result (IsAsked (subcommand_rows_of matches.now)) (IsUnmatched (subcommand_rows_of matches.now)) }
{
    let Some((name, words)) = matches.subcommand() else {
        return Ok(Asked {
            task: Task::JoinInput,
            memory: None,
        });
    };
    let Some(command) = CommandWord::of(name) else {
        return Err(Misunderstood::NoCommand);
    };
    asked_of_command(alloc, command, words)
}

/// Returns what the words ask for. The first word is the program's name.
pub fn asked_of<'a>(alloc: Global, words: &'a [String]) -> Result<Asked<'a>, Misunderstood>
    ensures { MatchResult result (IsAskedByWords (map string_bytes words.now)) (IsMisunderstanding (map string_bytes words.now)) }
{
    let matches = command(alloc)?.try_get_matches_from(words)?;
    asked_matched(alloc, &matches)
}
