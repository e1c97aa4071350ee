//! The commands of the program, in the order in which its help lists them.

ghost use Rattle.std.specs.Prelude.{◌≡◌, ◌≢◌, map, MatchOption};
ghost use Rattle.hprof_command.specs.declared.command.subcommands.CommandWord.{CommandWord};
ghost use Rattle.hprof_command.specs.CommandLine.{arguments_of, shape_of_command, shape_of_row};
ghost use Rattle.hprof_command.specs.Commands.{command_word};

use super::{NewFile, help};
use hprof_questions::{Follows, HeapReport, KindReport, NodeReport, ReportWord};

/// An argument that a command must be given.
#[derive(Clone, Copy)]
pub(crate) struct Argument {
    /// The name by which its value is asked for.
    pub(crate) name: &'static str,
    /// What stands for it in the help.
    pub(crate) value_name: &'static str,
    /// What it is.
    pub(crate) help: &'static str,
}

const OUT: Argument = Argument {
    name: "out",
    value_name: "OUT",
    help: "The new file for the dump",
};

const ID: Argument = Argument {
    name: "id",
    value_name: "ID",
    help: "The identifier of a class or an object, in hexadecimal",
};

const ID_OR_NAME: Argument = Argument {
    name: "id",
    value_name: "ID",
    help: "An identifier, in hexadecimal, or the name of a class",
};

const KIND: Argument = Argument {
    name: "kind",
    value_name: "KIND",
    help: "A class, by identifier or name, or a type of arrays, as byte[]",
};

const OLDER: Argument = Argument {
    name: "older",
    value_name: "OLD",
    help: "The older dump",
};

const NEWER: Argument = Argument {
    name: "newer",
    value_name: "NEW",
    help: "The newer dump",
};

/// A command of the program.
#[derive(Clone, Copy, Debug, PartialEq, Eq)]
pub(crate) enum CommandWord {
    /// Writes a dump to a new file.
    Write(NewFile),
    /// Salvages damaged parts.
    Salvage,
    /// Writes a report.
    Report(ReportWord),
    /// Writes what grew from one dump to another.
    Compare,
    /// Answers questions.
    Ask,
}

/// The row of a command in the table. Each command takes the option for the memory, too.
#[derive(Clone, Copy)]
pub(crate) struct CommandRow {
    /// The word of the command.
    pub(crate) word: &'static str,
    /// What it does, in a line.
    pub(crate) about: &'static str,
    /// The text that explains it, behind its arguments.
    pub(crate) help: &'static str,
    /// The arguments that it must be given, in order.
    pub(crate) arguments: &'static [Argument],
    /// Whether names of parts follow.
    pub(crate) takes_parts: bool,
}

/// All commands, in the order in which the program's help lists them.
pub(crate) const COMMANDS: [CommandWord; 21] = [
    CommandWord::Write(NewFile::Dump),
    CommandWord::Write(NewFile::Dump101),
    CommandWord::Salvage,
    CommandWord::Report(ReportWord::Heap(HeapReport::Check)),
    CommandWord::Report(ReportWord::Heap(HeapReport::Histogram)),
    CommandWord::Report(ReportWord::Heap(HeapReport::Classes)),
    CommandWord::Report(ReportWord::Heap(HeapReport::Threads)),
    CommandWord::Report(ReportWord::Heap(HeapReport::Suspects)),
    CommandWord::Report(ReportWord::Heap(HeapReport::Retained)),
    CommandWord::Report(ReportWord::Kind(KindReport::Biggest)),
    CommandWord::Report(ReportWord::Kind(KindReport::Objects)),
    CommandWord::Compare,
    CommandWord::Report(ReportWord::Node(NodeReport::Show)),
    CommandWord::Report(ReportWord::Node(NodeReport::Why)),
    CommandWord::Report(ReportWord::Node(NodeReport::Who)),
    CommandWord::Report(ReportWord::Node(NodeReport::Keeps)),
    CommandWord::Report(ReportWord::Node(NodeReport::Text)),
    CommandWord::Report(ReportWord::Node(NodeReport::Object)),
    CommandWord::Report(ReportWord::Node(NodeReport::Refs)),
    CommandWord::Report(ReportWord::Node(NodeReport::Path)),
    CommandWord::Ask,
];

/// Returns the arguments that stand for what follows the word of a report.
fn arguments_of(follows: Follows) -> &'static [Argument]
    ensures { map (λ argument. argument.name.now) result.now ≡ arguments_of follows }
{
    match follows {
        Follows::Nothing => &[],
        Follows::Identifier => &[ID],
        Follows::ClassOrObject => &[ID_OR_NAME],
        Follows::ClassOrType => &[KIND],
    }
}

/// Returns the row of a report.
fn report_row(report: ReportWord) -> CommandRow
    ensures word { result.word.now ≡ command_word (CommandWord.Report report) }
    ensures shape { shape_of_row result ≡ shape_of_command (CommandWord.Report report) }
{
    let row = report.row();
    CommandRow {
        word: row.word,
        about: row.about,
        help: row.help,
        arguments: arguments_of(row.follows),
        takes_parts: true,
    }
}

impl CommandWord {
    /// Returns the row of the command.
    pub(crate) fn row(self) -> CommandRow
        ensures word { result.word.now ≡ command_word self }
        ensures shape { shape_of_row result ≡ shape_of_command self }
    {
        match self {
            CommandWord::Write(NewFile::Dump) => CommandRow {
                word: "join",
                about: "Joins parts of one heap into one canonical dump",
                help: help::JOIN,
                arguments: &[OUT],
                takes_parts: true,
            },
            CommandWord::Write(NewFile::Dump101) => CommandRow {
                word: "join101",
                about: "Joins parts of one heap into one JAVA PROFILE 1.0.1 dump",
                help: help::JOIN101,
                arguments: &[OUT],
                takes_parts: true,
            },
            CommandWord::Salvage => CommandRow {
                word: "salvage",
                about: "Saves each damaged part up to its fault, and prints the faults",
                help: help::SALVAGE,
                arguments: &[OUT],
                takes_parts: true,
            },
            CommandWord::Report(report) => report_row(report),
            CommandWord::Compare => CommandRow {
                word: "diff",
                about: "Prints what grew from one dump to another, in bytes and objects",
                help: help::DIFF,
                arguments: &[OLDER, NEWER],
                takes_parts: false,
            },
            CommandWord::Ask => CommandRow {
                word: "ask",
                about: "Reads the parts once, and answers questions on standard input",
                help: help::ASK,
                arguments: &[],
                takes_parts: true,
            },
        }
    }

    /// Returns the command of a word, or `None` if the word is none of the table.
    pub(crate) fn of(word: &str) -> Option<CommandWord>
        ensures { MatchOption result ((command : CommandWord) → word.now ≢ command_word command)
            (λ command. word.now ≡ command_word command) }
    {
        for command in &COMMANDS {
            if command.row().word == word {
                return Some(*command);
            }
        }
        None
    }
}
