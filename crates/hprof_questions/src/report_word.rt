//! The table of reports: for each its word, what follows the word, and its texts in help.

ghost use Rattle.std.specs.Prelude.{◌≡◌, ◌≢◌, MatchOption};
ghost use Rattle.hprof_questions.specs.declared.report_word.Follows.{Follows};
ghost use Rattle.hprof_questions.specs.declared.report_word.ReportWord.{ReportWord};
ghost use Rattle.hprof_questions.specs.Words.{follows_of, heap_word, kind_word, node_follows, node_word, word_of};

use crate::help;
use crate::report::{HeapReport, KindReport, NodeReport};

/// What follows the word of a report.
#[derive(Clone, Copy, Debug, PartialEq, Eq)]
pub enum Follows {
    /// Nothing.
    Nothing,
    /// The identifier of a class or an object.
    Identifier,
    /// The identifier of a class or an object, or the name of a class.
    ClassOrObject,
    /// A type of arrays, as `byte[]`, the identifier of a class, or the name of a class.
    ClassOrType,
}

/// A report, by its word.
#[derive(Clone, Copy, Debug, PartialEq, Eq)]
pub enum ReportWord {
    /// The word of a report on the parts, or on the whole heap.
    Heap(HeapReport),
    /// The word of a report on the objects of a class or a type.
    Kind(KindReport),
    /// The word of a report on a class or an object.
    Node(NodeReport),
}

/// The row of a report in the table.
#[derive(Clone, Copy, Debug)]
pub struct ReportRow {
    /// The word that asks for the report.
    pub word: &'static str,
    /// What follows the word.
    pub follows: Follows,
    /// What the report prints, in a line.
    pub about: &'static str,
    /// The text that explains the report.
    pub help: &'static str,
}

/// Returns the row of a report on the parts, or on the whole heap.
fn heap_row(report: HeapReport) -> ReportRow
    ensures word { result.word.now ≡ heap_word report }
    ensures follows { result.follows ≡ Follows.Nothing }
{
    match report {
        HeapReport::Check => ReportRow {
            word: "check",
            follows: Follows::Nothing,
            about: "Prints the version and time of each part, and numbers of facts",
            help: help::CHECK,
        },
        HeapReport::Histogram => ReportRow {
            word: "histo",
            follows: Follows::Nothing,
            about: "Prints the class histogram: the bytes and objects of each class",
            help: help::HISTO,
        },
        HeapReport::Classes => ReportRow {
            word: "classes",
            follows: Follows::Nothing,
            about: "Prints each class, its superclass, and its bytes and objects",
            help: help::CLASSES,
        },
        HeapReport::Threads => ReportRow {
            word: "threads",
            follows: Follows::Nothing,
            about: "Prints each thread, its stack, and the objects that its frames hold",
            help: help::THREADS,
        },
        HeapReport::Suspects => ReportRow {
            word: "suspects",
            follows: Follows::Nothing,
            about: "Prints where most of the memory is held, and what it falls apart into",
            help: help::SUSPECTS,
        },
        HeapReport::Retained => ReportRow {
            word: "retained",
            follows: Follows::Nothing,
            about: "Prints the class histogram by retained size",
            help: help::RETAINED,
        },
    }
}

/// Returns the row of a report on the objects of a class or a type.
fn kind_row(report: KindReport) -> ReportRow
    ensures word { result.word.now ≡ kind_word report }
    ensures follows { result.follows ≡ Follows.ClassOrType }
{
    match report {
        KindReport::Biggest => ReportRow {
            word: "biggest",
            follows: Follows::ClassOrType,
            about: "Prints the objects of a class or a type by retained size",
            help: help::BIGGEST,
        },
        KindReport::Objects => ReportRow {
            word: "objects",
            follows: Follows::ClassOrType,
            about: "Prints the objects of a class or a type, the largest first",
            help: help::OBJECTS,
        },
    }
}

/// Returns the row of a report on a class or an object.
fn node_row(report: NodeReport) -> ReportRow
    ensures word { result.word.now ≡ node_word report }
    ensures follows { result.follows ≡ node_follows report }
{
    match report {
        NodeReport::Show => ReportRow {
            word: "show",
            follows: Follows::ClassOrObject,
            about: "Prints the contents of a class, an instance or an array, decoded",
            help: help::SHOW,
        },
        NodeReport::Why => ReportRow {
            word: "why",
            follows: Follows::ClassOrObject,
            about: "Prints the shortest path of strong references from a GC root, with names",
            help: help::WHY,
        },
        NodeReport::Who => ReportRow {
            word: "who",
            follows: Follows::ClassOrObject,
            about: "Prints each reference to a class or an object, and its roots, with names",
            help: help::WHO,
        },
        NodeReport::Keeps => ReportRow {
            word: "keeps",
            follows: Follows::ClassOrObject,
            about: "Prints what keeps an object alive, and what it keeps alive itself",
            help: help::KEEPS,
        },
        NodeReport::Text => ReportRow {
            word: "text",
            follows: Follows::Identifier,
            about: "Prints the text of a string, or of an array of chars or bytes",
            help: help::TEXT,
        },
        NodeReport::Object => ReportRow {
            word: "object",
            follows: Follows::Identifier,
            about: "Prints the contents of a class, an instance or an array",
            help: help::OBJECT,
        },
        NodeReport::Refs => ReportRow {
            word: "refs",
            follows: Follows::Identifier,
            about: "Prints each reference to a class or an object",
            help: help::REFS,
        },
        NodeReport::Path => ReportRow {
            word: "path",
            follows: Follows::Identifier,
            about: "Prints the shortest path from a GC root to a class or an object",
            help: help::PATH,
        },
    }
}

impl ReportWord {
    /// All reports, in the order in which the dialogue's help lists them.
    pub const ALL: [ReportWord; 16] = [
        ReportWord::Heap(HeapReport::Check),
        ReportWord::Heap(HeapReport::Histogram),
        ReportWord::Heap(HeapReport::Classes),
        ReportWord::Heap(HeapReport::Threads),
        ReportWord::Heap(HeapReport::Suspects),
        ReportWord::Heap(HeapReport::Retained),
        ReportWord::Kind(KindReport::Biggest),
        ReportWord::Kind(KindReport::Objects),
        ReportWord::Node(NodeReport::Show),
        ReportWord::Node(NodeReport::Why),
        ReportWord::Node(NodeReport::Who),
        ReportWord::Node(NodeReport::Keeps),
        ReportWord::Node(NodeReport::Text),
        ReportWord::Node(NodeReport::Object),
        ReportWord::Node(NodeReport::Refs),
        ReportWord::Node(NodeReport::Path),
    ];

    /// Returns the row of the report.
    pub fn row(self) -> ReportRow
        ensures word { result.word.now ≡ word_of self }
        ensures follows { result.follows ≡ follows_of self }
    {
        match self {
            ReportWord::Heap(report) => heap_row(report),
            ReportWord::Kind(report) => kind_row(report),
            ReportWord::Node(report) => node_row(report),
        }
    }

    /// Returns the report of a word, or `None` if the word is none of the table.
    pub fn of(word: &[u8]) -> Option<ReportWord>
        ensures { MatchOption result ((report : ReportWord) → word.now ≢ word_of report) (λ report. word.now ≡ word_of report) }
    {
        for report in &ReportWord::ALL {
            if report.row().word.as_bytes() == word {
                return Some(*report);
            }
        }
        None
    }
}
