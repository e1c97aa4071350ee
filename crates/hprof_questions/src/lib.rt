//! Reports by their words, questions that come as lines, and the dialogue that answers them.
//!
//! Begin with [`Report`], [`ReportWord`] and [`converse`].
#![tactic(auto)]

mod asker;
mod dialogue;
mod dialogue_fault;
mod help;
pub mod laws;
mod question;
mod report;
mod report_word;
mod subject;

pub use asker::Asker;
pub use dialogue::{Answers, converse};
pub use dialogue_fault::DialogueFault;
pub use question::{Question, question_of};
pub use report::{HeapReport, KindReport, Kinds, Node, NodeReport, Report};
pub use report_word::{Follows, ReportRow, ReportWord};
pub use subject::Misnamed;
