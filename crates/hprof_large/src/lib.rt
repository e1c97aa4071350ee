//! The reports on parts that are larger than the memory, and answers to questions about them. Both are made of passes over objects.
//!
//! Begin with [`PassedReport`] and [`ask_stored`].
#![tactic(auto)]

mod asking;
mod cached_answers;
mod checked;
mod heap;
mod kind;
mod node;
mod passed_answers;
mod passed_report;
mod stops;
mod texts;

pub use asking::ask_stored;
pub use cached_answers::CachedAnswers;
pub use passed_answers::PassedAnswers;
pub use passed_report::PassedReport;
