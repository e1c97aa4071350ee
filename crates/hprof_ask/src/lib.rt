//! Reports on parts and their heap: one of them, or many, which come as lines of questions.
//!
//! Begin with [`report_to`] and [`ask_to`].
#![tactic(auto)]

mod answerer;
mod answers;
mod ask;
mod ask_fault;
mod cache;
mod calls;
mod heap_reports;
pub mod laws;
mod named;
mod node_reports;
mod product;
mod referring;
mod survey;

pub use answerer::Answerer;
pub use answers::{behind_reply, write_reply_without_report};
pub use ask::{ask_returning_heap, ask_to};
pub use ask_fault::AskFault;
pub use cache::Cache;
pub use calls::{
    biggest_to, check_to, classes_to, histo_to, keeps_to, object_to, objects_to, path_to, refs_to,
    report_to, retained_to, show_to, suspects_to, text_to, threads_to, who_to, why_to,
};
pub use named::names_classes;
pub use product::Reporting;
