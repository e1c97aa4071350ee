//! The report `diff`: the classes and types whose objects grew from one heap to another, in number and in bytes. Objects are counted by
//! label.
//!
//! Begin with [`diff_to`].
#![tactic(auto)]

mod change;
mod comparing;
mod counted;
mod differences;
mod fault;
mod gathering;
mod label_count;
mod label_counts;
mod labels;
pub mod laws;
mod parts;
mod report;

pub use change::{Change, Delta};
pub use differences::difference;
pub use fault::DiffFault;
pub use label_counts::LabelCounts;
pub use parts::{GrowthReport, count_parts, count_stored, diff_to};
pub use report::{write_difference, write_growth_over};
