//! The report `why`: a shortest path of strong references, told with names, threads and frames, and folded where it is monotonous.
//!
//! Begin with [`write_why`].
#![tactic(auto)]

mod alike;
mod fronts;
pub mod laws;
mod parts;
mod path;
mod path_over;
mod reached;
mod told_path;
mod walk;
mod why_objects;
mod why_over;
mod why_report;

pub use path_over::write_path_over;
pub use why_over::write_why_over;
pub use why_report::write_why;
