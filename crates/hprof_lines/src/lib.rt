//! Lines of reports: how they are written, and how a report ends that a pass over objects is for.
//!
//! Begin with [`write_line`].
#![tactic(auto)]

mod lines;
mod nothing;
mod objects;
mod passed;
mod units;

pub use lines::{write_line, write_str};
pub use nothing::nothing_line;
pub use objects::{write_object_lines, write_objects, write_objects_over};
pub use passed::stop_of_pass;
pub use units::write_units;
