//! Reports on retained memory: what keeps an object alive, what it keeps alive itself, and which objects of a class keep most alive.
//!
//! Begin with [`write_biggest`] and [`write_keeps`].
#![tactic(auto)]

mod biggest;
mod biggest_over;
mod children;
mod choice;
mod chosen;
mod chosen_over;
mod dominators;
mod keeps;
mod keeps_over;
mod kept;
mod kept_over;
pub mod laws;
mod lines;
mod named;
mod nodes;
mod place_sink;
mod weakly;

pub use biggest::write_biggest;
pub use biggest_over::write_biggest_over;
pub use children::children_of;
pub use choice::Choice;
pub use dominators::dominators_of;
pub use keeps::write_keeps;
pub use keeps_over::write_keeps_over;
pub use lines::{node_line, place_line, total_line, weakly_line};
pub use weakly::{WeakSum, sum_in, weak_sum};
