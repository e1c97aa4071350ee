//! The command line: which words ask for which task.
//!
//! Begin with [`asked_of`].
#![tactic(auto)]

mod command;

pub use command::{Asked, Misunderstood, NewFile, OutName, Task, asked_of};
