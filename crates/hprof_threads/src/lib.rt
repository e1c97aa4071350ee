//! Threads of a heap: the root of each thread, its object, its stack and its name, and the lines of stack frames.
//!
//! Begin with [`ThreadRoots`] and [`thread_name`].
#![tactic(auto)]

mod frame_lines;
mod held;
pub mod laws;
mod serials;
mod stack_frame;
mod thread_names;
mod thread_objects;
mod thread_root;
mod thread_roots;
mod thread_stacks;

pub use frame_lines::frame_line;
pub use held::{Held, HeldObjects, Place};
pub use serials::{thread_of_root, thread_serials};
pub use thread_names::{name_object, thread_name};
pub use thread_objects::thread_object;
pub use thread_root::ThreadRoot;
pub use thread_roots::ThreadRoots;
pub use thread_stacks::thread_stack;
