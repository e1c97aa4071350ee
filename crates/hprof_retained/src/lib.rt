//! What the classes and objects of a heap keep alive: the tree of dominators, and the bytes and the number of the objects that each of
//! them retains.
//!
//! Begin with [`retained_of`].
#![tactic(auto)]

mod beyond;
mod border;
mod border_sink;
mod cached_references;
pub mod laws;
mod making;
mod retained;
mod size_sink;
mod sizes;
mod weakly;
mod weakly_over;
mod weakly_sink;

pub use cached_references::CachedReferences;
pub use making::{retained_of, retained_over};
pub use retained::Retained;
pub use sizes::{bytes_of_dump, size_of_node};
pub use weakly::WeaklyHeld;
pub use weakly_over::{weakly_held, weakly_held_over};
