//! A heap of a few objects: all facts of a heap but its objects, and of the objects those that are wanted.
#![tactic(auto)]

mod few_objects;
mod small;
mod spelling;

pub use small::small_heap;
