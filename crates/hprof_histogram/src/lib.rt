//! The class histogram of a heap: the number of objects of each kind, and the number of their bytes; and the list of a kind's objects.
//!
//! Begin with [`histogram`], as in example_largest, and [`objects_of`].
#![tactic(auto)]

mod chosen;
mod counted;
mod counted_kinds;
mod counting;
mod gathering;
pub mod laws;
mod making;
mod measured;
mod objects;
mod row;
mod sorting;

pub use chosen::{Chosen, chosen_objects};
pub use counted::Counted;
pub use counted_kinds::CountedKinds;
pub use counting::{count_known, count_objects};
pub use making::{histogram, histogram_over};
pub use objects::{SizedObject, objects_of};
pub use row::{Kind, Row};
