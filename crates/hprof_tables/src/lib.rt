//! Tables of rows by key, independent of what the rows mean: rows of any content, in pages that are sorted by key, and a map that finds
//! most keys without a search.
//!
//! Begin with [`Relation`], [`SortedTable`] or [`HintedMap`].
#![tactic(auto)]

mod content;
mod cursor;
mod entries;
mod hinted_map;
mod merging;
mod page;
mod page_hints;
mod relation;
mod rows;
mod side_by_side;
mod sorted_table;
mod visit;

pub use content::Content;
pub use cursor::Cursor;
pub use entries::Entries;
pub use hinted_map::HintedMap;
pub use relation::{Relation, Stated};
pub use rows::Rows;
pub use side_by_side::{KeyedRows, first_difference, missing_rows, same_rows};
pub use sorted_table::SortedTable;
pub use visit::Visit;
