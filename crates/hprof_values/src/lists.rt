//! Lists of entries and of identifiers, over their bytes.

mod among;
pub mod entry_list;
pub mod ids;
