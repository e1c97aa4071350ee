//! Making reports of parts that are larger than the memory, of passes over their objects.
//!
//! Begin with [`PassProduct`] and [`make_stored`].
#![tactic(auto)]

mod making;
mod pass_product;
mod watching;
mod writing;

pub use making::make_stored;
pub use pass_product::PassProduct;
pub use watching::{counts_known, counts_to_watch};
