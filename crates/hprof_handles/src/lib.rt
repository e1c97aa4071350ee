//! Files that are read at offsets, as often as is wanted, and parts that are opened again in them.
//!
//! Begin with [`Handles`].
#![tactic(auto)]

mod handle_at;
mod handles;
mod read_at;
mod shared_file;

pub use handle_at::HandleAt;
pub use handles::Handles;
pub use read_at::ReadAt;
pub use shared_file::SharedFile;
