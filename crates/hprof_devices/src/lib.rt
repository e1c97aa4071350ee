//! Sources and targets of bytes, and the devices that make them of readers and writers of std.
//!
//! No call of this crate allocates.
//!
//! Begin with [`Device::new`], which makes a [`Source`] of any reader and a [`Target`] of any writer, as in example_join.
#![tactic(auto)]

mod buffered;
mod device;
mod flush;
mod health;
mod pushing;
mod source;
mod target;

pub use buffered::BufferedDevice;
pub use device::Device;
pub use flush::Flush;
pub use health::{Health, ReadFault, WriteFault};
pub use pushing::push_all;
pub use source::Source;
pub use target::Target;
