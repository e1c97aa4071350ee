//! Fixtures for the tests of several crates: the bytes of parts, and a writer that counts.
#![tactic(auto)]

mod counting;
mod parts;

pub use counting::Counting;
pub use parts::{END, HEADER, NAME_1_A, NAME_1_B, PLAIN, PLAIN_101, bytes_of, record};
