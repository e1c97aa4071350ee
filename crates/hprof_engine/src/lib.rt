//! Reads parts into one heap, and writes a dump or a report of it. Of damaged parts it joins the facts before each part's first fault.
//!
//! Begin with [`join_to`], as in example_join, [`join101_to`] and [`salvage_to`]. [`read_heap`] reads parts into any gatherer.
#![tactic(auto)]

mod counter;
mod heap_fault;
mod heap_product;
mod join;
mod join101;
mod joined;
pub mod laws;
mod loss;
mod make;
mod parts;
mod product;
mod read;
mod salvage;
mod salvage_reading;
mod salvaged;
mod summaries;
mod tool_fault;

pub use heap_fault::HeapFault;
pub use heap_product::HeapProduct;
pub use join::{Dump, join_returning_heap, join_to};
pub use join101::{Dump101, join101_returning_heap, join101_to};
pub use joined::{Joined, JoinedHeap, join_with};
pub use loss::Loss;
pub use make::{make_to, write_to};
pub use product::{Product, ProductFault};
pub use read::read_heap;
pub use salvage::{salvage_returning_heap, salvage_to};
pub use salvaged::{FaultedPart, Salvaged, SalvagedHeap};
pub use summaries::{AllSummaries, NoSummaries, Summaries};
pub use tool_fault::ToolFault;
