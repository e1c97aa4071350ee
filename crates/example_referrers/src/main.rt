//! Prints what refers to an object of the dump on standard input.
#![tactic(auto)]

use anyhow::Result;
use hprof_tool::{Device, Limits, read_heap, referrers};

/// The identifier of the object.
const OBJECT: u64 = 0x7_4000_0f20;

fn main(rt: HostRuntime) -> Result<()> {
    let alloc = rt.alloc();
    let heap = read_heap(alloc, &mut [Device::new(rt.stdin())], Limits::usual())?;
    for edge in referrers(alloc, &heap, OBJECT)? {
        println!(rt; "{:x}, by {:?}, at {}", edge.from, edge.via, edge.position)?;
    }
    Ok(())
}
