//! Reads a part into a heap that keeps its references, and prints the referrers of an object.
#![tactic(auto)]

use anyhow::{Result, bail};
use hprof_tool::{Device, Limits, Live, LiveHeap, read_part};

/// A part with an array 17 of the class 100, whose one element is 16.
const PART: &[u8] = b"JAVA PROFILE 1.0.2\0\0\0\0\x04\0\0\0\0\0\0\0\x01\x1c\0\0\0\0\0\0\0\x15\
    \x22\0\0\0\x11\0\0\0\x01\0\0\0\x01\0\0\0\x64\0\0\0\x10";

fn main(rt: HostRuntime) -> Result<()> {
    let alloc = rt.alloc();
    let mut live = LiveHeap::new(alloc);
    read_part(alloc, &mut Device::new(PART), Limits::usual(), &mut live)?;
    let Live::Is(edges) = live.referrers_now(16) else {
        bail!("the facts do not agree");
    };
    for edge in edges {
        println!(rt;
            "{} refers to 16, by {:?}, at {}",
            edge.from, edge.via, edge.position
        )?;
    }
    Ok(())
}
