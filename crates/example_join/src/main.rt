//! Joins two parts in memory, and prints the number of facts and the bytes of their canonical dump.
#![tactic(auto)]

use anyhow::Result;
use hprof_tool::{Device, Limits, join_to};

/// A part with the name 2.
const ONE: &[u8] =
    b"JAVA PROFILE 1.0.2\0\0\0\0\x04\0\0\0\0\0\0\0\x01\x01\0\0\0\0\0\0\0\x05\0\0\0\x02B";

/// A part with the names 1 and 2.
const OTHER: &[u8] = b"JAVA PROFILE 1.0.2\0\0\0\0\x04\0\0\0\0\0\0\0\x01\
    \x01\0\0\0\0\0\0\0\x05\0\0\0\x02B\x01\0\0\0\0\0\0\0\x05\0\0\0\x01A";

fn main(rt: HostRuntime) -> Result<()> {
    let mut parts = [Device::new(ONE), Device::new(OTHER)];
    let mut dump = Device::new(Vec::new(rt.alloc()));
    let joined = join_to(rt.alloc(), &mut parts, &mut dump, Limits::usual())?;
    let bytes = dump.into_inner().len();
    println!(rt;
        "{} parts, {} facts, {bytes} bytes",
        joined.parts, joined.facts
    )?;
    Ok(())
}
