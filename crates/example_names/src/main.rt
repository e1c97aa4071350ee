//! Prints the names of all classes that the dump on standard input loads.
#![tactic(auto)]

use anyhow::Result;
use hprof_tool::{Device, Fact, FactReader, Limits, printed};
use std::collections::BTreeMap;

fn main(rt: HostRuntime) -> Result<()> {
    let alloc = rt.alloc();
    let mut names = BTreeMap::new(alloc);
    let mut reader = FactReader::new(alloc, Device::new(rt.stdin()), Limits::usual())?;
    for _ in 0..u64::MAX {
        if !reader.advance()? {
            break;
        }
        match reader.current() {
            Some(Fact::Name { id, text }) => {
                names.insert(id, printed(alloc, text)?)?;
            }
            Some(Fact::Load { name, .. }) => {
                if let Some(text) = names.get(&name) {
                    println!(rt; "{text}")?;
                }
            }
            _ => {}
        }
    }
    Ok(())
}
