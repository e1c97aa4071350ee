//! Prints the ten classes and types of the dump on standard input that take the most bytes: the bytes, the number of objects, the name.
#![tactic(auto)]

use anyhow::Result;
use hprof_tool::{Device, Kind, Limits, class_label, histogram, read_heap, type_word};

fn main(rt: HostRuntime) -> Result<()> {
    let alloc = rt.alloc();
    let heap = read_heap(alloc, &mut [Device::new(rt.stdin())], Limits::usual())?;
    for row in histogram(alloc, &heap)?.iter().take(10) {
        match row.kind {
            Kind::Class(class) => {
                let label = class_label(alloc, &heap, class)?;
                println!(rt; "{} {} {label}", row.bytes, row.count)?;
            }
            Kind::Prim(elem) => {
                println!(rt; "{} {} {}[]", row.bytes, row.count, type_word(elem))?;
            }
        }
    }
    Ok(())
}
