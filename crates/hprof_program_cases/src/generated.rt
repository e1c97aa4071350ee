//! Parts with thousands of facts, and thousands of parts.

use crate::expecting::{equal, equal_bytes, equal_text};
use crate::samples::readers_of;
use hprof_devices::Device;
use hprof_engine::{Joined, join_to};
use hprof_fixtures::{END, HEADER, NAME_1_A, bytes_of};
use hprof_stream::Limits;
use hprof_tool::check_to;
use std::alloc::{AllocError, Global};
use std::test::Fail;

/// Returns the records of names `A` of these identifiers.
fn names_of(alloc: Global, ids: &[u32]) -> Result<Vec<u8>, AllocError> {
    let mut names = Vec::new(alloc);
    for id in ids {
        names.extend_from_slice(b"\x01\0\0\0\0\0\0\0\x05")?;
        names.extend_from_slice(&id.to_be_bytes())?;
        names.push(b'A')?;
    }
    Ok(names)
}

/// Returns the records of names 1 to 3,000, in ascending and in descending order.
fn thousands(alloc: Global) -> Result<(Vec<u8>, Vec<u8>), AllocError> {
    let mut ids = Vec::new(alloc);
    for id in 1..3_001 {
        ids.push(id)?;
    }
    let ascending = names_of(alloc, &ids)?;
    ids.reverse();
    Ok((ascending, names_of(alloc, &ids)?))
}

#[test]
fn thousands_of_facts(rt: HostRuntime) -> Result<(), Fail> {
    let (ascending, descending) = thousands(rt.alloc())?;
    let part = bytes_of(rt.alloc(), &[HEADER, &descending])?;
    let other = bytes_of(rt.alloc(), &[HEADER, &ascending, &descending])?;
    let dump = bytes_of(rt.alloc(), &[HEADER, &ascending, END])?;
    let mut readers = readers_of(rt.alloc(), &[&part, &other])?;
    let mut target = Device::new(Vec::new(rt.alloc()));
    let answer = join_to(rt.alloc(), &mut readers, &mut target, Limits::usual());
    let joined = Joined {
        parts: 2,
        facts: 3_000,
    };
    equal(&rt, answer, Ok(joined));
    equal_bytes(&rt, &target.into_inner(), &dump);
    Ok(())
}

/// Returns the report on `count` parts, all of which state name 1.
fn report_on(alloc: Global, count: u32) -> Result<String, AllocError> {
    let mut report = String::new(alloc);
    for number in 0..count {
        let line = format!(in alloc;
            "part {number}: version 1.0.2 ids 4 time 1 records 1 facts 1 end no\n"
        )?;
        report.push_str(&line)?;
    }
    report.push_str(
        "names 1\nloads 0\nunloads 0\nframes 0\ntraces 0\nstarts 0\nends 0\nroots 0\nclasses 0\n\
        objects 0\nbad names 0\n",
    )?;
    Ok(report)
}

#[test]
fn thousands_of_parts(rt: HostRuntime) -> Result<(), Fail> {
    let part = bytes_of(rt.alloc(), &[HEADER, NAME_1_A])?;
    let parts = vec![in rt.alloc(); part.as_slice(); 5_000]?;
    let mut readers = readers_of(rt.alloc(), &parts)?;
    let mut target = Device::new(Vec::new(rt.alloc()));
    let answer = check_to(rt.alloc(), &mut readers, &mut target, Limits::usual());
    equal(&rt, answer, Ok(()));
    let report = report_on(rt.alloc(), 5_000)?;
    equal_text(&rt, &target.into_inner(), &report)
}
