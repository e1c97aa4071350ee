//! Lists of a class's entries.

use crate::expecting::equal;
use hprof_values::{ConstantList, IdSize};
use std::test::*;

// One pass over so many constants takes a millisecond; with a walk from the front for each of them, these would take minutes.
#[test]
fn constants_in_one_pass(rt: HostRuntime) -> Result<(), Fail> {
    let constant = [0, 1, 8, 7];
    let mut bytes = Vec::new(rt.alloc());
    for _ in 0..65_535 {
        bytes.extend_from_slice(&constant)?;
    }
    let list = ConstantList::new(&bytes, IdSize::Four).ok_or("no list")?;
    for _ in 0..40 {
        equal(&rt, list.iter().count(), 65_535);
    }
    Ok(())
}
