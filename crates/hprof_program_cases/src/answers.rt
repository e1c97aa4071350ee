//! Faults, each of which equals only itself, and the texts of faults that no small part has.

use crate::expecting::{equal, equal_at};
use hprof_devices::WriteFault;
use hprof_engine::{FaultedPart, HeapFault, Joined, ToolFault};
use hprof_heap::Key;
use hprof_items::Reason;
use hprof_stream::{PartFault, SinkFault};
use std::test::Fail;

/// Faults of parts, with the number of the part and the text.
const OF_PARTS: [(usize, PartFault, &str); 10] = [
    (10, PartFault::Read, "part 10: read failed"),
    (10, PartFault::BytesExceeded, "part 10: too many bytes"),
    (
        4_294_967_296,
        PartFault::ReadsExceeded,
        "part 4294967296: too many reads",
    ),
    (
        4_294_967_296,
        PartFault::ItemTooLong { at: 4_294_967_297 },
        "part 4294967296: item too long at 4294967297",
    ),
    (
        11,
        PartFault::Malformed {
            at: 4_294_967_297,
            reason: Reason::PastEnd,
        },
        "part 11: malformed at 4294967297: PastEnd",
    ),
    (3, PartFault::OutOfMemory, "part 3: out of memory"),
    (
        3,
        PartFault::Sink(SinkFault::OutOfMemory),
        "part 3: out of memory",
    ),
    (4, PartFault::Sink(SinkFault::Failed), "part 4: sink failed"),
    (5, PartFault::Failed, "part 5: reader failed"),
    (
        2,
        PartFault::Malformed {
            at: 31,
            reason: Reason::BadLength,
        },
        "part 2: malformed at 31: BadLength",
    ),
];

#[test]
fn texts_of_faults_of_parts(rt: HostRuntime) -> Result<(), Fail> {
    for (index, fault, text) in OF_PARTS {
        let listed = FaultedPart { index, fault }.to_string(rt.alloc())?;
        let refused = ToolFault::Part { index, fault }.text(rt.alloc())?;
        equal(&rt, (listed.as_str(), refused.as_str()), (text, text));
    }
    Ok(())
}

/// Faults, no two of them equal, with the texts of those that are not faults of parts.
const FAULTS: [(ToolFault, &str); 13] = [
    (
        ToolFault::Part {
            index: 0,
            fault: PartFault::Read,
        },
        "part 0: read failed",
    ),
    (
        ToolFault::Part {
            index: 1,
            fault: PartFault::Read,
        },
        "part 1: read failed",
    ),
    (
        ToolFault::Part {
            index: 0,
            fault: PartFault::BytesExceeded,
        },
        "part 0: too many bytes",
    ),
    (ToolFault::NoParts, "no parts"),
    (ToolFault::IdSizes, "identifier sizes differ"),
    (ToolFault::Conflict(Key::Name(1)), "conflict at name 1"),
    (ToolFault::Conflict(Key::Name(2)), "conflict at name 2"),
    (ToolFault::Conflict(Key::Frame(1)), "conflict at frame 1"),
    (ToolFault::Write(WriteFault::Failed), "write failed"),
    (ToolFault::Write(WriteFault::Stuck), "write failed"),
    (ToolFault::OutOfMemory, "out of memory"),
    (ToolFault::Refused(HeapFault::DumpTooLong), "dump too long"),
    (
        ToolFault::Refused(HeapFault::NoClass),
        "no class has this name",
    ),
];

#[test]
fn answers_that_differ(rt: HostRuntime) -> Result<(), Fail> {
    for (place, (fault, text)) in FAULTS.iter().enumerate() {
        equal_at(&rt, place, fault.text(rt.alloc())?.as_str(), *text);
        for (other, (another, _)) in FAULTS.iter().enumerate() {
            equal_at(&rt, place, fault == another, place == other);
        }
    }
    let joined = Joined { parts: 1, facts: 1 };
    let others = [Joined { parts: 1, facts: 2 }, Joined { parts: 2, facts: 1 }];
    equal(&rt, others.map(|other| other == joined), [false, false]);
    Ok(())
}
