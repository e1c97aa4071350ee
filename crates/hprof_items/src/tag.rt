//! The tags of records, from the comment "HPROF binary format" in heapDumper.cpp.

/// A name.
pub const UTF8: u8 = 0x01;

/// A class was loaded.
pub const LOAD_CLASS: u8 = 0x02;

/// A class was unloaded.
pub const UNLOAD_CLASS: u8 = 0x03;

/// A stack frame.
pub const FRAME: u8 = 0x04;

/// A stack trace.
pub const TRACE: u8 = 0x05;

/// A thread started.
pub const START_THREAD: u8 = 0x0a;

/// A thread ended.
pub const END_THREAD: u8 = 0x0b;

/// A heap dump: a body of sub-records.
pub const HEAP_DUMP: u8 = 0x0c;

/// A heap dump segment: a body of sub-records.
pub const HEAP_DUMP_SEGMENT: u8 = 0x1c;

/// The end of a heap dump that has segments.
pub const HEAP_DUMP_END: u8 = 0x2c;

// Each is the byte of the format.
const _: () = prove!(UTF8 == 0x01 && LOAD_CLASS == 0x02 && UNLOAD_CLASS == 0x03 && FRAME == 0x04);

const _: () = prove!(TRACE == 0x05 && START_THREAD == 0x0a && END_THREAD == 0x0b);

const _: () = prove!(HEAP_DUMP == 0x0c && HEAP_DUMP_SEGMENT == 0x1c && HEAP_DUMP_END == 0x2c);
