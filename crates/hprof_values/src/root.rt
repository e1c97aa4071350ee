//! GC roots, which keep objects alive.

use crate::sub_tag::SubTag;

/// A GC root, from the sub-records in heapDumper.cpp, "HPROF binary format". Roots are ordered as the bytes that encode them.
#[derive(Clone, Copy, Debug, PartialEq, Eq, PartialOrd, Ord)]
pub enum Root {
    /// A JNI global reference.
    JniGlobal {
        /// The object.
        id: u64,
        /// The identifier of the JNI reference.
        reference: u64,
    },
    /// A JNI local reference.
    JniLocal {
        /// The object.
        id: u64,
        /// The serial number of the thread.
        thread: u32,
        /// The number of the frame in the stack; 4294967295 if there is none.
        frame: u32,
    },
    /// A Java frame.
    JavaFrame {
        /// The object.
        id: u64,
        /// The serial number of the thread.
        thread: u32,
        /// The number of the frame in the stack; 4294967295 if there is none.
        frame: u32,
    },
    /// A native stack.
    NativeStack {
        /// The object.
        id: u64,
        /// The serial number of the thread.
        thread: u32,
    },
    /// A class that is never unloaded.
    Sticky {
        /// The class object.
        id: u64,
    },
    /// A thread block.
    Block {
        /// The object.
        id: u64,
        /// The serial number of the thread.
        thread: u32,
    },
    /// A monitor in use.
    Monitor {
        /// The object.
        id: u64,
    },
    /// A thread object.
    ThreadObject {
        /// The object. It may be 0.
        id: u64,
        /// The serial number of the thread.
        thread: u32,
        /// The serial number of the stack trace.
        trace: u32,
    },
    /// A root of unknown kind. Its tag is the highest, so it is the last variant.
    Unknown {
        /// The object.
        id: u64,
    },
}

impl Root {
    ghost use Rattle.std.specs.Prelude.{◌≡◌};
    ghost use Rattle.hprof_values.specs.Root.{tag_of_root};

    /// Returns the tag of the sub-record.
    pub fn tag(self) -> SubTag
        ensures { result ≡ tag_of_root self }
    {
        match self {
            Root::JniGlobal { .. } => SubTag::RootJniGlobal,
            Root::JniLocal { .. } => SubTag::RootJniLocal,
            Root::JavaFrame { .. } => SubTag::RootJavaFrame,
            Root::NativeStack { .. } => SubTag::RootNativeStack,
            Root::Sticky { .. } => SubTag::RootSticky,
            Root::Block { .. } => SubTag::RootBlock,
            Root::Monitor { .. } => SubTag::RootMonitor,
            Root::ThreadObject { .. } => SubTag::RootThreadObject,
            Root::Unknown { .. } => SubTag::RootUnknown,
        }
    }
}
