//! The facts that records and sub-records state. They borrow the bytes of the dump.

use hprof_values::{Basic, ConstantList, FieldList, IdList, Root, StaticList};

/// The fact that a record or a sub-record states.
#[derive(Clone, Copy, Debug, PartialEq, Eq)]
pub enum Fact<'a> {
    /// UTF8: the bytes of a name.
    Name {
        /// The identifier of the name.
        id: u64,
        /// The bytes, as they stand in the dump.
        text: &'a [u8],
    },
    /// LOAD_CLASS: a class that was loaded.
    Load {
        /// The serial number of the class.
        serial: u32,
        /// The class object.
        class: u64,
        /// The serial number of the stack trace.
        trace: u32,
        /// The identifier of its name.
        name: u64,
    },
    /// UNLOAD_CLASS: a class that was unloaded.
    Unload {
        /// The serial number of the class.
        serial: u32,
    },
    /// FRAME: a stack frame.
    Frame {
        /// The identifier of the frame.
        id: u64,
        /// The identifier of the method's name.
        method: u64,
        /// The identifier of the method's signature.
        signature: u64,
        /// The identifier of the source file's name.
        source: u64,
        /// The serial number of the class.
        class_serial: u32,
        /// The line number, above 0; -1 if it is unknown, -2 in a compiled method, -3 in a native method.
        line: i32,
    },
    /// TRACE: a stack trace.
    Trace {
        /// The serial number of the stack trace.
        serial: u32,
        /// The serial number of the thread.
        thread: u32,
        /// The identifiers of its frames.
        frames: IdList<'a>,
    },
    /// START_THREAD: a thread that was started.
    Start {
        /// The serial number of the thread.
        thread: u32,
        /// The thread object.
        object: u64,
        /// The serial number of the stack trace.
        trace: u32,
        /// The identifier of its name.
        name: u64,
        /// The identifier of the name of its thread group.
        group: u64,
        /// The identifier of the name of the group's parent.
        parent_group: u64,
    },
    /// END_THREAD: a thread that ended.
    End {
        /// The serial number of the thread.
        thread: u32,
    },
    /// A GC root.
    Root(Root),
    /// A class dump.
    Class {
        /// The class object.
        id: u64,
        /// The serial number of the stack trace.
        trace: u32,
        /// Its superclass.
        parent: u64,
        /// Its class loader.
        loader: u64,
        /// Its signers.
        signers: u64,
        /// Its protection domain.
        domain: u64,
        /// The first reserved identifier.
        reserved1: u64,
        /// The second reserved identifier.
        reserved2: u64,
        /// The size of an instance, in bytes. It is passed on, and neither used nor checked.
        size: u32,
        /// Its constants.
        constants: ConstantList<'a>,
        /// Its static fields.
        statics: StaticList<'a>,
        /// Its own instance fields.
        fields: FieldList<'a>,
    },
    /// An instance.
    Instance {
        /// The object.
        id: u64,
        /// The serial number of the stack trace.
        trace: u32,
        /// Its class.
        class: u64,
        /// The values of its fields: those of its class, then of its superclass, and so on.
        bytes: &'a [u8],
    },
    /// An object array.
    ObjArray {
        /// The array.
        id: u64,
        /// The serial number of the stack trace.
        trace: u32,
        /// The class of the array.
        class: u64,
        /// The elements.
        elements: IdList<'a>,
    },
    /// A primitive array.
    PrimArray {
        /// The array.
        id: u64,
        /// The serial number of the stack trace.
        trace: u32,
        /// The type of the elements. It is neither `Array` nor `Object`.
        elem: Basic,
        /// The bytes of the elements.
        bytes: &'a [u8],
    },
}
