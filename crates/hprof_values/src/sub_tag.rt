//! The tags of sub-records, from the comment "HPROF binary format" in heapDumper.cpp.

ghost use Rattle.std.specs.Prelude.{◌≡◌, ◌↔◌};

/// The kind of a sub-record.
#[derive(Clone, Copy, Debug, PartialEq, Eq)]
pub enum SubTag {
    /// A JNI global reference.
    RootJniGlobal,
    /// A JNI local reference.
    RootJniLocal,
    /// A Java frame.
    RootJavaFrame,
    /// A native stack.
    RootNativeStack,
    /// A class that is never unloaded.
    RootSticky,
    /// A thread block.
    RootBlock,
    /// A monitor in use.
    RootMonitor,
    /// A thread object.
    RootThreadObject,
    /// A class dump.
    ClassDump,
    /// An instance.
    InstanceDump,
    /// An object array.
    ObjArrayDump,
    /// A primitive array.
    PrimArrayDump,
    /// A root of unknown kind.
    RootUnknown,
}

impl SubTag {
    ghost use Rattle.hprof_values.specs.declared.sub_tag.SubTag.{SubTag};
    ghost use Rattle.hprof_values.specs.SubTag.{code_of_tag, tag_of_code};

    /// Returns the tag byte.
    pub fn code(self) -> u8
        ensures { result ≡ code_of_tag self }
    {
        match self {
            SubTag::RootJniGlobal => 0x01,
            SubTag::RootJniLocal => 0x02,
            SubTag::RootJavaFrame => 0x03,
            SubTag::RootNativeStack => 0x04,
            SubTag::RootSticky => 0x05,
            SubTag::RootBlock => 0x06,
            SubTag::RootMonitor => 0x07,
            SubTag::RootThreadObject => 0x08,
            SubTag::ClassDump => 0x20,
            SubTag::InstanceDump => 0x21,
            SubTag::ObjArrayDump => 0x22,
            SubTag::PrimArrayDump => 0x23,
            SubTag::RootUnknown => 0xff,
        }
    }

    /// Returns the kind of sub-record with this tag byte, or `None` if there is none. Sub-records with unknown tags are refused.
    #[inline(always)]
    pub fn from_code(code: u8) -> Option<SubTag>
        ensures exact { result ≡ tag_of_code code }
        ensures both { (tag : SubTag) → (result ≡ Some tag) ↔ (code ≡ code_of_tag tag) }
    {
        match code {
            0x01 => Some(SubTag::RootJniGlobal),
            0x02 => Some(SubTag::RootJniLocal),
            0x03 => Some(SubTag::RootJavaFrame),
            0x04 => Some(SubTag::RootNativeStack),
            0x05 => Some(SubTag::RootSticky),
            0x06 => Some(SubTag::RootBlock),
            0x07 => Some(SubTag::RootMonitor),
            0x08 => Some(SubTag::RootThreadObject),
            0x20 => Some(SubTag::ClassDump),
            0x21 => Some(SubTag::InstanceDump),
            0x22 => Some(SubTag::ObjArrayDump),
            0x23 => Some(SubTag::PrimArrayDump),
            0xff => Some(SubTag::RootUnknown),
            _ => None,
        }
    }
}
