//! Rows of numbers: loaded classes, frames and started threads, and rows that consist of their key.

ghost use Rattle.hprof_rows.specs.NumberRows.{load_numbers, frame_numbers, start_numbers};
ghost use Rattle.std.specs.Prelude.{[]};

use hprof_items::Fact;
use hprof_tables::Content;
use std::alloc::{AllocError, Global};

/// A loaded class, by its serial number.
#[derive(Clone, Copy, Debug, PartialEq, Eq)]
pub struct LoadRow {
    /// The class object.
    pub class: u64,
    /// The serial number of the stack trace.
    pub trace: u32,
    /// The identifier of its name.
    pub name: u64,
}

impl LoadRow {
    ghost use Rattle.std.specs.Prelude.{◌≡◌};
    ghost use Rattle.hprof_items.specs.FactValue.{Load, ListsHave, value_of};
    ghost use Rattle.hprof_values.specs.declared.ids.IdSize.{IdSize};

    /// Returns the fact of the row with this serial number.
    pub fn fact<'a>(self, serial: u32) -> Fact<'a>
        ensures value { value_of result ≡ Load serial self.class self.trace self.name }
        ensures lists { (ids : IdSize) → ListsHave ids result }
    {
        Fact::Load {
            serial,
            class: self.class,
            trace: self.trace,
            name: self.name,
        }
    }
}

impl Content for LoadRow {
    ghost content = { load_numbers };

    ghost refuses = { λ _. ⊥ };

    fn agrees(&self, other: &Self) -> bool {
        self == other
    }

    fn copied(&self, _alloc: Global) -> Result<Self, AllocError> {
        Ok(*self)
    }
}

/// A stack frame, by its identifier.
#[derive(Clone, Copy, Debug, PartialEq, Eq)]
pub struct FrameRow {
    /// The identifier of the method's name.
    pub method: u64,
    /// The identifier of the method's signature.
    pub signature: u64,
    /// The identifier of the source file's name.
    pub source: u64,
    /// The serial number of the class.
    pub class_serial: u32,
    /// The line number, above 0; -1 if it is unknown, -2 in a compiled method, -3 in a native method.
    pub line: i32,
}

impl FrameRow {
    ghost use Rattle.std.specs.Prelude.{◌≡◌};
    ghost use Rattle.hprof_items.specs.FactValue.{Frame, ListsHave, value_of};
    ghost use Rattle.hprof_values.specs.declared.ids.IdSize.{IdSize};

    /// Returns the fact of the row with this identifier.
    pub fn fact<'a>(self, id: u64) -> Fact<'a>
        ensures value { value_of result ≡ Frame id self.method self.signature self.source self.class_serial self.line }
        ensures lists { (ids : IdSize) → ListsHave ids result }
    {
        Fact::Frame {
            id,
            method: self.method,
            signature: self.signature,
            source: self.source,
            class_serial: self.class_serial,
            line: self.line,
        }
    }
}

impl Content for FrameRow {
    ghost content = { frame_numbers };

    ghost refuses = { λ _. ⊥ };

    fn agrees(&self, other: &Self) -> bool {
        self == other
    }

    fn copied(&self, _alloc: Global) -> Result<Self, AllocError> {
        Ok(*self)
    }
}

/// A thread that was started, by its serial number.
#[derive(Clone, Copy, Debug, PartialEq, Eq)]
pub struct StartRow {
    /// The thread object.
    pub object: u64,
    /// The serial number of the stack trace.
    pub trace: u32,
    /// The identifier of its name.
    pub name: u64,
    /// The identifier of the name of its thread group.
    pub group: u64,
    /// The identifier of the name of the group's parent.
    pub parent_group: u64,
}

impl StartRow {
    ghost use Rattle.std.specs.Prelude.{◌≡◌};
    ghost use Rattle.hprof_items.specs.FactValue.{Start, ListsHave, value_of};
    ghost use Rattle.hprof_values.specs.declared.ids.IdSize.{IdSize};

    /// Returns the fact of the row with this serial number.
    pub fn fact<'a>(self, thread: u32) -> Fact<'a>
        ensures value { value_of result ≡ Start thread self.object self.trace self.name self.group self.parent_group }
        ensures lists { (ids : IdSize) → ListsHave ids result }
    {
        Fact::Start {
            thread,
            object: self.object,
            trace: self.trace,
            name: self.name,
            group: self.group,
            parent_group: self.parent_group,
        }
    }
}

impl Content for StartRow {
    ghost content = { start_numbers };

    ghost refuses = { λ _. ⊥ };

    fn agrees(&self, other: &Self) -> bool {
        self == other
    }

    fn copied(&self, _alloc: Global) -> Result<Self, AllocError> {
        Ok(*self)
    }
}

/// A row that consists of its key: an unloaded class, or a thread that ended.
#[derive(Clone, Copy, Debug, PartialEq, Eq)]
pub struct KeyRow;

impl Content for KeyRow {
    ghost content = { λ row. [] };

    ghost refuses = { λ _. ⊥ };

    fn agrees(&self, _other: &Self) -> bool {
        true
    }

    fn copied(&self, _alloc: Global) -> Result<Self, AllocError> {
        Ok(KeyRow)
    }
}
