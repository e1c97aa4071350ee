//! The types of values.

ghost use Rattle.std.specs.Prelude.{◌≡◌, ◌↔◌};

use crate::ids::IdSize;

/// The type of a value: a basic type of heapDumper.cpp, "HPROF binary format". Types are ordered by their codes.
#[derive(Clone, Copy, Debug, PartialEq, Eq, PartialOrd, Ord)]
pub enum Basic {
    /// An array. Its value is an identifier. The elements of an array cannot have this type; this project allows it for constants and
    /// fields.
    Array,
    /// An object. Its value is an identifier.
    Object,
    /// A boolean: one byte, of any value.
    Boolean,
    /// A UTF-16 code unit.
    Char,
    /// A 32-bit floating-point number.
    Float,
    /// A 64-bit floating-point number.
    Double,
    /// A signed 8-bit number.
    Byte,
    /// A signed 16-bit number.
    Short,
    /// A signed 32-bit number.
    Int,
    /// A signed 64-bit number.
    Long,
}

impl Basic {
    ghost use Rattle.hprof_values.specs.declared.basic.Basic.{Basic};
    ghost use Rattle.hprof_values.specs.Basic.{code_of_basic, basic_of_code, width_of_basic};

    /// Returns the code of the type in a dump.
    pub fn code(self) -> u8
        ensures { result ≡ code_of_basic self }
    {
        match self {
            Basic::Array => 1,
            Basic::Object => 2,
            Basic::Boolean => 4,
            Basic::Char => 5,
            Basic::Float => 6,
            Basic::Double => 7,
            Basic::Byte => 8,
            Basic::Short => 9,
            Basic::Int => 10,
            Basic::Long => 11,
        }
    }

    /// Returns the type with this code, or `None` if there is none.
    #[inline(always)]
    pub fn from_code(code: u8) -> Option<Basic>
        ensures exact { result ≡ basic_of_code code }
        ensures both { (basic : Basic) → (result ≡ Some basic) ↔ (code ≡ code_of_basic basic) }
    {
        match code {
            1 => Some(Basic::Array),
            2 => Some(Basic::Object),
            4 => Some(Basic::Boolean),
            5 => Some(Basic::Char),
            6 => Some(Basic::Float),
            7 => Some(Basic::Double),
            8 => Some(Basic::Byte),
            9 => Some(Basic::Short),
            10 => Some(Basic::Int),
            11 => Some(Basic::Long),
            _ => None,
        }
    }

    /// Returns the number of bytes of a value of the type.
    #[inline(always)]
    pub fn width(self, ids: IdSize) -> u32
        ensures { result ≡ width_of_basic ids self }
    {
        match self {
            Basic::Array | Basic::Object => ids.width() as u32,
            Basic::Boolean | Basic::Byte => 1,
            Basic::Char | Basic::Short => 2,
            Basic::Float | Basic::Int => 4,
            Basic::Double | Basic::Long => 8,
        }
    }
}
