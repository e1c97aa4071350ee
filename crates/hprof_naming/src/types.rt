//! The printed names of types.

ghost use Rattle.std.specs.Prelude.{◌≡◌};
ghost use Rattle.hprof_naming.specs.TypeWord.{type_word};

use hprof_values::Basic;

/// Returns the name of a type, from the basic types of heapDumper.cpp, "HPROF binary format".
pub fn type_word(basic: Basic) -> &'static str
    ensures { result.now ≡ type_word basic }
{
    match basic {
        Basic::Array => "array",
        Basic::Object => "object",
        Basic::Boolean => "boolean",
        Basic::Char => "char",
        Basic::Float => "float",
        Basic::Double => "double",
        Basic::Byte => "byte",
        Basic::Short => "short",
        Basic::Int => "int",
        Basic::Long => "long",
    }
}
