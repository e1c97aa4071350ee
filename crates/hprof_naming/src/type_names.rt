//! Reading the words that name primitive types and arrays of these.

ghost use Rattle.std.specs.Prelude.{◌≡◌};
ghost use Rattle.hprof_naming.specs.TypeNames.{arrays_named, is_array_word, type_letter, type_named};

use crate::types::type_word;
use hprof_values::Basic;

/// The primitive types.
const PRIMITIVE_TYPES: [Basic; 8] = [
    Basic::Boolean,
    Basic::Char,
    Basic::Float,
    Basic::Double,
    Basic::Byte,
    Basic::Short,
    Basic::Int,
    Basic::Long,
];

/// Returns the letter with which descriptors of the type begin (Java Virtual Machine Specification, section 4.3.2).
pub(crate) fn type_letter(basic: Basic) -> &'static str
    ensures { result.now ≡ type_letter basic }
{
    match basic {
        Basic::Array => "[",
        Basic::Object => "L",
        Basic::Boolean => "Z",
        Basic::Char => "C",
        Basic::Float => "F",
        Basic::Double => "D",
        Basic::Byte => "B",
        Basic::Short => "S",
        Basic::Int => "I",
        Basic::Long => "J",
    }
}

/// Returns the primitive type that has this word, or `None` if there is none.
pub(crate) fn type_named(text: &[u8]) -> Option<Basic>
    ensures { result ≡ type_named text.now }
{
    PRIMITIVE_TYPES
        .iter()
        .copied()
        .find(|elem| type_word(*elem).as_bytes() == text)
}

/// Returns whether the word is for arrays of the type.
fn is_array_word(elem: Basic, word: &[u8]) -> bool
    ensures { result ≡ is_array_word elem word.now }
{
    let before_pair = word.strip_suffix(b"[]");
    let behind_bracket = word.strip_prefix(b"[");
    before_pair.is_some_and(|text| text == type_word(elem).as_bytes())
        || behind_bracket.is_some_and(|letter| letter == type_letter(elem).as_bytes())
}

/// Returns the primitive type whose arrays a word names, such as `byte[]` or `[B`, or `None` if it names none.
pub fn arrays_named(word: &[u8]) -> Option<Basic>
    ensures { result ≡ arrays_named word.now }
{
    PRIMITIVE_TYPES
        .iter()
        .copied()
        .find(|elem| is_array_word(*elem, word))
}
