//! Values as people read them.

ghost use Rattle.std.specs.Prelude.{◌≡◌, IfOk, string_bytes};
ghost use Rattle.hprof_heap.specs.HeapFacts.{facts_of, size_of};
ghost use Rattle.hprof_naming.specs.ClassNames.{AreClassNames};
ghost use Rattle.hprof_describe.specs.Findings.{AreFindings, Findings};
ghost use Rattle.hprof_describe.specs.Values.{boolean_text, char_text, value_text};

use crate::references::reference_text;
use hprof_heap::Heap;
use hprof_naming::ClassNames;
use hprof_text::{double_text, float_text, push_unit};
use hprof_values::Basic;
use std::alloc::{AllocError, Global};

/// The number of values of one byte.
const ONE_BYTE: u64 = 0x100;

/// The number of values of two bytes.
const TWO_BYTES: u64 = 0x1_0000;

/// The number of values of four bytes.
const FOUR_BYTES: u64 = 0x1_0000_0000;

/// Returns a boolean in print: `false`, `true`, or another byte in decimal.
fn boolean_text(alloc: Global, bits: u64) -> Result<String, AllocError>
    ensures { IfOk result (λ text. string_bytes text ≡ boolean_text bits) }
{
    match bits {
        0 => String::from_str(alloc, "false"),
        1 => String::from_str(alloc, "true"),
        _ => format!(in alloc; "{bits}"),
    }
}

/// Returns a character in print, between two `'`.
fn char_text(alloc: Global, bits: u64) -> Result<String, AllocError>
    ensures { IfOk result (λ text. string_bytes text ≡ char_text bits) }
{
    let mut unit = Vec::new(alloc);
    push_unit(&mut unit, (bits % TWO_BYTES) as u16)?;
    let unit = String::from_utf8(unit).unwrap();
    format!(in alloc; "'{unit}'")
}

/// Returns a value in print. A boolean is `false`, `true`, or another byte in decimal. A character stands between two `'`. A byte, a short,
/// an int and a long are in decimal, with their signs. A float and a double are as Java's `toHexString` prints them. A reference is as
/// [`reference_text`] prints it.
///
/// Of `bits` as many are taken as the type has. `classes` are the names of the heap's classes. If memory runs out, the answer is
/// `AllocError`.
#[tactic(auto, unfolding(crate::specs::Values::value_text))]
pub fn value_text(
    alloc: Global,
    heap: &Heap,
    classes: &ClassNames,
    basic: Basic,
    bits: u64,
) -> Result<String, AllocError>
    requires { AreClassNames (facts_of heap.now) classes.now }
    ensures { (found : Findings) → AreFindings (size_of heap.now) (facts_of heap.now) found
        → IfOk result (λ text. string_bytes text ≡ value_text found basic bits) }
{
    match basic {
        Basic::Array | Basic::Object => reference_text(alloc, heap, classes, bits),
        Basic::Boolean => boolean_text(alloc, bits),
        Basic::Char => char_text(alloc, bits),
        Basic::Float => String::from_str(alloc, &float_text((bits % FOUR_BYTES) as u32)),
        Basic::Double => String::from_str(alloc, &double_text(bits)),
        Basic::Byte => {
            let number = ((bits % ONE_BYTE) as u8).cast_signed();
            format!(in alloc; "{number}")
        }
        Basic::Short => {
            let number = ((bits % TWO_BYTES) as u16).cast_signed();
            format!(in alloc; "{number}")
        }
        Basic::Int => {
            let number = ((bits % FOUR_BYTES) as u32).cast_signed();
            format!(in alloc; "{number}")
        }
        Basic::Long => {
            let number = bits.cast_signed();
            format!(in alloc; "{number}")
        }
    }
}
