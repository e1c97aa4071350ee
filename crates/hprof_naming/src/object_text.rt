//! Finding the text of an object.

ghost use Rattle.std.specs.Prelude.{◌≡◌, IfOk};
ghost use Rattle.hprof_heap.specs.HeapFacts.{facts_of, size_of};
ghost use Rattle.hprof_heap.specs.ObjectDump.{fact_of_object};
ghost use Rattle.hprof_layouts.specs.Fields.{AreFields, FieldsValue};
ghost use Rattle.hprof_naming.specs.Texts.{IsFirstNamed, IsInstanceText, IsStringText, IsText};
ghost use Rattle.hprof_naming.specs.Texts.{array_text, is_wide_coder, target_of_field, text_value};

use crate::called::is_named;
use crate::text::{Coding, Text, Units};
use hprof_heap::{Heap, ObjectDump, find_class, find_object};
use hprof_layouts::{FieldValue, Fields, fields, refers};
use hprof_values::Basic;
use std::alloc::{AllocError, Global};

/// Returns the first of the values whose name has exactly these bytes, or `None` if there is none.
pub fn first_named(heap: &Heap, word: &[u8], values: &[FieldValue]) -> Option<FieldValue>
    ensures { IsFirstNamed (facts_of heap.now) word.now values.now result }
{
    for value in values {
        if is_named(heap, value.name, word) {
            return Some(*value);
        }
    }
    None
}

/// Returns whether the field `coder` says that the bytes of a string are UTF-16.
fn is_wide_coder(coder: Option<FieldValue>) -> bool
    ensures { result ≡ is_wide_coder coder }
{
    match coder {
        Some(coder) => matches!(coder.basic, Basic::Byte) && coder.bits == 1,
        None => false,
    }
}

/// Returns the identifier that a field refers to, or 0 if it refers to nothing.
pub fn target_of_field(field: Option<FieldValue>) -> u64
    ensures { result ≡ target_of_field field }
{
    match field {
        Some(field) if refers(field.basic) => field.bits,
        _ => 0,
    }
}

/// Returns the text of an array. The bytes borrow from the heap.
fn array_text<'a>(is_wide: bool, dump: ObjectDump<'a>) -> Text<'a>
    ensures { text_value result ≡ array_text is_wide (fact_of_object dump.entry) }
{
    let ObjectDump::PrimArray { elem, bytes, .. } = dump else {
        return Text::NoText;
    };
    let coding = match elem {
        Basic::Char => Coding::Chars,
        Basic::Byte if !is_wide => Coding::Latin1,
        Basic::Byte if bytes.len() % 2 == 0 => Coding::Utf16,
        _ => return Text::NoText,
    };
    Text::Units(Units { bytes, coding })
}

/// Returns the text of an instance with these values.
fn string_text<'a>(heap: &'a Heap, values: &[FieldValue]) -> Text<'a>
    ensures { IsStringText (facts_of heap.now) values.now (text_value result) }
{
    let value = first_named(heap, b"value", values);
    let coder = first_named(heap, b"coder", values);
    let target = target_of_field(value);
    match find_object(heap, target) {
        Some(array) if target != 0 => array_text(is_wide_coder(coder), array),
        _ => Text::NoText,
    }
}

/// Returns the text of an instance.
fn instance_text<'a>(alloc: Global, heap: &'a Heap, id: u64) -> Result<Text<'a>, AllocError>
    ensures { IfOk result (λ text. (fields : FieldsValue) × AreFields (size_of heap.now) (facts_of heap.now) id fields
        × IsInstanceText (facts_of heap.now) fields (text_value text)) }
{
    match fields(alloc, heap, id)? {
        Fields::Values(values) => Ok(string_text(heap, &values)),
        _ => Ok(Text::NoText),
    }
}

/// Returns the text of an identifier. Its bytes borrow from the heap.
///
/// - A char array: its elements.
/// - A byte array: its bytes, as Latin-1.
/// - An instance: the text of the char or byte array that its first field `value` refers to. If its first field `coder` is of type byte and
///   has the bits 1, the bytes are UTF-16, little-endian, and an odd number of them is no text; otherwise they are Latin-1.
/// - Any other class or object: [`Text::NoText`].
/// - An identifier without a class dump and an object dump: [`Text::Nothing`].
///
/// If the identifier has both dumps, the object dump is used. A field that is 0 refers to nothing. If memory runs out, the answer is
/// `AllocError`.
pub fn text_of<'a>(alloc: Global, heap: &'a Heap, id: u64) -> Result<Text<'a>, AllocError>
    ensures { IfOk result (λ text. IsText (size_of heap.now) (facts_of heap.now) id (text_value text)) }
{
    match find_object(heap, id) {
        Some(dump) => match dump {
            ObjectDump::Instance { .. } => instance_text(alloc, heap, id),
            _ => Ok(array_text(false, dump)),
        },
        None => match find_class(heap, id) {
            Some(_) => Ok(Text::NoText),
            None => Ok(Text::Nothing),
        },
    }
}
