//! What is counted and listed of an object.

ghost use Rattle.std.specs.Prelude.{◌≡◌, length, IfSome};
ghost use Rattle.std.specs.Option.{option_map};
ghost use Rattle.hprof_items.specs.FactValue.{value_of};
ghost use Rattle.hprof_histogram.specs.Histogram.{object_kind, size_of_object};
ghost use Rattle.hprof_histogram.specs.Objects.{id_of_object};

use crate::row::Kind;
use hprof_items::Fact;
use hprof_values::IdSize;

/// The identifier of an object, its kind, and the number of bytes of its fields or elements.
#[derive(Clone, Copy)]
pub(crate) struct Measured {
    pub(crate) id: u64,
    pub(crate) kind: Kind,
    pub(crate) size: u128,
}

/// Returns the number of bytes.
#[inline(always)]
fn size_of_bytes(bytes: &[u8]) -> u128
    ensures { result ≡ length bytes.now }
{
    bytes.len() as u128
}

/// Measures an object. Returns `None` if the fact is no object dump.
#[inline(always)]
pub(crate) fn measure(fact: &Fact<'_>, ids: IdSize) -> Option<Measured>
    ensures kind { option_map (λ object. object.kind) result ≡ object_kind (value_of fact.now) }
    ensures size { IfSome result (λ object. object.size ≡ size_of_object ids (value_of fact.now)) }
    ensures id { IfSome result (λ object. object.id ≡ id_of_object (value_of fact.now)) }
{
    match *fact {
        Fact::Instance {
            id,
            class,
            bytes,
            ..
        } => {
            let kind = Kind::Class(class);
            let size = size_of_bytes(bytes);
            Some(Measured { id, kind, size })
        }
        Fact::ObjArray {
            id,
            class,
            elements,
            ..
        } => {
            let kind = Kind::Class(class);
            let size = elements.len() as u128 * ids.width() as u128;
            Some(Measured { id, kind, size })
        }
        Fact::PrimArray {
            id,
            elem,
            bytes,
            ..
        } => {
            let kind = Kind::Prim(elem);
            let size = size_of_bytes(bytes);
            Some(Measured { id, kind, size })
        }
        _ => None,
    }
}
