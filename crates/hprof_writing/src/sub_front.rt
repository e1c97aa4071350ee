//! The fields of the sub-record of a root, an instance or an array, and the bytes after them.

ghost use Rattle.std.specs.Prelude.{◌≡◌, ◌≤◌, [], take, IfSome, None};
ghost use Rattle.hprof_values.specs.declared.ids.IdSize.{IdSize};
ghost use Rattle.hprof_values.specs.Numbers.{number_widths, number_values};
ghost use Rattle.hprof_values.specs.Root.{tag_of_root, root_widths, root_numbers};
ghost use Rattle.hprof_items.specs.Spelling.{Fits};
ghost use Rattle.hprof_items.specs.FactValue.{value_of, ListsHave};
ghost use Rattle.hprof_writing.specs.SubFronts.{HasSubFront, IsSubFront};

use crate::front_parts::{NO_FIELD, in_range};
use hprof_items::Fact;
use hprof_values::Number::{Four, Id, One};
use hprof_values::{Basic, IdSize, Number, Root, SubTag};

/// The tag of a sub-record, the fields after it, and the bytes after them.
#[derive(Clone, Copy)]
pub(crate) struct SubFront<'a> {
    /// The tag.
    pub tag: SubTag,
    /// The fields, followed by unused ones.
    pub fields: [Number; 4],
    /// The number of used fields.
    pub count: usize,
    /// The bytes after the fields.
    pub more: &'a [u8],
}

/// Returns the tag and the fields of a root's sub-record. No bytes follow them.
#[inline(always)]
fn root_front<'a>(root: Root) -> SubFront<'a>
    ensures few { result.count ≤ 4 }
    ensures tag { result.tag ≡ tag_of_root root }
    ensures widths { (ids : IdSize) → number_widths ids (take result.count result.fields) ≡ root_widths ids root }
    ensures numbers { number_values (take result.count result.fields) ≡ root_numbers root }
    ensures behind { result.more.now ≡ [] }
{
    let none = NO_FIELD;
    let (fields, count) = match root {
        Root::JniGlobal { id, reference } => ([Id(id), Id(reference), none, none], 2),
        Root::JniLocal { id, thread, frame }
        | Root::JavaFrame { id, thread, frame }
        | Root::ThreadObject {
            id,
            thread,
            trace: frame,
        } => ([Id(id), Four(thread), Four(frame), none], 3),
        Root::NativeStack { id, thread } | Root::Block { id, thread } => {
            ([Id(id), Four(thread), none, none], 2)
        }
        Root::Sticky { id } | Root::Monitor { id } | Root::Unknown { id } => {
            ([Id(id), none, none, none], 1)
        }
    };
    SubFront {
        tag: root.tag(),
        fields,
        count,
        more: &[],
    }
}

/// Returns the tag, the fields and the bytes of a fact's sub-record, or `None` if it cannot be encoded: its elements have identifiers of
/// another size, are too many for the field that counts them, are cut, or have a type that elements cannot have.
#[inline(always)]
pub(crate) fn sub_front<'a>(fact: &Fact<'a>, ids: IdSize) -> Option<SubFront<'a>>
    requires has { HasSubFront (value_of fact.now) }
    ensures few { IfSome result (λ front. front.count ≤ 4) }
    ensures some { IfSome result (λ front. IsSubFront ids fact.now front.tag (take front.count front.fields) front.more.now) }
    ensures none { result ≡ None → Fits ids (value_of fact.now) → ListsHave ids fact.now → ⊥ }
{
    match *fact {
        Fact::Root(root) => Some(root_front(root)),
        Fact::Instance {
            id,
            trace,
            class,
            bytes,
        } => {
            let Ok(len) = u32::try_from(bytes.len()) else {
                return None;
            };
            Some(SubFront {
                tag: SubTag::InstanceDump,
                fields: [Id(id), Four(trace), Id(class), Four(len)],
                count: 4,
                more: in_range(bytes),
            })
        }
        Fact::ObjArray {
            id,
            trace,
            class,
            elements,
        } => {
            if elements.id_size() != ids {
                return None;
            }
            let Ok(count) = u32::try_from(elements.len()) else {
                return None;
            };
            Some(SubFront {
                tag: SubTag::ObjArrayDump,
                fields: [Id(id), Four(trace), Four(count), Id(class)],
                count: 4,
                more: elements.bytes(),
            })
        }
        Fact::PrimArray {
            id,
            trace,
            elem,
            bytes,
        } => {
            if elem == Basic::Array || elem == Basic::Object {
                return None;
            }
            let width = elem.width(ids) as usize;
            if bytes.len() % width != 0 {
                return None;
            }
            let Ok(count) = u32::try_from(bytes.len() / width) else {
                return None;
            };
            Some(SubFront {
                tag: SubTag::PrimArrayDump,
                fields: [Id(id), Four(trace), Four(count), One(elem.code())],
                count: 4,
                more: in_range(bytes),
            })
        }
        _ => unreachable!(),
    }
}
