//! The fields and the lists of a class dump.

ghost use Rattle.std.specs.Prelude.{◌≡◌, ◌↔◌, IsTrue, IfSome, Some, None};
ghost use Rattle.hprof_values.specs.declared.sub_tag.SubTag.TheVariants as tags;
ghost use Rattle.hprof_values.specs.declared.entry.EntryKind.TheVariants as kinds;
ghost use Rattle.hprof_values.specs.Entries.{ListFits};
ghost use Rattle.hprof_values.specs.Lists.{entries_of, entries_size};
ghost use Rattle.hprof_items.specs.ObjectTag.{object_of};
ghost use Rattle.hprof_items.specs.FactValue.{value_of, ListsHave};
ghost use Rattle.hprof_writing.specs.ClassFronts.{counted, IsClassFront};

use hprof_items::Fact;
use hprof_values::Number::{Four, Id, One};
use hprof_values::{ConstantList, FieldList, IdSize, Number, StaticList, SubTag};

/// A list of a class dump: the number of its entries, and their bytes.
#[derive(Clone, Copy)]
pub(crate) struct ListFront<'a> {
    /// The number of entries.
    pub count: u16,
    /// The bytes of the entries.
    pub bytes: &'a [u8],
}

/// The tag, the fields and the lists of a class dump.
#[derive(Clone, Copy)]
pub(crate) struct ClassFront<'a> {
    /// The tag, and the fields after it.
    pub fields: [Number; 10],
    /// The constants.
    pub constants: ListFront<'a>,
    /// The static fields.
    pub statics: ListFront<'a>,
    /// The own instance fields.
    pub own: ListFront<'a>,
}

/// Returns whether the lists of a class dump have identifiers of this size, so that it can be encoded.
fn lists_fit(
    constants: &ConstantList<'_>,
    statics: &StaticList<'_>,
    fields: &FieldList<'_>,
    ids: IdSize,
) -> bool
    ensures sizes { IsTrue result ↔ ((entries_size constants.now ≡ ids) × (entries_size statics.now ≡ ids)
        × (entries_size fields.now ≡ ids)) }
    ensures fit { IsTrue result → (ListFits ids kinds.Constant (entries_of constants.now)
        × ListFits ids kinds.Static (entries_of statics.now) × ListFits ids kinds.Field (entries_of fields.now)) }
{
    if constants.id_size() != ids {
        return false;
    }
    if statics.id_size() != ids {
        return false;
    }
    fields.id_size() == ids
}

/// Returns the fields and the lists of a class dump, or `None` if a list has identifiers of another size. A list is never too long.
pub(crate) fn class_front<'a>(fact: &Fact<'a>, ids: IdSize) -> Option<ClassFront<'a>>
    requires is { object_of (value_of fact.now) ≡ Some tags.ClassDump }
    ensures some { IfSome result (λ front. IsClassFront ids fact.now front.fields (counted front.constants.count front.constants.bytes.now)
        (counted front.statics.count front.statics.bytes.now) (counted front.own.count front.own.bytes.now)) }
    ensures none { result ≡ None → ListsHave ids fact.now → ⊥ }
{
    let Fact::Class {
        id,
        trace,
        parent,
        loader,
        signers,
        domain,
        reserved1,
        reserved2,
        size,
        constants,
        statics,
        fields,
    } = *fact
    else {
        unreachable!()
    };
    if !lists_fit(&constants, &statics, &fields, ids) {
        return None;
    }
    Some(ClassFront {
        fields: [
            One(SubTag::ClassDump.code()),
            Id(id),
            Four(trace),
            Id(parent),
            Id(loader),
            Id(signers),
            Id(domain),
            Id(reserved1),
            Id(reserved2),
            Four(size),
        ],
        constants: ListFront {
            count: constants.len() as u16,
            bytes: constants.bytes(),
        },
        statics: ListFront {
            count: statics.len() as u16,
            bytes: statics.bytes(),
        },
        own: ListFront {
            count: fields.len() as u16,
            bytes: fields.bytes(),
        },
    })
}
