//! The lines of a class dump.

ghost use Rattle.std.specs.Prelude.{◌≡◌, IfOk, string_bytes};
ghost use Rattle.hprof_heap.specs.HeapFacts.{facts_of};
ghost use Rattle.hprof_heap.specs.ClassDump.{class_value};
ghost use Rattle.hprof_naming.specs.Naming.{IsNaming, Naming};
ghost use Rattle.hprof_reports.specs.ObjectText.{class_line, constant_line, line_from_signers, line_to_loader, own_line, static_line};

use crate::entries::Entry;
use crate::shown::bits_text;
use hprof_heap::{ClassDump, Heap, id_size};
use hprof_naming::{class_label, name_text, type_word};
use hprof_values::{Constant, Field, Static};
use std::alloc::{AllocError, Global};

/// Returns the line of a class that has this label, from its signers on.
fn line_from_signers(alloc: Global, dump: &ClassDump<'_>, label: &str) -> Result<String, AllocError>
    ensures { IfOk result (λ line. string_bytes line ≡ line_from_signers (class_value dump.now) label.now) }
{
    let ClassDump {
        signers,
        domain,
        size,
        ..
    } = *dump;
    format!(in alloc; "signers {signers:x} domain {domain:x} size {size} {label}\n")
}

/// Returns the line of a class, of which the end is given.
fn line_to_loader(alloc: Global, dump: &ClassDump<'_>, end: &str) -> Result<String, AllocError>
    ensures { IfOk result (λ line. string_bytes line ≡ line_to_loader (class_value dump.now) end.now) }
{
    let ClassDump {
        id,
        parent,
        loader,
        ..
    } = *dump;
    format!(in alloc; "class {id:x} super {parent:x} loader {loader:x} {end}")
}

/// Returns the line of a class. If memory runs out, the answer is `AllocError`.
pub(crate) fn class_line(
    alloc: Global,
    heap: &Heap,
    dump: &ClassDump<'_>,
) -> Result<String, AllocError>
    ensures { (naming : Naming) → IsNaming (facts_of heap.now) naming
        → IfOk result (λ line. string_bytes line ≡ class_line naming (class_value dump.now)) }
{
    let label = class_label(alloc, heap, dump.id)?;
    let end = line_from_signers(alloc, dump, &label)?;
    line_to_loader(alloc, dump, &end)
}

impl Entry for Constant {
    ghost line_at = { λ naming. constant_line };

    fn line(&self, alloc: Global, heap: &Heap, place: u64) -> Result<String, AllocError> {
        let Constant { index, value } = *self;
        let word = type_word(value.basic);
        let bits = bits_text(alloc, id_size(heap), value.basic, value.bits)?;
        format!(in alloc; "constant {place} {index} {word} {bits}\n")
    }
}

impl Entry for Static {
    ghost line_at = { static_line };

    fn line(&self, alloc: Global, heap: &Heap, place: u64) -> Result<String, AllocError> {
        let Static { name, value } = *self;
        let word = type_word(value.basic);
        let bits = bits_text(alloc, id_size(heap), value.basic, value.bits)?;
        let name = name_text(alloc, heap, name)?;
        format!(in alloc; "static {place} {word} {bits} {name}\n")
    }
}

impl Entry for Field {
    ghost line_at = { λ naming ids. own_line naming };

    fn line(&self, alloc: Global, heap: &Heap, place: u64) -> Result<String, AllocError> {
        let Field { name, basic } = *self;
        let word = type_word(basic);
        let name = name_text(alloc, heap, name)?;
        format!(in alloc; "own {place} {word} {name}\n")
    }
}
