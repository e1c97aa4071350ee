//! The sub-record of a fact, in memory.

ghost use Rattle.std.specs.Prelude.{◌≡◌, [], Some, IfOk, OnOk};
ghost use Rattle.hprof_devices.specs.declared.health.Health.TheVariants.{Well};
ghost use Rattle.hprof_items.specs.FactValue.{ListsHave, value_of};
ghost use Rattle.hprof_items.specs.Spelling.{Fits};
ghost use Rattle.hprof_items.specs.SubRecord.{dump_bytes};
ghost use Rattle.hprof_rows.specs.SubFacts.{is_sub_fact};

use hprof_devices::{Health, Target, WriteFault};
use hprof_items::Fact;
use hprof_values::IdSize;
use hprof_writing::write_fact;
use std::alloc::{AllocError, Global};

/// Bytes in memory. A write fails if memory runs out.
#[derive(Drop)]
struct SubBytes {
    bytes: Vec<u8>,
    health: Health,
}

impl Target for SubBytes {
    ghost written = { λ it. Some it.bytes.items };

    ghost health = { λ it. it.health };

    fn push(&mut self, piece: &[u8]) -> Result<usize, WriteFault> {
        if self.bytes.extend_from_slice(piece).is_err() {
            self.health = Health::Failed;
            return Err(WriteFault::Failed);
        }
        Ok(piece.len())
    }
}

/// Returns whether a sub-record states the fact.
fn is_sub_fact(fact: &Fact<'_>) -> bool
    ensures { result ≡ is_sub_fact (value_of fact.now) }
{
    match fact {
        Fact::Root(_)
        | Fact::Class { .. }
        | Fact::Instance { .. }
        | Fact::ObjArray { .. }
        | Fact::PrimArray { .. } => true,
        _ => false,
    }
}

/// Returns the sub-record that states a fact, without bytes if a record states it. If memory runs out, the answer is `AllocError`.
pub(crate) fn sub_bytes(alloc: Global, fact: &Fact<'_>, ids: IdSize) -> Result<Vec<u8>, AllocError>
    requires fits { Fits ids (value_of fact.now) }
    requires lists { ListsHave ids fact.now }
    ensures { IfOk result (λ bytes. bytes.items ≡ dump_bytes ids (value_of fact.now)) }
{
    let mut sub = SubBytes {
        bytes: Vec::new(alloc),
        health: Health::Well,
    };
    if is_sub_fact(fact) && write_fact(fact, ids, &mut sub).is_err() {
        return Err(AllocError);
    }
    Ok(sub.bytes)
}
