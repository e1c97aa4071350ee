//! Writing any fact.

ghost use Rattle.std.specs.Prelude.{◌≡◌};
ghost use Rattle.hprof_devices.specs.declared.health.Health.TheVariants.{Well};
ghost use Rattle.hprof_items.specs.Spelling.{spelling, Fits};
ghost use Rattle.hprof_items.specs.FactValue.{value_of, ListsHave};
ghost use Rattle.hprof_devices.specs.Device.{Writes, LeavesHealth};

use crate::class_writing::write_class;
use crate::object_writing::write_sub;
use crate::record_writing::write_stated;
use hprof_devices::{Target, WriteFault};
use hprof_items::Fact;
use hprof_values::IdSize;

/// Writes the record or the sub-record of a fact. Does not flush. If this fails, a prefix of it was written.
pub fn write_fact<W: Target>(fact: &Fact<'_>, ids: IdSize, target: &mut W) -> Result<(), WriteFault>
    requires well { W.health target.old ≡ Well }
    requires fits { Fits ids (value_of fact.now) }
    requires lists { ListsHave ids fact.now }
    ensures bytes { Writes (W.written target.old) (W.written target.new) result (spelling ids (value_of fact.now)) }
    ensures health { LeavesHealth result (W.health target.new) }
{
    match *fact {
        // An arm for each form: with `write_stated` and `write_sub` in place, its fields are known there.
        Fact::Name { .. } => write_stated(fact, ids, target),
        Fact::Load { .. } => write_stated(fact, ids, target),
        Fact::Unload { .. } => write_stated(fact, ids, target),
        Fact::Frame { .. } => write_stated(fact, ids, target),
        Fact::Trace { .. } => write_stated(fact, ids, target),
        Fact::Start { .. } => write_stated(fact, ids, target),
        Fact::End { .. } => write_stated(fact, ids, target),
        Fact::Root(_) => write_sub(fact, ids, target),
        Fact::Instance { .. } => write_sub(fact, ids, target),
        Fact::ObjArray { .. } => write_sub(fact, ids, target),
        Fact::PrimArray { .. } => write_sub(fact, ids, target),
        Fact::Class { .. } => write_class(fact, ids, target),
    }
}
