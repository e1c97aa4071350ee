//! The next object of a part.

ghost use Rattle.std.specs.Prelude.{◌≡◌, ◌∷◌, ℕ, List, IfOk, IfErr, OnOk};
ghost use Rattle.hprof_facts.specs.FactReader.{CanAdvance, source_of, spelled_of};
ghost use Rattle.hprof_merge.specs.Rows.{ByteRow};
ghost use Rattle.hprof_objects.specs.ReadAgain.{CannotRead, HasObjects};
ghost use Rattle.hprof_objects.specs.StretchFault.{ByFault};

use crate::stretch_fault::StretchFault;
use hprof_devices::Source;
use hprof_facts::FactReader;

/// Goes past the facts that are no objects to the next object, and returns its identifier.
#[inline(always)]
pub(crate) fn next_object<R: Source + Drop>(reader: &mut FactReader<R>) -> Result<u64, StretchFault>
    requires { CanAdvance R.health reader.old }
    ensures can { OnOk result (CanAdvance R.health reader.new) }
    ensures next { IfOk result (λ id. (reads : ℕ) (row : ByteRow) (rows : List ByteRow)
        → HasObjects R.left R.health R.pulls reads reader.old (row ∷ rows)
        → (row ≡ (id, spelled_of reader.new)) × HasObjects R.left R.health R.pulls reads reader.new rows) }
    ensures fault { IfErr result (λ fault. ByFault fault
        ((reads : ℕ) (row : ByteRow) (rows : List ByteRow) → HasObjects R.left R.health R.pulls reads reader.old (row ∷ rows)
        → CannotRead R.health R.pulls reads (source_of reader.new))
        ((reads : ℕ) (row : ByteRow) (rows : List ByteRow) → HasObjects R.left R.health R.pulls reads reader.old (row ∷ rows) → ⊥)) }
{
    for _ in 0..u64::MAX {
        match reader.advance() {
            Ok(true) => {
                if let Some(id) = reader.object_id() {
                    return Ok(id);
                }
            }
            Ok(false) => return Err(StretchFault::Changed),
            Err(fault) => return Err(StretchFault::of(fault)),
        }
    }
    // No part has so many facts.
    Err(StretchFault::Read)
}
