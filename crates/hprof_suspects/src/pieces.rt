//! What the parts right below each part retain.

ghost use Rattle.std.specs.Prelude.{◌≡◌, List, IfOk, length};
ghost use Rattle.hprof_values.specs.declared.ids.IdSize.{IdSize};
ghost use Rattle.hprof_items.specs.FactValue.{FactValue};
ghost use Rattle.hprof_rows.specs.Conflict.{IsConsistent};
ghost use Rattle.hprof_numbers.specs.Numbers.{items_in};
ghost use Rattle.hprof_retained.specs.Tree.{IsTreeOf, count_of};
ghost use Rattle.hprof_suspects.specs.Heads.{AreHeads, HeadsFit};
ghost use Rattle.hprof_suspects.specs.PartPlaces.{AreParts};
ghost use Rattle.hprof_suspects.specs.Pieces.{ArePartSums, SumsFit};

use crate::large::over;
use hprof_numbers::Numbers;
use hprof_retained::Retained;
use std::alloc::{AllocError, Global};

/// Returns for each place the bytes that the parts right below it retain. If memory runs out, the answer is `AllocError`.
pub(crate) fn part_sums(
    alloc: Global,
    retained: &Retained,
    heads: &Numbers,
    parts: &Vec<bool>,
) -> Result<Vec<u128>, AllocError>
    requires heads { HeadsFit retained.now (items_in heads.now) }
    requires as_many { length parts.now.items ≡ count_of retained.now }
    ensures fit { IfOk result (λ sums. SumsFit retained.now sums.items) }
    ensures sums { (ids : IdSize) (facts : List FactValue) → IsConsistent facts → IsTreeOf ids facts retained.now
        → AreHeads ids facts retained.now (items_in heads.now) → AreParts ids facts retained.now parts.now.items
        → IfOk result (λ sums. ArePartSums ids facts retained.now sums.items) }
{
    let mut sums: Vec<u128> = vec![in alloc; 0; retained.len()]?;
    for place in 1..retained.len() {
        if parts[place] {
            // No sum is more than what the group retains.
            let group = over(retained, heads, place);
            let most = retained.bytes(group);
            let sum = sums[group].saturating_add(retained.bytes(place));
            sums[group] = sum.min(most);
        }
    }
    Ok(sums)
}
