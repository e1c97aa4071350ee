//! The classes that have weak fields.

ghost use Rattle.std.specs.Prelude.{IfOk, OnOk, List};
ghost use Rattle.std.specs.BTreeMap.{get};
ghost use Rattle.std.specs.Ordering.{nat_cmp};
ghost use Rattle.hprof_items.specs.FactValue.{FactValue};
ghost use Rattle.hprof_rows.specs.Conflict.{IsConsistent};
ghost use Rattle.hprof_weak.specs.Strengths.{AreStrengths};
ghost use Rattle.hprof_weak.specs.WeakClasses.{AreWeakClasses, PutsFirst};

use crate::links::{Link, Links};
use crate::strengths::{Strength, Strengths};
use std::alloc::{AllocError, Global};
use std::collections::BTreeMap;

/// The classes that have weak fields, each with the first of them.
#[derive(Drop)]
pub(crate) struct WeakClasses {
    pub(crate) links: Links,
    pub(crate) firsts: BTreeMap<u64, Link>,
}

/// Puts a class with its first referent, if its referents are cleared and it has one. If memory runs out, the answer is `AllocError` and
/// the map is unspecified.
fn put_first(firsts: &mut BTreeMap<u64, Link>, strength: Strength) -> Result<(), AllocError>
    ensures { OnOk result (PutsFirst strength (get nat_cmp firsts.old) (get nat_cmp firsts.new)) }
{
    let Some(first) = strength.first else {
        return Ok(());
    };
    if strength.is_cleared {
        firsts.insert(strength.class, first)?;
    }
    Ok(())
}

/// Returns those of the classes whose referents are cleared and that have one.
pub(crate) fn weak_classes(alloc: Global, strengths: Strengths) -> Result<WeakClasses, AllocError>
    ensures { IfOk result (λ classes. (facts : List FactValue) → IsConsistent facts → AreStrengths facts strengths
        → AreWeakClasses facts classes) }
{
    let mut firsts = BTreeMap::new(alloc);
    for strength in strengths.order.iter() {
        put_first(&mut firsts, *strength)?;
    }
    Ok(WeakClasses {
        links: strengths.links,
        firsts,
    })
}
