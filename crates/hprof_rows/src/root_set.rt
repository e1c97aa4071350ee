//! The set of GC roots.

ghost use Rattle.std.specs.Prelude.{◌≡◌, ◌↔◌, [], length, false, IfOk, OnErr, IsTrue};
ghost use Rattle.std.specs.List.{list_any};
ghost use Rattle.std.specs.BTreeMap.{is_at};
ghost use Rattle.std.specs.List.Sorted.{IsStrictlySortedBy, IsStrictlySortedBy-prop};
ghost use Rattle.hprof_rows.specs.Order.{root_cmp};

use hprof_tables::Stated;
use hprof_values::Root;
use std::alloc::{AllocError, Global};
use std::collections::{BTreeSet, btree_set};

/// GC roots, each once, ordered as the bytes that encode them.
#[derive(Drop)]
pub struct RootSet {
    roots: BTreeSet<Root>,
    alloc: Global,
    ghost sound: { IsStrictlySortedBy root_cmp roots.keys } by { IsStrictlySortedBy-prop root_cmp roots.keys },
}

impl RootSet {
    ghost use Rattle.hprof_rows.specs.RootSet.{roots_of, IsUnionOfRoots, LacksRoot, StatesRoot};

    /// Returns an empty set. Allocates nothing.
    pub fn new(alloc: Global) -> Self
        ensures { roots_of result ≡ [] }
    {
        RootSet {
            roots: BTreeSet::new(alloc),
            alloc,
        }
    }

    /// States a root. If it is present, nothing is allocated.
    pub fn state(&mut self, root: Root) -> Result<Stated, AllocError>
        ensures ok { IfOk result (λ stated. StatesRoot (roots_of self.old) root stated (roots_of self.new)) }
        ensures err { OnErr result (roots_of self.new ≡ roots_of self.old) }
        ensures absent { OnErr result (list_any (is_at (root_cmp root)) (roots_of self.old) ≡ false) }
    {
        match self.roots.insert(root) {
            Ok(true) => Ok(Stated::New),
            Ok(false) => Ok(Stated::Same),
            Err(_) => Err(AllocError),
        }
    }

    /// Returns the number of roots.
    pub fn len(&self) -> usize
        ensures { result ≡ length (roots_of self.now) }
    {
        self.roots.len()
    }

    /// Returns whether there is no root.
    pub fn is_empty(&self) -> bool
        ensures { IsTrue result ↔ (roots_of self.now ≡ []) }
    {
        self.len() == 0
    }

    /// Returns whether both sets have the same roots.
    pub fn same(&self, other: &Self) -> bool
        ensures { IsTrue result ↔ (roots_of self.now ≡ roots_of other.now) }
    {
        self.roots == other.roots
    }

    /// Adds the roots of another set, in one pass over both. If none is new, nothing is allocated. If memory runs out, the set is
    /// unchanged.
    pub fn join(&mut self, other: &Self) -> Result<(), AllocError>
        ensures ok { IfOk result (λ _. IsUnionOfRoots (roots_of self.old) (roots_of other.now) (roots_of self.new)) }
        ensures err { OnErr result (roots_of self.new ≡ roots_of self.old) }
        ensures absent { OnErr result (LacksRoot (roots_of self.old) (roots_of other.now)) }
        ensures unchanged { IfOk result (λ _. (LacksRoot (roots_of self.old) (roots_of other.now) → ⊥) → self.new ≡ self.old) }
    {
        if other.roots.is_subset(&self.roots) {
            return Ok(());
        }
        let all = self.roots.union(&other.roots).copied().collect(self.alloc)?;
        self.roots = all;
        Ok(())
    }

    /// Returns an iterator over the roots, in order.
    pub fn iter(&self) -> btree_set::Iter<'_, Root>
        ensures { result ≡ roots_of self.now }
    {
        self.roots.iter()
    }
}
