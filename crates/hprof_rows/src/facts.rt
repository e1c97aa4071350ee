//! An iterator over the facts of a table.

ghost use Rattle.hprof_rows.specs.TableRows.{AreReadable, AreReadable-prop};

use crate::table_rows::{TableRows, next_fact, next_fact_into};
use hprof_items::Fact;
use hprof_values::IdSize;

/// An iterator over the facts of a table, in canonical order. The facts borrow from the heap.
#[derive(Drop)]
pub struct Facts<'a> {
    ids: IdSize,
    rows: TableRows<'a>,
    // Each row that is still to come can be read back.
    ghost sound: { AreReadable ids rows } by { AreReadable-prop ids rows },
}

impl<'a> Facts<'a> {
    ghost use Rattle.std.specs.Prelude.{◌≡◌, ◌∷◌, [], true, false};
    ghost use Rattle.hprof_items.specs.FactValue.{ListsHave, value_of};
    ghost use Rattle.hprof_rows.specs.TableRows.{facts_in_rows};
    ghost use Rattle.hprof_rows.specs.FactsLeft.{facts_left, facts_ids};

    /// Returns the facts of these rows.
    pub fn new(ids: IdSize, rows: TableRows<'a>) -> Self
        requires { AreReadable ids rows }
        ensures all { facts_left result ≡ facts_in_rows ids rows.entry }
        ensures ids { facts_ids result ≡ ids }
    {
        Facts { ids, rows }
    }

    /// Stores the next fact in `fact`, and returns whether there is one. If there is none, `fact` is unchanged. Unlike with `next`, no fact
    /// is moved from call to call.
    #[inline(always)]
    pub fn next_into(&mut self, fact: &mut Fact<'a>) -> bool
        ensures some { result ≡ true → facts_left self.old ≡ value_of fact.new ∷ facts_left self.new }
        ensures none { result ≡ false → (facts_left self.old ≡ []) × (facts_left self.new ≡ []) × (fact.new ≡ fact.old) }
        ensures lists { result ≡ true → ListsHave (facts_ids self.old) fact.new }
        ensures ids { facts_ids self.new ≡ facts_ids self.old }
    {
        next_fact_into(&mut self.rows, self.ids, fact)
    }
}

impl<'a> Iterator for Facts<'a> {
    ghost use Rattle.std.specs.Iterator.{item_count};
    ghost use Rattle.hprof_rows.specs.FactsLeft.{YieldsFact, facts_left};

    type Item = Fact<'a>;

    ghost next_gives = { YieldsFact };

    ghost remaining = { item_count facts_left };

    #[inline(always)]
    fn next(&mut self) -> Option<Fact<'a>> {
        next_fact(&mut self.rows, self.ids)
    }
}
