//! How often each text stands among others.

ghost use Rattle.std.specs.Prelude.{◌≡◌, bytes_eq, map};
ghost use Rattle.std.specs.List.{IsDistinct};
ghost use Rattle.std.specs.List.Sorted.{IsPermutation, IsStrictlySortedBy};
ghost use Rattle.hprof_holders.specs.SumCounts.{sum_value};
ghost use Rattle.hprof_holders.specs.Sums.{sum_cmp};

use std::alloc::{AllocError, Global};
use std::cmp::Ordering;
use std::collections::BTreeMap;

/// A text, and how often it stands among others.
#[derive(Drop)]
pub(crate) struct Sum {
    /// How often.
    pub(crate) count: u64,
    /// The text.
    pub(crate) text: String,
}

/// Compares sums: the greater number first, then by text, byte by byte.
fn compare_sums(sum: &Sum, other: &Sum) -> Ordering
    ensures { result ≡ sum_cmp (sum_value sum.now) (sum_value other.now) }
{
    let by_count = other.count.cmp(&sum.count);
    by_count.then(sum.text.cmp(&other.text))
}

/// Sorts sums of different texts. Allocates nothing.
fn sort_sums(sums: &mut Vec<Sum>)
    requires { IsDistinct (λ sum other. bytes_eq sum.text other.text) (map sum_value sums.old.items) }
    ensures ascend { IsStrictlySortedBy sum_cmp (map sum_value sums.new.items) }
    ensures same { IsPermutation (map sum_value sums.old.items) (map sum_value sums.new.items) }
{
    sums.sort_unstable_by(|sum, other| compare_sums(sum, other));
}

/// Counts of texts.
#[derive(Drop)]
pub(crate) struct Sums {
    /// How often each text was added. A text that was not added is not there.
    pub(crate) counts: BTreeMap<String, u64>,
}

impl Sums {
    ghost use Rattle.std.specs.Prelude.{◌≡◌, ◌+◌, ◌<◌, ◌^◌, ℕ, List, [], IfOk, OnOk, bytes_eq, map, string_bytes};
    ghost use Rattle.std.specs.List.{IsDistinct};
    ghost use Rattle.hprof_holders.specs.SumCounts.{AreCounted, CountsOneMore, count_in, entry_value, sum_value};
    ghost use Rattle.hprof_holders.specs.Sums.{AreSums};

    /// Returns the counts of no texts. Allocates nothing.
    pub(crate) fn new(alloc: Global) -> Sums
        ensures { AreCounted [] result }
    {
        Sums {
            counts: BTreeMap::new(alloc),
        }
    }

    /// Returns how often a text was added.
    fn count(&self, text: &str) -> u64
        ensures { result ≡ count_in self.now text.now }
    {
        match self.counts.get(text) {
            Some(count) => *count,
            None => 0,
        }
    }

    /// Counts a text once more. If memory runs out, the answer is `AllocError`. The count has to fit: it does if fewer than 2^64 texts are
    /// added.
    pub(crate) fn add(&mut self, text: String) -> Result<(), AllocError>
        requires { count_in self.old (string_bytes text) + 1 < 2 ^ 64 }
        ensures { OnOk result (CountsOneMore self.old self.new (string_bytes text)) }
    {
        let count = self.count(text.as_str()) + 1;
        self.counts.insert(text, count)?;
        Ok(())
    }

    /// Returns each text with its number, by text.
    fn by_text(self, alloc: Global) -> Result<Vec<Sum>, AllocError>
        ensures entries { IfOk result (λ sums. map sum_value sums.items ≡ map entry_value self.counts.entries) }
        ensures apart { IfOk result (λ sums. IsDistinct (λ sum other. bytes_eq sum.text other.text) (map sum_value sums.items)) }
    {
        let mut sums = Vec::with_capacity(alloc, self.counts.len())?;
        for (text, count) in self.counts {
            sums.push(Sum { count, text })?;
        }
        Ok(sums)
    }

    /// Returns each text with its number: the greater number first, and of equal numbers the lesser text, byte by byte. If memory runs out,
    /// the answer is `AllocError`.
    pub(crate) fn ordered(self, alloc: Global) -> Result<Vec<Sum>, AllocError>
        ensures { (texts : List (List ℕ)) → AreCounted texts self → IfOk result (λ sums. AreSums texts (map sum_value sums.items)) }
    {
        let mut sums = self.by_text(alloc)?;
        sort_sums(&mut sums);
        Ok(sums)
    }
}
