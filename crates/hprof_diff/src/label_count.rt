//! Parts of a histogram, with the sources of their labels.

use crate::counted::Counted;
use hprof_values::Basic;

/// The source of a label.
#[derive(Clone, Copy, Debug, PartialEq, Eq)]
pub(crate) enum LabelSource {
    /// A class: the identifier of its name, or `None` if it has no load.
    Class(Option<u64>),
    /// The type of an array's elements.
    Prim(Basic),
}

impl LabelSource {
    ghost use Rattle.std.specs.Prelude.{◌≡◌};
    ghost use Rattle.std.specs.Bool.{OnTrue};
    ghost use Rattle.hprof_diff.specs.Sources.{name_of};

    /// Returns the identifier of a class's name.
    fn name(self) -> Option<u64>
        ensures { result ≡ name_of self }
    {
        match self {
            LabelSource::Class(name) => name,
            LabelSource::Prim(_) => None,
        }
    }

    /// Returns whether two sources are the same.
    fn is_same(self, other: LabelSource) -> bool
        ensures { OnTrue result (self ≡ other) }
    {
        self == other
    }
}

/// Objects whose labels have the same source.
#[derive(Clone, Copy, Debug, PartialEq, Eq)]
pub(crate) struct LabelCount {
    /// The source of their label.
    pub(crate) source: LabelSource,
    /// Their number, and the number of their bytes.
    pub(crate) counted: Counted,
}

ghost use Rattle.std.specs.Prelude.{◌≡◌, ◌≤◌, ℕ, List, ◌∷◌, length};
ghost use Rattle.std.specs.List.Sorted.{IsPermutation};
ghost use Rattle.hprof_diff.specs.declared.label_count.LabelSource.{LabelSource};
ghost use Rattle.hprof_diff.specs.Sources.{parts_under};

/// Sorts parts so that those with the same name are consecutive. Allocates nothing.
pub(crate) fn sort_parts(parts: &mut Vec<LabelCount>)
    ensures { IsPermutation parts.old.items parts.new.items }
{
    parts.sort_unstable_by_key(|part| part.source.name());
}

/// Returns the sum of a part and of parts after it with the same source, as many as a number can count, and the parts that are left.
pub(crate) fn first_run<'a>(
    first: LabelCount,
    parts: &'a [LabelCount],
) -> (LabelCount, &'a [LabelCount])
    ensures same { (label : LabelSource → List ℕ) (text : List ℕ)
        → parts_under label text (result.0 ∷ result.1.now) ≡ parts_under label text (first ∷ parts.now) }
    ensures shorter { length result.1.now ≤ length parts.now }
{
    let mut sum = first;
    let mut rest = parts;
    while let Some((part, after)) = rest.split_first() {
        if !part.source.is_same(sum.source) {
            return (sum, rest);
        }
        let Some(counted) = sum.counted.with(part.counted) else {
            return (sum, rest);
        };
        sum.counted = counted;
        rest = after;
    }
    (sum, rest)
}
