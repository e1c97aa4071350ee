//! What is kept between answers.

ghost use Rattle.std.specs.Prelude.{List};
ghost use Rattle.hprof_values.specs.declared.ids.IdSize.{IdSize};
ghost use Rattle.hprof_items.specs.FactValue.{FactValue};
ghost use Rattle.hprof_stream.specs.declared.summary.PartSummary.{PartSummary};
ghost use Rattle.hprof_retained.specs.CachedReferences.{KeepsNothing};
ghost use Rattle.hprof_large.specs.Texts.{AreReports};

use crate::texts::CachedTexts;
use hprof_retained::CachedReferences;
use std::alloc::Global;

/// What is kept between answers. It is no part of any of them.
#[derive(Drop)]
pub struct CachedAnswers {
    /// The texts of the reports on the whole heap.
    pub(crate) texts: CachedTexts,
    /// What was made of the references.
    pub(crate) references: CachedReferences,
}

impl CachedAnswers {
    /// Returns what is kept before the first question: nothing. It allocates nothing.
    pub fn new(alloc: Global) -> CachedAnswers
        ensures texts { (summaries : List PartSummary) (ids : IdSize) (facts : List FactValue)
            → AreReports summaries ids facts result.texts }
        ensures references { KeepsNothing result.references }
    {
        CachedAnswers {
            texts: CachedTexts::new(alloc),
            references: CachedReferences::for_many(),
        }
    }
}
