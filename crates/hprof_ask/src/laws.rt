//! Laws of the definitions. None of these functions does anything.

ghost use Rattle.std.specs.Prelude.{◌≡◌, ◌↔◌, ◌++◌, ◌∷◌, ℕ, List, []};
ghost use Rattle.hprof_values.specs.declared.ids.IdSize.{IdSize};
ghost use Rattle.hprof_items.specs.FactValue.{FactValue};
ghost use Rattle.hprof_stream.specs.declared.summary.PartSummary.{PartSummary};
ghost use Rattle.hprof_rows.specs.Conflict.{IsConsistent};
ghost use Rattle.hprof_engine.specs.Joining.{Agree};
ghost use Rattle.hprof_questions.specs.Answering.{AreAnswers};
ghost use Rattle.hprof_ask.specs.HeapAnswers.{IsHeapAnswer};
ghost use Rattle.hprof_ask.specs.PartsAnswers.{AreAnswersOfParts};
ghost use Rattle.hprof_ask.specs.Report.{IsReport, LacksClass};
ghost use Rattle.hprof_questions.specs.declared.report.Report.{Report};
ghost use Rattle.hprof_questions.specs.Asked.{NoneQuits, Quits};

/// A report on parts and a heap is one text. If the facts of the heap agree, there is one unless the report is on a name that no class has;
/// then there is none.
pub fn a_report_is_one_text()
    ensures some { (summaries : List PartSummary) (ids : IdSize) (facts : List FactValue) (report : Report) → IsConsistent facts
        → (LacksClass facts report → ⊥) → (text : List ℕ) × IsReport summaries ids facts report text }
    ensures none { (summaries : List PartSummary) (ids : IdSize) (facts : List FactValue) (report : Report) (text : List ℕ)
        → LacksClass facts report → IsReport summaries ids facts report text → ⊥ }
    ensures one { (summaries : List PartSummary) (ids : IdSize) (facts : List FactValue) (report : Report) (one other : List ℕ)
        → IsReport summaries ids facts report one → IsReport summaries ids facts report other → one ≡ other }
{}

/// The answers to lines over one heap are one text, and there is one if the facts of the heap agree. To ask two lists of lines one after
/// the other is to ask them together, unless one of the first lines ends the dialogue: no answer depends on what was asked before. What
/// stands behind a line that ends the dialogue is not answered.
pub fn answers_over_a_heap_are_one_text()
    ensures some { (summaries : List PartSummary) (ids : IdSize) (facts : List FactValue) (lines : List (List ℕ)) → IsConsistent facts
        → (text : List ℕ) × AreAnswers (IsHeapAnswer summaries ids facts) lines text }
    ensures one { (summaries : List PartSummary) (ids : IdSize) (facts : List FactValue) (lines : List (List ℕ)) (one other : List ℕ)
        → AreAnswers (IsHeapAnswer summaries ids facts) lines one → AreAnswers (IsHeapAnswer summaries ids facts) lines other
        → one ≡ other }
    ensures together { (summaries : List PartSummary) (ids : IdSize) (facts : List FactValue) (lines more : List (List ℕ)) (text : List ℕ)
        → NoneQuits lines → AreAnswers (IsHeapAnswer summaries ids facts) (lines ++ more) text
        ↔ ((first : List ℕ) × (then : List ℕ) × AreAnswers (IsHeapAnswer summaries ids facts) lines first
        × AreAnswers (IsHeapAnswer summaries ids facts) more then × (text ≡ first ++ then)) }
    ensures behind { (summaries : List PartSummary) (ids : IdSize) (facts : List FactValue) (lines more : List (List ℕ))
        (last text : List ℕ) → Quits last → AreAnswers (IsHeapAnswer summaries ids facts) (lines ++ last ∷ more) text
        ↔ AreAnswers (IsHeapAnswer summaries ids facts) lines text }
{}

/// The answers to lines over the heap of parts are one text, and there is one if the parts agree: they depend on the lines and the parts
/// alone.
pub fn answers_over_parts_are_one_text()
    ensures some { (lines parts : List (List ℕ)) (ids : IdSize) (millis : ℕ) (facts : List FactValue) → Agree parts ids millis facts
        → (text : List ℕ) × AreAnswersOfParts lines parts text }
    ensures one { (lines parts : List (List ℕ)) (one other : List ℕ) → AreAnswersOfParts lines parts one
        → AreAnswersOfParts lines parts other → one ≡ other }
{}
