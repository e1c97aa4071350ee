//! Laws of the definitions that the contracts cite.

ghost use Rattle.std.specs.Prelude.{◌≡◌, ℕ, List, IsTrue};
ghost use Rattle.hprof_values.specs.declared.ids.IdSize.{IdSize};
ghost use Rattle.hprof_items.specs.FactValue.{FactValue};
ghost use Rattle.hprof_stream.specs.declared.summary.PartSummary.{PartSummary};
ghost use Rattle.hprof_rows.specs.Conflict.{IsConsistent};
ghost use Rattle.hprof_histogram.specs.Chosen.{is_among};
ghost use Rattle.hprof_small.specs.Small.{IsSmall};
ghost use Rattle.hprof_reports.specs.Check.{IsCheck};
ghost use Rattle.hprof_reports.specs.ObjectText.{IsObjectText};
ghost use Rattle.hprof_reports.specs.TextObjects.{HasValueArray};
ghost use Rattle.hprof_reports.specs.TextReport.{IsTextLine};

/// The report `check` of given parts and facts is one text.
pub fn one_check()
    ensures { (parts : List PartSummary) (facts : List FactValue) (one other : List ℕ) → IsCheck parts facts one
        → IsCheck parts facts other → one ≡ other }
{}

/// The report `object` on an identifier depends on one object: a heap that has of all objects only some, and among them the one with the
/// identifier if there is one, has the same report.
pub fn object_depends_on_one_object()
    ensures { (ids : IdSize) (wanted : List ℕ) (all small : List FactValue) (id : ℕ) (text : List ℕ) → IsConsistent all
        → IsSmall ids wanted all small → IsTrue (is_among wanted id) → IsObjectText ids small id text → IsObjectText ids all id text }
{}

/// The report `text` on an identifier depends on two objects: the one with the identifier, and the array to which its first field `value`
/// refers.
pub fn text_depends_on_two_objects()
    ensures { (ids : IdSize) (wanted : List ℕ) (all small : List FactValue) (id : ℕ) (line : List ℕ) → IsConsistent all
        → IsSmall ids wanted all small → IsTrue (is_among wanted id) → HasValueArray ids all id wanted
        → IsTextLine ids small id line → IsTextLine ids all id line }
{}
