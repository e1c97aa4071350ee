//! Laws of the definitions. The contract of each function is a theorem; its body is empty.

ghost use Rattle.std.specs.Prelude.{◌≡◌, ℕ, Contains, List};
ghost use Rattle.hprof_values.specs.declared.ids.IdSize.{IdSize};
ghost use Rattle.hprof_items.specs.FactValue.{FactValue};
ghost use Rattle.hprof_rows.specs.Conflict.{IsConsistent};
ghost use Rattle.hprof_small.specs.Small.{IsSmall};
ghost use Rattle.hprof_describe.specs.Findings.{AreFindings, Findings};
ghost use Rattle.hprof_retained.specs.Retained.{Sum};
ghost use Rattle.hprof_words.specs.Words.{HasWords};
ghost use Rattle.hprof_keeps.specs.BiggestText.{IsBiggestText};
ghost use Rattle.hprof_keeps.specs.Chosen.{IsChosen};
ghost use Rattle.hprof_keeps.specs.KeepsText.{IsKeepsText, above_lines, child_lines};
ghost use Rattle.hprof_keeps.specs.declared.choice.Choice.{Choice};

/// If facts agree, they have a report `keeps` on each identifier. It is one text.
pub fn one_keeps_text()
    ensures some { (ids : IdSize) (facts : List FactValue) → IsConsistent facts → (id : ℕ)
        → (text : List ℕ) × IsKeepsText ids facts id text }
    ensures one { (ids : IdSize) (facts : List FactValue) → IsConsistent facts → (id : ℕ) (one other : List ℕ)
        → IsKeepsText ids facts id one → IsKeepsText ids facts id other → one ≡ other }
{}

/// If facts agree, they have a report `biggest` on each choice of classes and objects. It is one text.
pub fn one_biggest_text()
    ensures some { (ids : IdSize) (facts : List FactValue) → IsConsistent facts → (choice : Choice)
        → (text : List ℕ) × IsBiggestText ids facts (IsChosen facts choice) text }
    ensures one { (ids : IdSize) (facts : List FactValue) → IsConsistent facts → (choice : Choice) (one other : List ℕ)
        → IsBiggestText ids facts (IsChosen facts choice) one → IsBiggestText ids facts (IsChosen facts choice) other → one ≡ other }
{}

/// The lines of nodes in the reports `keeps` and `biggest` depend, beside the sums that the nodes retain, on few objects: the nodes
/// themselves, and those that the words for them are read from. A heap that has of all objects only some, and these among them, has the
/// same lines.
pub fn lines_depend_on_few_objects()
    ensures above { (ids : IdSize) (wanted : List ℕ) (all small : List FactValue) (one other : Findings) → IsConsistent all
        → IsSmall ids wanted all small → AreFindings ids small one → AreFindings ids all other → (sums : ℕ → Sum) (nodes : List ℕ)
        → ((node : ℕ) → Contains nodes node → HasWords ids all wanted node) → above_lines one sums nodes ≡ above_lines other sums nodes }
    ensures children { (ids : IdSize) (wanted : List ℕ) (all small : List FactValue) (one other : Findings) → IsConsistent all
        → IsSmall ids wanted all small → AreFindings ids small one → AreFindings ids all other → (sums : ℕ → Sum) (nodes : List ℕ)
        → ((node : ℕ) → Contains nodes node → HasWords ids all wanted node) → child_lines one sums nodes ≡ child_lines other sums nodes }
{}
