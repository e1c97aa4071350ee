//! Laws of the definitions. The contract of each function is a theorem; its body is empty.

ghost use Rattle.std.specs.Prelude.{◌≡◌, ◌∷◌, ◌++◌, ℕ, List, true, false};
ghost use Rattle.std.specs.List.{flat_map, list_all};
ghost use Rattle.hprof_values.specs.declared.ids.IdSize.{IdSize};
ghost use Rattle.hprof_items.specs.FactValue.{FactValue};
ghost use Rattle.hprof_rows.specs.Conflict.{IsConsistent};
ghost use Rattle.hprof_why.specs.Folding.{AreParts, IsFront, Link, Part, is_alike, links_of};
ghost use Rattle.hprof_why.specs.Folding.{Stretch};
ghost use Rattle.hprof_why.specs.WhyText.{IsWhyText};

/// What is told of a folded path and what is left out are the path: the links of its parts, one behind the other, are its links.
pub fn folding_is_the_path()
    ensures { (kind : List ℕ) (links : List Link) (parts : List Part) → AreParts kind links parts → flat_map links_of parts ≡ links }
{}

/// The links of a stretch are alike: of the kind of its first step, through nodes of the kind of the node before it. A stretch is longest:
/// the link behind it is not alike.
pub fn a_stretch_is_longest()
    ensures alike { (kind : List ℕ) (first last : Link) (between rest : List Link)
        → IsFront kind (links_of (Stretch first between last) ++ rest) (Stretch first between last)
        → list_all (is_alike first.step_kind kind) (links_of (Stretch first between last)) ≡ true }
    ensures longest { (kind : List ℕ) (first last next : Link) (between rest : List Link)
        → IsFront kind (links_of (Stretch first between last) ++ next ∷ rest) (Stretch first between last)
        → is_alike first.step_kind kind next ≡ false }
{}

/// If facts agree, the report `why` on an identifier has exactly one text.
pub fn one_why_text()
    ensures exists { (ids : IdSize) (facts : List FactValue) (id : ℕ) → IsConsistent facts → (text : List ℕ) × IsWhyText ids facts id text }
    ensures once { (ids : IdSize) (facts : List FactValue) (id : ℕ) (one other : List ℕ) → IsWhyText ids facts id one
        → IsWhyText ids facts id other → one ≡ other }
{}
