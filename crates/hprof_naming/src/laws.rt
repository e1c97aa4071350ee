//! Laws of the definitions. The contract of each function is a theorem; its body is empty.

ghost use Rattle.std.specs.Prelude.{◌≡◌, ◌≢◌, ◌↔◌, ◌++◌, false, [], List, Some, codes, nat_eq, replicate, ℕ};
ghost use Rattle.std.specs.List.{concat, ends_with};
ghost use Rattle.hprof_values.specs.declared.basic.Basic.{Basic};
ghost use Rattle.hprof_items.specs.FactValue.{FactValue};
ghost use Rattle.hprof_rows.specs.Conflict.{IsConsistent};
ghost use Rattle.hprof_naming.specs.MeantLabel.{Means, before_pairs, count_of_pairs, is_class_descriptor, meant_label, slashed};
ghost use Rattle.hprof_naming.specs.Naming.{IsNaming, Naming};
ghost use Rattle.hprof_naming.specs.TypeNames.{arrays_named, type_letter};
ghost use Rattle.hprof_values.specs.declared.ids.IdSize.{IdSize};
ghost use Rattle.hprof_naming.specs.Texts.{IsText, TextValue};

/// Names and classes have exactly one printed form.
pub fn one_naming()
    ensures exists { (facts : List FactValue) → (naming : Naming) × IsNaming facts naming }
    ensures once { (facts : List FactValue) (one other : Naming) → IsConsistent facts → IsNaming facts one → IsNaming facts other
        → one ≡ other }
{}

/// If facts agree, an identifier has one text.
pub fn one_text()
    ensures exists { (ids : IdSize) (facts : List FactValue) (id : ℕ) → (text : TextValue) × IsText ids facts id text }
    ensures once { (ids : IdSize) (facts : List FactValue) (id : ℕ) (one other : TextValue) → IsConsistent facts → IsText ids facts id one
        → IsText ids facts id other → one ≡ other }
{}

/// A word that does not end in `[]` and is no descriptor of a class means itself.
pub fn plain_words_mean_themselves()
    ensures { (word label : List ℕ) → ends_with nat_eq word (codes "[]") ≡ false → is_class_descriptor word ≡ false
        → (Means word label ↔ (slashed label ≡ slashed word)) }
{}

/// The descriptor of a class means the class.
pub fn descriptors_mean_classes()
    ensures { (name label : List ℕ) → name ≢ [] → (Means (codes "L" ++ name ++ codes ";") label ↔ (slashed label ≡ slashed name)) }
{}

/// A word for arrays of a primitive type means the class of these arrays.
pub fn array_words_mean_arrays()
    ensures { (word : List ℕ) (elem : Basic) → arrays_named word ≡ Some elem → meant_label word ≡ codes "[" ++ type_letter elem }
{}

/// Dots count as slashes, in words and in labels.
pub fn dots_count_as_slashes()
    ensures words { (one other label : List ℕ) → slashed one ≡ slashed other → Means one label → Means other label }
    ensures labels { (word one other : List ℕ) → slashed one ≡ slashed other → Means word one → Means word other }
{}

/// A word is the bytes before the pairs `[]` at its end, and the pairs that are counted, and these are all.
pub fn all_pairs_count()
    ensures whole { (word : List ℕ) → word ≡ before_pairs word ++ concat (replicate (count_of_pairs word) (codes "[]")) }
    ensures all { (word front : List ℕ) → before_pairs word ≢ front ++ codes "[]" }
{}
