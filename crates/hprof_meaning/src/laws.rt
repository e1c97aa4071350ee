//! Laws of the definitions. The contract of each function is a theorem; its body is empty.

ghost use Rattle.std.specs.Prelude.{◌≡◌, ◌↔◌, ◌∷◌, [], ℕ, List};
ghost use Rattle.hprof_values.specs.declared.ids.IdSize.{IdSize};
ghost use Rattle.hprof_items.specs.FactValue.{FactValue};
ghost use Rattle.hprof_rows.specs.Conflict.{IsConsistent};
ghost use Rattle.hprof_histogram.specs.declared.objects.SizedObject.{SizedObject};
ghost use Rattle.hprof_histogram.specs.declared.row.Kind.TheVariants.{Class};
ghost use Rattle.hprof_histogram.specs.Objects.{AreObjects};
ghost use Rattle.hprof_meaning.specs.BareLabels.{AreBareLabels, IsBareLabel};
ghost use Rattle.hprof_meaning.specs.MeantClasses.{AreMeantClasses, AreMeantDumps, IsMeantClass, IsMeantDump};
ghost use Rattle.hprof_meaning.specs.NamedText.{IsNamedText};
ghost use Rattle.hprof_meaning.specs.ObjectsOf.{AreObjectsOf};
ghost use Rattle.hprof_meaning.specs.ObjectsOfText.{IsObjectsOfText};

/// Each class has a label, and if facts agree, it is one.
pub fn one_bare_label()
    ensures some { (facts : List FactValue) → (label : ℕ → List ℕ) × AreBareLabels facts label }
    ensures one { (facts : List FactValue) (class : ℕ) (one other : List ℕ) → IsConsistent facts → IsBareLabel facts class one
        → IsBareLabel facts class other → one ≡ other }
{}

/// If facts agree, a word means exactly one list of classes.
pub fn one_list_of_classes()
    ensures some { (facts : List FactValue) (word : List ℕ) → IsConsistent facts
        → (classes : List ℕ) × AreMeantClasses facts word classes }
    ensures one { (facts : List FactValue) (word one other : List ℕ) → AreMeantClasses facts word one
        → AreMeantClasses facts word other → one ≡ other }
{}

/// If facts agree, a word means exactly one list of class dumps.
pub fn one_list_of_dumps()
    ensures some { (facts : List FactValue) (word : List ℕ) → IsConsistent facts
        → (classes : List ℕ) × AreMeantDumps facts word classes }
    ensures one { (facts : List FactValue) (word one other : List ℕ) → AreMeantDumps facts word one
        → AreMeantDumps facts word other → one ≡ other }
{}

/// A class dump that a word means is a class that it means.
pub fn dumps_are_classes()
    ensures { (facts : List FactValue) (word : List ℕ) (id : ℕ) → IsMeantDump facts word id → IsMeantClass facts word id }
{}

/// The objects of one class alone are those of its kind.
pub fn objects_of_one_class()
    ensures { (ids : IdSize) (facts : List FactValue) (class : ℕ) (objects : List SizedObject)
        → AreObjectsOf ids facts (class ∷ []) objects ↔ AreObjects ids facts (Class class) objects }
{}

/// Classes have exactly one list of objects, and one text that tells them.
pub fn one_text_of_objects()
    ensures some { (ids : IdSize) (facts : List FactValue) (classes : List ℕ)
        → (text : List ℕ) × IsObjectsOfText ids facts classes text }
    ensures one { (ids : IdSize) (facts : List FactValue) (classes one other : List ℕ) → IsObjectsOfText ids facts classes one
        → IsObjectsOfText ids facts classes other → one ≡ other }
{}

/// If facts agree, there is exactly one answer where these classes have the name.
pub fn one_text_of_classes()
    ensures some { (ids : IdSize) (facts : List FactValue) (classes : List ℕ) → IsConsistent facts
        → (text : List ℕ) × IsNamedText ids facts classes text }
    ensures one { (ids : IdSize) (facts : List FactValue) (classes one other : List ℕ) → IsNamedText ids facts classes one
        → IsNamedText ids facts classes other → one ≡ other }
{}
