//! Laws of the definitions. The contract of each function is a theorem; its body is empty.

ghost use Rattle.std.specs.Prelude.{◌≡◌, List};
ghost use Rattle.hprof_values.specs.declared.ids.IdSize.{IdSize};
ghost use Rattle.hprof_items.specs.FactValue.{FactValue};
ghost use Rattle.hprof_passes.specs.Passing.{TakesObjects, objects_among};
ghost use Rattle.hprof_histogram.specs.declared.counted_kinds.CountedKinds.{CountedKinds};
ghost use Rattle.hprof_histogram.specs.declared.row.Row.{Row};
ghost use Rattle.hprof_histogram.specs.declared.objects.SizedObject.{SizedObject};
ghost use Rattle.hprof_histogram.specs.declared.row.Kind.{Kind};
ghost use Rattle.hprof_histogram.specs.CountedKinds.{CountsObject, IsTally, counted_in, nothing};
ghost use Rattle.hprof_histogram.specs.Histogram.{IsHistogram};
ghost use Rattle.hprof_histogram.specs.Objects.{AreObjects};

/// Facts have exactly one histogram.
pub fn one_histogram()
    ensures exists { (ids : IdSize) (facts : List FactValue) → (rows : List Row) × IsHistogram ids facts rows }
    ensures once { (ids : IdSize) (facts : List FactValue) (one other : List Row)
        → IsHistogram ids facts one → IsHistogram ids facts other → one ≡ other }
{}

/// A kind has exactly one list of objects.
pub fn one_list_of_objects()
    ensures exists { (ids : IdSize) (facts : List FactValue) (kind : Kind)
        → (objects : List SizedObject) × AreObjects ids facts kind objects }
    ensures once { (ids : IdSize) (facts : List FactValue) (kind : Kind) (one other : List SizedObject)
        → AreObjects ids facts kind one → AreObjects ids facts kind other → one ≡ other }
{}

/// Counts of no objects that then took all objects of facts, one after another, are the tally of those facts.
pub fn what_took_all_objects_is_a_tally()
    ensures { (ids : IdSize) (all : List FactValue) (start counts : CountedKinds) → ((kind : Kind) → counted_in start kind ≡ nothing)
        → TakesObjects CountsObject ids start (objects_among all) counts → IsTally ids all counts }
{}
