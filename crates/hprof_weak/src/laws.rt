//! Laws of the definitions. The contract of each function is a theorem; its body is empty.

ghost use Rattle.std.specs.Prelude.{◌≢◌, ◌↔◌, List};
ghost use Rattle.hprof_items.specs.FactValue.{FactValue};
ghost use Rattle.hprof_rows.specs.Conflict.{IsConsistent};
ghost use Rattle.hprof_edges.specs.declared.edge.Edge.{Edge};
ghost use Rattle.hprof_edges.specs.declared.edge.Via.TheVariants as vias;
ghost use Rattle.hprof_edges.specs.declared.field_place.FieldPlace.{FieldPlace};
ghost use Rattle.hprof_weak.specs.ByField.{IsByField};
ghost use Rattle.hprof_weak.specs.Weak.{IsStrong, IsWeak, IsWeakField};

/// Whether an edge by a field is weak depends on the field alone. So two edges by the field at the same place of two instances of one class
/// are both weak or both strong.
pub fn weak_by_class_and_place()
    ensures field { (facts : List FactValue) → IsConsistent facts → (field : FieldPlace) (edge : Edge)
        → IsByField facts field edge → IsWeak facts edge ↔ IsWeakField facts field }
    ensures both { (facts : List FactValue) → IsConsistent facts → (field : FieldPlace) (edge other : Edge)
        → IsByField facts field edge → IsByField facts field other → IsWeak facts edge ↔ IsWeak facts other }
{}

/// An edge that is not by a field is strong.
pub fn others_are_strong()
    ensures { (facts : List FactValue) (edge : Edge) → edge.via ≢ vias.Field → IsStrong facts edge }
{}
