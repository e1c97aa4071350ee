//! Laws of the definitions. The contract of each function is a theorem; its body is empty.

ghost use Rattle.std.specs.Prelude.{◌≡◌, List, ℕ, ◌↔◌};
ghost use Rattle.hprof_values.specs.declared.ids.IdSize.{IdSize};
ghost use Rattle.hprof_items.specs.FactValue.{FactValue};
ghost use Rattle.hprof_rows.specs.Conflict.{IsConsistent};
ghost use Rattle.hprof_rows.specs.Facts.{Has};
ghost use Rattle.hprof_layouts.specs.declared.slot.Slot.{Slot};
ghost use Rattle.hprof_layouts.specs.Fields.{AreFields, FieldsValue};
ghost use Rattle.hprof_layouts.specs.Layout.{LayoutValue, IsCyclic, IsKnown, IsLayout};
ghost use Rattle.hprof_heap.specs.Classes.{ClassValue, HasDump};
ghost use Rattle.hprof_layouts.specs.declared.known.KnownLayouts.{KnownLayouts};
ghost use Rattle.hprof_layouts.specs.Known.{Knows};

/// A class has exactly one layout.
pub fn one_layout()
    ensures exists { (facts : List FactValue) (class : ℕ) → (layout : LayoutValue) × IsLayout facts class layout }
    ensures once { (facts : List FactValue) (class : ℕ) (one other : LayoutValue) → IsConsistent facts
        → IsLayout facts class one → IsLayout facts class other → one ≡ other }
{}

/// With more facts, a known layout stays known and the same, and a cyclic one stays cyclic.
pub fn more_facts_keep_layouts()
    ensures known { (facts more : List FactValue) (class : ℕ) (slots : List Slot)
        → ((fact : FactValue) → Has facts fact → Has more fact) → IsKnown facts class slots → IsKnown more class slots }
    ensures cyclic { (facts more : List FactValue) (class : ℕ)
        → ((fact : FactValue) → Has facts fact → Has more fact) → IsCyclic facts class → IsCyclic more class }
{}

/// An object has exactly one result of `fields`.
pub fn one_answer_of_fields()
    ensures exists { (ids : IdSize) (facts : List FactValue) (object : ℕ) → (fields : FieldsValue) × AreFields ids facts object fields }
    ensures once { (ids : IdSize) (facts : List FactValue) (object : ℕ) (one other : FieldsValue) → IsConsistent facts
        → AreFields ids facts object one → AreFields ids facts object other → one ≡ other }
{}

/// The known layouts depend on the class dumps alone.
pub fn dumps_decide_what_is_known()
    ensures { (ids : IdSize) (facts more : List FactValue) (known : KnownLayouts)
        → ((dump : ClassValue) → HasDump more dump ↔ HasDump facts dump) → Knows ids facts known → Knows ids more known }
{}
