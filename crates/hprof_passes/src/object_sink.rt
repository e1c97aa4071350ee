//! Sinks of objects.

ghost use Rattle.std.specs.Prelude.{OnOk, IfErr};

use hprof_items::Fact;
use hprof_values::IdSize;

/// A sink of instances and arrays, which takes them one after another, and may refuse one. After a fault it is not called again.
pub trait ObjectSink {
    ghost use Rattle.hprof_values.specs.declared.ids.IdSize.{IdSize};
    ghost use Rattle.hprof_items.specs.FactValue.{FactValue, ListsHave, value_of};
    ghost use Rattle.hprof_items.specs.Spelling.{Fits};

    // What taking an object means, with the size of its identifiers.
    ghost takes: { Self → IdSize → FactValue → Self → Type 0 };

    // What a fault tells about the sink before the call, the object, and the sink after it.
    ghost refuses: { Self → IdSize → FactValue → Self.Fault → Self → Type 0 };

    /// The reason why it refuses an object.
    type Fault;

    /// Takes an object.
    fn take(&mut self, ids: IdSize, object: &Fact<'_>) -> Result<(), Self::Fault>
        requires fits { Fits ids (value_of object.now) }
        requires lists { ListsHave ids object.now }
        ensures takes { OnOk result (takes self.old ids (value_of object.now) self.new) }
        ensures refuses { IfErr result (λ fault. refuses self.old ids (value_of object.now) fault self.new) };
}
