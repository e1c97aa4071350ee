//! Sinks of rows.

ghost use Rattle.std.specs.Prelude.{ℕ, List, OnOk, IfErr};

/// A sink of rows, which takes them one after another, and may refuse one. After a fault it is not called again.
pub trait RowSink {
    // What taking a row means.
    ghost steps: { Self → ℕ → List ℕ → Self → Type 0 };

    // What a fault tells about the sink before the call, the row, and the sink after it.
    ghost refuses: { Self → ℕ → List ℕ → Self.Fault → Self → Type 0 };

    // It may be called.
    ghost well: { Self → Type 0 };

    /// The reason why it refuses a row.
    type Fault;

    /// Takes a row.
    fn take(&mut self, key: u64, bytes: &[u8]) -> Result<(), Self::Fault>
        requires { well self.old }
        ensures steps { OnOk result (steps self.old key bytes.now self.new) }
        ensures well { OnOk result (well self.new) }
        ensures refuses { IfErr result (λ fault. refuses self.old key bytes.now fault self.new) };
}
