//! Visits of a key: a row that is present is asked, and a missing one is made.

ghost use Rattle.std.specs.Prelude.{◌≡◌, ℕ, List, IfOk, OnErr};

use std::alloc::AllocError;

/// Visits a key: asks the row that is present, or makes one.
pub trait Visit<V> {
    /// The answer of a row.
    type Answer;

    /// The storage for the parts of rows that lie outside the table.
    type Room;

    // The bytes of the room.
    ghost held: { Self.Room → List ℕ };

    // What a row may answer, with those bytes in the room.
    ghost answers: { Self → List ℕ → V → Self.Answer → Type 0 };

    // The rows that may be made, with the bytes that were in the room and those that then are.
    ghost makes: { Self → List ℕ → V → List ℕ → Type 0 };

    // Where the memory for a row may be refused.
    ghost refuses: { Self → Self.Room → Type 0 };

    // What becomes of the room that was had, used or to spare.
    ghost grows: { Self.Room → Self.Room → Type 0 };

    /// Asks the row that is present.
    fn ask(self, row: &V, room: &Self::Room) -> Self::Answer
        ensures { answers self (held room.now) row.now result };

    /// Makes the row. If memory runs out, the storage keeps its contents.
    fn make(self, room: &mut Self::Room) -> Result<V, AllocError>
        ensures ok { IfOk result (λ row. makes self (held room.old) row (held room.new)) }
        ensures err { OnErr result (held room.new ≡ held room.old) }
        ensures full { OnErr result (refuses self room.old) }
        ensures room { grows room.old room.new };
}
