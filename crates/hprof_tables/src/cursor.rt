//! The place where a row was found, from which the next search starts.

ghost use Rattle.std.specs.Prelude.{◌≡◌};

/// The place of a row in a table: the number of its page, and its place there. A search that starts there finds keys that come in order
/// faster. The answers are the same for all cursors.
#[derive(Clone, Copy, Debug, PartialEq, Eq)]
pub struct Cursor {
    /// The number of the page.
    pub page: usize,
    /// The place of the row in the page.
    pub place: usize,
}

impl Cursor {
    /// Returns the cursor to start with.
    pub fn start() -> Cursor
        ensures page { result.page ≡ 0 }
        ensures place { result.place ≡ 0 }
    {
        Cursor { page: 0, place: 0 }
    }
}
