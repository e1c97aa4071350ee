//! Parts that can be opened again.

ghost use Rattle.std.specs.Prelude.{◌≡◌, ◌<◌, ℕ, List, Option, length};

use hprof_devices::Source;

/// Parts that can be opened again, each from any offset on. Where a part tells its bytes, each opening gives the same.
pub trait Parts {
    ghost use Rattle.hprof_devices.specs.declared.health.Health.TheVariants.{Well};
    ghost use Rattle.hprof_parts.specs.Parts.{Gives, bytes_at};

    // The bytes of each part, where they are told.
    ghost bytes: { Self → List (Option (List ℕ)) };

    /// What gives the bytes of a part from an offset on.
    type Reader: Source + Drop;

    /// Returns the number of parts.
    fn count(&self) -> usize
        ensures { result ≡ length (bytes self.now) };

    /// Opens a part from an offset on. Behind the end of the part there are no bytes.
    fn open(&self, index: usize, at: u64) -> Self::Reader
        requires { index < length (bytes self.now) }
        ensures well { Self.Reader.health result ≡ Well }
        ensures fresh { Self.Reader.pulls result ≡ 0 }
        ensures gives { Gives (bytes_at (bytes self.now) index) at (Self.Reader.left result) };
}
