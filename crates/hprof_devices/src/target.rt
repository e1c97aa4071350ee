//! Targets of bytes.

ghost use Rattle.std.specs.Prelude.{◌≡◌, ℕ, ◌<◌, ◌≤◌, List, length, take, Option, IfOk, MatchResult};
ghost use Rattle.std.specs.Io.KnownBytes.{Keeps, Appends};

use crate::health::{Health, WriteFault};

/// A target of bytes.
pub trait Target {
    ghost use Rattle.hprof_devices.specs.declared.health.Health.{Health};
    ghost use Rattle.hprof_devices.specs.declared.health.Health.TheVariants.{Well};
    ghost use Rattle.hprof_devices.specs.Device.{health_after};

    // The bytes that it holds, where they are told.
    ghost written: { Self → Option (List ℕ) };

    // How the target is doing.
    ghost health: { Self → Health };

    /// Takes bytes from the front of `piece`, and returns their number: at least one, unless `piece` is empty.
    fn push(&mut self, piece: &[u8]) -> Result<usize, WriteFault>
        requires { health self.old ≡ Well }
        ensures count { IfOk result (λ n. (n ≤ length piece.now) × (0 < length piece.now → 0 < n)) }
        ensures bytes { MatchResult result
            (λ n. Appends (written self.old) (written self.new) (take n piece.now))
            (λ _. Keeps (written self.old) (written self.new)) }
        ensures health { MatchResult result (λ _. health self.new ≡ Well) (λ fault. health self.new ≡ health_after fault) };
}
