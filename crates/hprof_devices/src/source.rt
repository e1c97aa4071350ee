//! Sources of bytes.

ghost use Rattle.std.specs.Prelude.{◌≡◌, ℕ, ◌+◌, ◌-◌, ◌^◌, ◌<◌, ◌≤◌, min, List, length, take, Option, IfOk, MatchResult};
ghost use Rattle.std.specs.Io.KnownBytes.{Keeps, Consumes, IsAtEnd};

use crate::health::{Health, ReadFault};

/// A source of bytes.
pub trait Source {
    ghost use Rattle.hprof_devices.specs.declared.health.Health.{Health};
    ghost use Rattle.hprof_devices.specs.declared.health.Health.TheVariants.{Well, Failed};

    // The bytes that are still to come, where they are told.
    ghost left: { Self → Option (List ℕ) };

    // How the source is doing.
    ghost health: { Self → Health };

    // How many pulls were made; it stays at the greatest number.
    ghost pulls: { Self → ℕ };

    /// Stores the next bytes at the front of `piece`, and returns their number. It is 0 only if no bytes are left, or if `piece` is empty.
    fn pull(&mut self, piece: &mut [u8]) -> Result<usize, ReadFault>
        requires { health self.old ≡ Well }
        ensures count { IfOk result (λ n. n ≤ length piece.new) }
        ensures bytes { MatchResult result
            (λ n. Consumes (left self.old) (left self.new) (take n piece.new))
            (λ _. Keeps (left self.old) (left self.new)) }
        ensures end { IfOk result (λ n. n ≡ 0 → 0 < length piece.new → IsAtEnd (left self.new)) }
        ensures health { MatchResult result (λ _. health self.new ≡ Well) (λ _. health self.new ≡ Failed) }
        ensures pulls { pulls self.new ≡ min (pulls self.old + 1) (2 ^ 64 - 1) };
}
