//! Sources of questions.

ghost use Rattle.std.specs.Prelude.{◌≡◌, ℕ, ◌+◌, ◌-◌, ◌^◌, ◌<◌, ◌≤◌, min, List, length, take, Option, IfOk, MatchResult, ⊤};
ghost use Rattle.std.specs.Io.KnownBytes.{Keeps, Consumes, IsAtEnd};

use hprof_devices::{Flush, ReadFault, Source};

/// A source of questions. None is read before all answers so far were flushed, because the asker may wait for them.
pub trait Asker<W: Flush> {
    ghost use Rattle.hprof_devices.specs.declared.health.Health.{Health};
    ghost use Rattle.hprof_devices.specs.declared.health.Health.TheVariants.{Well, Failed};

    // The bytes that are still to come, where they are told.
    ghost left: { Self → Option (List ℕ) };

    // How the source is doing.
    ghost health: { Self → Health };

    // How many pulls were made; it stays at the greatest number.
    ghost pulls: { Self → ℕ };

    // It may be read on while that is the writer of the answers.
    ghost may_read: { Self → W → Type 0 };

    /// Does what `pull` of a source does.
    fn read_on(&mut self, piece: &mut [u8], answers: &W) -> Result<usize, ReadFault>
        requires well { health self.old ≡ Well }
        requires leave { may_read self.old answers.now }
        ensures count { IfOk result (λ n. n ≤ length piece.new) }
        ensures bytes { MatchResult result
            (λ n. Consumes (left self.old) (left self.new) (take n piece.new))
            (λ _. Keeps (left self.old) (left self.new)) }
        ensures end { IfOk result (λ n. n ≡ 0 → 0 < length piece.new → IsAtEnd (left self.new)) }
        ensures health { MatchResult result (λ _. health self.new ≡ Well) (λ _. health self.new ≡ Failed) }
        ensures pulls { pulls self.new ≡ min (pulls self.old + 1) (2 ^ 64 - 1) };
}

/// Every source can be asked so.
impl<S: Source, W: Flush> Asker<W> for S {
    ghost left = { S.left };

    ghost health = { S.health };

    ghost pulls = { S.pulls };

    ghost may_read = { λ source answers. ⊤ };

    fn read_on(&mut self, piece: &mut [u8], _answers: &W) -> Result<usize, ReadFault> {
        self.pull(piece)
    }
}
