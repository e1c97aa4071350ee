//! A run in scratch.

ghost use Rattle.std.specs.Prelude.{◌+◌, ◌<◌, ◌^◌};

/// Where a run lies in scratch.
#[derive(Clone, Copy)]
pub(crate) struct Run {
    /// The offset of its first byte.
    pub(crate) at: u64,
    /// The number of its bytes.
    pub(crate) len: u64,
    ghost ends: { at + len < 2 ^ 64 },
}
