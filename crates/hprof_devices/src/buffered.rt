//! A buffered writer of std as a target.

ghost use Rattle.std.specs.Prelude.{◌≡◌, []};
ghost use Rattle.std.specs.Io.Buffered.{writer_buffer, writer_contents};
ghost use Rattle.hprof_devices.specs.declared.health.Health.TheVariants.{Well};

use crate::device::end_of_write;
use crate::flush::Flush;
use crate::health::{Health, WriteFault};
use crate::target::Target;
use std::io::{BufWriter, Write};

/// A buffered writer of std, with its health. After a flush, its buffer is empty.
#[derive(Drop)]
pub struct BufferedDevice<W: Write + Drop> {
    buffered: BufWriter<W>,
    health: Health,
}

impl<W: Write + Drop> BufferedDevice<W> {
    ghost use Rattle.hprof_devices.specs.Buffered.{buffered_health, buffered_of};

    /// Returns a device whose health is `Well`.
    pub fn new(buffered: BufWriter<W>) -> Self
        ensures buffered { buffered_of result ≡ buffered }
        ensures health { buffered_health result ≡ Well }
    {
        BufferedDevice {
            buffered,
            health: Health::Well,
        }
    }

    /// Returns the buffered writer.
    pub fn into_buffered(self) -> BufWriter<W>
        ensures { result ≡ buffered_of self }
    {
        self.buffered
    }
}

impl<W: Write + Drop> Target for BufferedDevice<W> {
    ghost written = { λ it. writer_contents W.contents it.buffered };

    ghost health = { λ it. it.health };

    fn push(&mut self, piece: &[u8]) -> Result<usize, WriteFault> {
        let (outcome, health) = end_of_write(self.buffered.write(piece), piece.len());
        self.health = health;
        outcome
    }
}

impl<W: Write + Drop> Flush for BufferedDevice<W> {
    ghost flushed = { λ it. writer_buffer it.buffered ≡ [] };

    fn flush(&mut self) -> Result<(), WriteFault> {
        match self.buffered.flush() {
            Ok(()) => Ok(()),
            Err(_) => {
                self.health = Health::Failed;
                Err(WriteFault::Failed)
            }
        }
    }
}
