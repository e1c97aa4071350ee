//! Readers and writers of std as sources and targets.

ghost use Rattle.std.specs.Prelude.{◌≡◌};
ghost use Rattle.hprof_devices.specs.declared.health.Health.TheVariants.{Well};
ghost use Rattle.hprof_devices.specs.Device.{EndsRead, EndsWrite};

use crate::flush::Flush;
use crate::health::{Health, ReadFault, WriteFault};
use crate::source::Source;
use crate::target::Target;
use std::io;
use std::io::{Read, Write};

/// A reader or a writer of std, with its health. An error of any kind is a failure, and no call is repeated.
#[derive(Drop)]
pub struct Device<T> {
    inner: T,
    health: Health,
    pulls: u64,
}

impl<T> Device<T> {
    ghost use Rattle.hprof_devices.specs.Device.{inner_of, health_of, pulls_of};

    /// Returns a device whose health is `Well`, and which was not pulled yet.
    pub fn new(inner: T) -> Self
        ensures inner { inner_of result ≡ inner }
        ensures health { health_of result ≡ Well }
        ensures pulls { pulls_of result ≡ 0 }
    {
        Device {
            inner,
            health: Health::Well,
            pulls: 0,
        }
    }

    /// Returns the health of the reader or writer.
    pub fn health(&self) -> Health
        ensures { result ≡ health_of self.now }
    {
        self.health
    }

    /// Returns the number of pulls so far. It saturates.
    pub fn pulls(&self) -> u64
        ensures { result ≡ pulls_of self.now }
    {
        self.pulls
    }

    /// Returns the reader or the writer.
    pub fn into_inner(self) -> T
        ensures { result ≡ inner_of self }
    {
        self.inner
    }
}

/// Returns the device's answer to a read, and its health, from std's answer.
fn end_of_read(answer: io::Result<usize>) -> (Result<usize, ReadFault>, Health)
    ensures { EndsRead answer result.0 result.1 }
{
    match answer {
        Ok(read) => (Ok(read), Health::Well),
        Err(_) => (Err(ReadFault::Failed), Health::Failed),
    }
}

/// Returns the device's answer to a write of a piece of this length, and its health, from std's answer.
pub(crate) fn end_of_write(
    answer: io::Result<usize>,
    length: usize,
) -> (Result<usize, WriteFault>, Health)
    ensures { EndsWrite answer length result.0 result.1 }
{
    match answer {
        Ok(0) if length > 0 => (Err(WriteFault::Stuck), Health::Stuck),
        Ok(taken) => (Ok(taken), Health::Well),
        Err(_) => (Err(WriteFault::Failed), Health::Failed),
    }
}

impl<T: Read> Source for Device<T> {
    ghost left = { λ d. T.remaining d.inner };

    ghost health = { λ d. d.health };

    ghost pulls = { λ d. d.pulls };

    fn pull(&mut self, piece: &mut [u8]) -> Result<usize, ReadFault> {
        self.pulls = self.pulls.saturating_add(1);
        let (outcome, health) = end_of_read(self.inner.read(piece));
        self.health = health;
        outcome
    }
}

impl<T: Write> Target for Device<T> {
    ghost written = { λ d. T.contents d.inner };

    ghost health = { λ d. d.health };

    fn push(&mut self, piece: &[u8]) -> Result<usize, WriteFault> {
        let (outcome, health) = end_of_write(self.inner.write(piece), piece.len());
        self.health = health;
        outcome
    }
}

impl<T: Write> Flush for Device<T> {
    ghost use Rattle.std.specs.Prelude.{⊤};

    // Of what a flush does std tells nothing.
    ghost flushed = { λ d. ⊤ };

    fn flush(&mut self) -> Result<(), WriteFault> {
        match self.inner.flush() {
            Ok(()) => Ok(()),
            Err(_) => {
                self.health = Health::Failed;
                Err(WriteFault::Failed)
            }
        }
    }
}
