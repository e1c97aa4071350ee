//! Devices that get stuck or fail.

ghost use Rattle.std.specs.Prelude.{◌≤◌, IfOk};

use crate::expecting::{equal, equal_at};
use hprof_devices::{Device, Health, ReadFault, Source, Target, WriteFault};
use hprof_writing::write_head;
use std::io;
use std::io::{Read, Write};
use std::test::*;

// Moves some bytes in all, three a call, and from then on fails or moves none.
#[derive(Drop)]
struct Narrow {
    room: usize,
    fails: bool,
}

impl Narrow {
    fn moves(&mut self, len: usize) -> io::Result<usize>
        ensures { IfOk result (λ n. n ≤ len) }
    {
        let count = len.min(self.room).min(3);
        if count == 0 && self.fails {
            return Err(io::Error::from(io::ErrorKind::BrokenPipe));
        }
        self.room -= count;
        Ok(count)
    }
}

impl Read for Narrow {
    fn read(&mut self, buf: &mut [u8]) -> io::Result<usize> {
        self.moves(buf.len())
    }
}

impl Write for Narrow {
    fn write(&mut self, buf: &[u8]) -> io::Result<usize> {
        self.moves(buf.len())
    }

    fn flush(&mut self) -> io::Result<()> {
        Ok(())
    }
}

#[test]
fn pushes(rt: HostRuntime) {
    for (room, fails, want, health) in [
        (5, true, Err(WriteFault::Failed), Health::Failed),
        (5, false, Err(WriteFault::Stuck), Health::Stuck),
        (9, true, Ok(()), Health::Well),
    ] {
        let mut device = Device::new(Narrow { room, fails });
        let written = write_head(0x2c, 0, &mut device);
        equal_at(
            &rt,
            room,
            (written, device.health(), device.into_inner().room),
            (want, health, 0),
        );
    }
    let mut device = Device::new(Narrow {
        room: 5,
        fails: false,
    });
    let pushed = device.push(b"abcd");
    assert_eq!(rt; pushed, Ok(3));
    equal(&rt, device.health(), Health::Well);
    let pushed = device.push(b"");
    equal(&rt, (pushed, device.health()), (Ok(0), Health::Well));
}

#[test]
fn pulls(rt: HostRuntime) {
    let mut device = Device::new(Narrow {
        room: 3,
        fails: true,
    });
    let mut piece = [0; 4];
    equal(&rt, device.pulls(), 0);
    assert_eq!(rt; device.pull(&mut piece), Ok(3));
    equal(&rt, device.health(), Health::Well);
    let pulled = device.pull(&mut piece);
    equal(
        &rt,
        (pulled, device.health(), device.pulls()),
        (Err(ReadFault::Failed), Health::Failed, 2),
    );
    let mut bytes = Device::new(b"ab".as_slice());
    assert_eq!(rt; bytes.pull(&mut piece), Ok(2));
    equal(
        &rt,
        (piece, bytes.health(), bytes.pull(&mut piece)),
        ([b'a', b'b', 0, 0], Health::Well, Ok(0)),
    );
}

// Fails once, and works from then on.
#[derive(Drop)]
struct FailsOnce {
    failed: bool,
    kind: io::ErrorKind,
}

impl FailsOnce {
    fn fails(&mut self) -> io::Result<usize>
        ensures { IfOk result (λ n. n ≤ 0) }
    {
        if self.failed {
            return Ok(0);
        }
        self.failed = true;
        Err(io::Error::from(self.kind))
    }
}

impl Read for FailsOnce {
    fn read(&mut self, _buf: &mut [u8]) -> io::Result<usize> {
        self.fails()
    }
}

impl Write for FailsOnce {
    fn write(&mut self, _buf: &[u8]) -> io::Result<usize> {
        self.fails()
    }

    fn flush(&mut self) -> io::Result<()> {
        Ok(())
    }
}

#[test]
fn nothing_is_tried_again(rt: HostRuntime) {
    for kind in [
        io::ErrorKind::Interrupted,
        io::ErrorKind::WouldBlock,
        io::ErrorKind::TimedOut,
        io::ErrorKind::UnexpectedEof,
        io::ErrorKind::WriteZero,
        io::ErrorKind::OutOfMemory,
    ] {
        let failing = || FailsOnce {
            failed: false,
            kind,
        };
        let mut source = Device::new(failing());
        let pulled = source.pull(&mut [0]);
        equal(
            &rt,
            (pulled, source.health()),
            (Err(ReadFault::Failed), Health::Failed),
        );
        let mut target = Device::new(failing());
        let pushed = target.push(b"a");
        equal(
            &rt,
            (pushed, target.health()),
            (Err(WriteFault::Failed), Health::Failed),
        );
    }
}
