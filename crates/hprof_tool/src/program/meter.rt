//! The progress meter: a line on a terminal that says how much of the parts was read.

use std::cell::{Cell, RefCell};
use std::fmt;
use std::fmt::InlineText;
use std::fs::OpenFile;
use std::io::Write;
use std::rt::Clock;
use std::time::{Duration, Instant};

/// The shortest time between two lines, and before the first one, in milliseconds.
const PAUSE: u64 = 100;

/// The number of bytes of room for a line. Each line is shorter.
const LINE_LEN: usize = 96;

/// The number of bytes of a megabyte.
const BYTES_OF_MEGABYTE: u64 = 1_000_000;

/// Goes to the start of the terminal's line and erases it.
const ERASURE: &[u8] = b"\r\x1b[K";

/// A part in a file, and how much of it was read.
#[derive(Clone, Copy)]
pub(crate) struct Part {
    /// The place of the part among those that were opened, counted from 1.
    number: usize,
    /// The number of bytes that were read.
    read: u64,
    /// The length of the file in bytes. It is 0 for a pipe.
    length: u64,
}

impl fmt::Display for Part {
    /// Prints how much of it was read: in percent of its length, if it has one, and else in megabytes.
    fn fmt<W: fmt::Write>(&self, f: &mut fmt::Formatter<W>) -> fmt::Result {
        match self.read.saturating_mul(100).checked_div(self.length) {
            Some(percent) => {
                // A file that is still written may grow.
                let percent = percent.min(100);
                write!(f, "{percent} %")
            }
            None => {
                let megabytes = self.read / BYTES_OF_MEGABYTE;
                write!(f, "{megabytes} MB")
            }
        }
    }
}

/// What is read.
#[derive(Clone, Copy)]
enum Reading {
    /// A part, for the first time.
    First {
        part: Part,
        /// The number of parts.
        parts: usize,
    },
    /// The objects of all parts, again.
    Again {
        /// The number of bytes that were read again.
        read: u64,
    },
}

impl fmt::Display for Reading {
    fn fmt<W: fmt::Write>(&self, f: &mut fmt::Formatter<W>) -> fmt::Result {
        match *self {
            Reading::First { part, parts } => {
                let number = part.number;
                write!(f, "reading part {number} of {parts}: {part}")
            }
            Reading::Again { read } => {
                let megabytes = read / BYTES_OF_MEGABYTE;
                write!(f, "reading again: {megabytes} MB")
            }
        }
    }
}

/// A line on a terminal that is written over. A terminal that cannot be written to is no fault.
#[derive(Drop)]
struct Line<T> {
    terminal: T,
    is_shown: bool,
    /// The time of the last line. Before the first one it is the time of the first read.
    last: Option<Instant>,
}

impl<T: Write> Line<T> {
    /// Returns whether it is time for the next line, and then takes that as its time.
    fn is_due(&mut self, now: Instant) -> bool {
        let is_due = match self.last {
            Some(last) => now.duration_since(last) >= Duration::from_millis(PAUSE),
            None => false,
        };
        if is_due || self.last.is_none() {
            self.last = Some(now);
        }
        is_due
    }

    /// Writes the line, in one piece.
    fn show(&mut self, reading: Reading) {
        let text = InlineText::<LINE_LEN>::of(format_args!("\r{reading}\x1b[K"));
        let _ = self.terminal.write_all(text.as_str().as_bytes());
        self.is_shown = true;
    }

    /// Erases the line, if it is shown.
    fn clear(&mut self) {
        if self.is_shown {
            let _ = self.terminal.write_all(ERASURE);
            self.is_shown = false;
        }
    }
}

/// A progress meter. It writes to a terminal, if there is one, at most ten times a second.
#[derive(Drop)]
pub(crate) struct Meter<T> {
    line: Option<RefCell<Line<T>>>,
    /// The number of parts that were opened. All are opened before one is read.
    parts: Cell<usize>,
    /// The number of bytes that were read again, of all parts.
    again: Cell<u64>,
}

impl<T: Write> Meter<T> {
    /// Returns a meter of no part, with no line shown.
    pub(crate) fn new(terminal: Option<T>) -> Self {
        Meter {
            line: match terminal {
                Some(terminal) => Some(RefCell::new(Line {
                    terminal,
                    is_shown: false,
                    last: None,
                })),
                None => None,
            },
            parts: Cell::new(0),
            again: Cell::new(0),
        }
    }

    /// Counts a part that was opened, and returns it. Without a terminal it returns `None`, and asks nothing of the file.
    pub(crate) fn opened<F: OpenFile>(&self, file: &F) -> Option<Part> {
        if self.line.is_none() {
            return None;
        }
        let number = self.parts.get().saturating_add(1);
        self.parts.set(number);
        Some(Part {
            number,
            read: 0,
            length: match file.metadata() {
                Ok(metadata) => metadata.len(),
                Err(_) => 0,
            },
        })
    }

    /// Counts bytes that were read of a part, and writes the line, if it is time. At the end of the last part it erases the line.
    pub(crate) fn has_read<C: Clock>(&self, part: &mut Part, count: usize, clock: &C) {
        part.read = part.read.saturating_add(count as u64);
        let parts = self.parts.get();
        if count == 0 && part.number == parts {
            self.clear();
            return;
        }
        let reading = Reading::First { part: *part, parts };
        self.tell(reading, clock);
    }

    /// Counts bytes that were read again, and writes the line, if it is time.
    pub(crate) fn has_read_again<C: Clock>(&self, count: usize, clock: &C) {
        let read = self.again.get().saturating_add(count as u64);
        self.again.set(read);
        self.tell(Reading::Again { read }, clock);
    }

    /// Writes the line, if it is time.
    fn tell<C: Clock>(&self, reading: Reading, clock: &C) {
        let Some(line) = &self.line else {
            return;
        };
        let Ok(now) = Instant::now(clock) else {
            return;
        };
        if let Ok(mut line) = line.try_borrow_mut() {
            if line.is_due(now) {
                line.show(reading);
            }
        }
    }

    /// Erases the line, if it is shown.
    pub(crate) fn clear(&self) {
        if let Some(line) = &self.line {
            if let Ok(mut line) = line.try_borrow_mut() {
                line.clear();
            }
        }
    }
}
