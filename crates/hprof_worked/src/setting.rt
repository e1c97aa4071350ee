//! The settings of a case.

use hprof_stream::Limits;
use hprof_worked_calls::{End, Feed, Room, Trouble, Ways, number};

/// The settings of a case.
#[derive(Clone, Copy)]
pub(crate) struct Setting {
    /// How the calls are made.
    pub(crate) ways: Ways,
    /// The room of each file that the program creates.
    pub(crate) disk: Room,
    /// The lengths to which the last part is cut, from the first to the last.
    pub(crate) cut: Option<(usize, usize)>,
    /// True if each call is repeated with each smaller room, with a writer that fails and one that gets stuck.
    pub(crate) in_each_room: bool,
    /// True if each call is repeated with readers that give few bytes at a time.
    pub(crate) in_pieces: bool,
    /// True if each call is repeated with each prefix of the input, after which reading fails.
    pub(crate) in_each_input: bool,
    /// True if the program runs on regular files alone.
    pub(crate) is_regular: bool,
    /// True if the program prompts for each line of its input.
    pub(crate) is_prompted: bool,
}

/// Returns what a writer does at the end, from its words.
fn end_of(text: &str) -> Result<End, Trouble> {
    match text.trim() {
        "fails" => Ok(End::Fails),
        "sticks" => Ok(End::Sticks),
        "fails to flush" => Ok(End::FailsToFlush),
        _ => Err(Trouble::Unclear),
    }
}

/// Returns the room that a text spells, as `10 fails`.
fn room_of(text: &str) -> Result<Room, Trouble> {
    let Some((bytes, end)) = text.split_once(' ') else {
        return Err(Trouble::Unclear);
    };
    let bytes = if bytes == "all" {
        usize::MAX
    } else {
        number(bytes)?
    };
    Ok(Room {
        bytes,
        at_once: usize::MAX,
        end: Some(end_of(end)?),
    })
}

/// Returns the limits, with the one that a text spells, as `reads 2`.
fn limits_with(limits: Limits, text: &str) -> Result<Limits, Trouble> {
    let Some((what, most)) = text.split_once(' ') else {
        return Err(Trouble::Unclear);
    };
    let most = number(most)? as u64;
    match what {
        "item" => Ok(Limits {
            max_item: u32::try_from(most).unwrap_or(u32::MAX),
            ..limits
        }),
        "reads" => Ok(Limits {
            max_reads: most,
            ..limits
        }),
        "bytes" => Ok(Limits {
            max_bytes: most,
            ..limits
        }),
        _ => Err(Trouble::Unclear),
    }
}

/// Returns the lengths that a text spells, as `32 44`.
fn lengths_of(text: &str) -> Result<(usize, usize), Trouble> {
    match text.split_once(' ') {
        Some((from, to)) => Ok((number(from)?, number(to)?)),
        None => Err(Trouble::Unclear),
    }
}

impl Setting {
    /// Returns the settings with which every case begins.
    pub(crate) fn plain() -> Setting {
        Setting {
            ways: Ways {
                limits: Limits::usual(),
                feed: Feed {
                    at_once: usize::MAX,
                    breaks: false,
                },
                room: Room::ENOUGH,
            },
            disk: Room::ENOUGH,
            cut: None,
            in_each_room: false,
            in_pieces: false,
            in_each_input: false,
            is_regular: false,
            is_prompted: false,
        }
    }

    /// Returns the settings after a line, or `None` if its word is no setting.
    pub(crate) fn with(self, word: &str, rest: &str) -> Result<Option<Setting>, Trouble> {
        let mut now = self;
        match word {
            "limit" => now.ways.limits = limits_with(self.ways.limits, rest)?,
            "by" if rest == "each" => now.in_pieces = true,
            "by" => now.ways.feed.at_once = number(rest)?,
            "broken" => now.ways.feed.breaks = true,
            "room" if rest == "each" => now.in_each_room = true,
            "room" => now.ways.room = room_of(rest)?,
            "disk" => now.disk = room_of(rest)?,
            "input" if rest == "each" => now.in_each_input = true,
            "regular" => now.is_regular = true,
            "prompts" => now.is_prompted = true,
            "cut" => now.cut = Some(lengths_of(rest)?),
            _ => return Ok(None),
        }
        Ok(Some(now))
    }
}
