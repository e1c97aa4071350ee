//! The memory that objects may take.

ghost use Rattle.std.specs.Prelude.{◌≡◌};
ghost use Rattle.std.specs.Option.{SomeIff};
ghost use Rattle.std.specs.Str.{trim};
ghost use Rattle.std.specs.Str.Parse.{digits_value};
ghost use Rattle.hprof_scratch.specs.Memory.{memory_for};
ghost use Rattle.hprof_scratch.specs.Size.{IsDecimal};

use crate::size::parse_decimal;

/// Returns the number of bytes that are available, from the text of Linux's `/proc/meminfo`: the first line `MemAvailable:` gives it in kB,
/// which are 1024 bytes. The answer is `None` if no line gives it, or for 2^64 bytes or more.
pub fn available_of(meminfo: &str) -> Option<u64> {
    let mut lines = meminfo.lines();
    let amount = lines.find_map(|line| line.strip_prefix("MemAvailable:"))?;
    let mut words = amount.split_whitespace();
    let kilobytes = parse_decimal(words.next()?)?;
    match words.next() {
        Some("kB") => kilobytes.checked_mul(1024),
        _ => None,
    }
}

/// Returns the limit of a control group in bytes, from the text of its `memory.max`: decimal digits between white space. The answer is
/// `None` for `max`, which is no limit, for any other text, and for 2^64 bytes or more.
pub fn limit_of(text: &str) -> Option<u64>
    ensures { SomeIff result (IsDecimal (trim text.now)) (digits_value 10 (trim text.now)) }
{
    parse_decimal(text.trim())
}

/// Returns the number of bytes of memory that objects may take, from the number that is available and the limit of the control group. It
/// is a quarter of the lesser one, or of the one that is known. If neither is known, it is 256 MiB.
pub fn memory_for_objects(available: Option<u64>, limit: Option<u64>) -> u64
    ensures { result ≡ memory_for available limit }
{
    match (available, limit) {
        (Some(available), Some(limit)) => available.min(limit) / 4,
        (Some(known), None) | (None, Some(known)) => known / 4,
        (None, None) => 256 << 20,
    }
}
