//! Identifiers as hexadecimal text. The form is this project's own.

ghost use Rattle.std.specs.Prelude.{◌≡◌, false, ℕ, ◌<◌, ◌^◌, ◌++◌, Some, OnOk, OnErr};
ghost use Rattle.std.specs.Fmt.{digit_glyph};
ghost use Rattle.std.specs.Option.{SomeIff};
ghost use Rattle.std.specs.String.{string_bytes};
ghost use Rattle.hprof_text.specs.Identifier.{id_digits, IsIdText, id_value};

use std::alloc::AllocError;

// The lower-case hexadecimal digit of a number below 16.
fn hex_digit(value: u64) -> u8
    requires { value < 16 }
    ensures { result ≡ digit_glyph false value }
{
    let value = value as u8;
    if value < 10 {
        b'0' + value
    } else {
        b'a' + (value - 10)
    }
}

/// Appends an identifier in lower-case hexadecimal without leading zeros, `0` for 0. If memory runs out, the answer is `AllocError` and the
/// text is unchanged.
pub fn push_id(text: &mut String, id: u64) -> Result<(), AllocError>
    ensures ok { OnOk result (string_bytes text.new ≡ string_bytes text.old ++ id_digits id) }
    ensures err { OnErr result (string_bytes text.new ≡ string_bytes text.old) }
{
    let mut digits = [b'0'; 16];
    let mut start = 15;
    let mut rest = id;
    while rest >= 16 {
        digits[start] = hex_digit(rest % 16);
        start -= 1;
        rest /= 16;
    }
    digits[start] = hex_digit(rest);
    text.push_str(str::from_utf8(&digits[start..]).unwrap())
}

/// Returns the identifier that one to sixteen hexadecimal digits of either case stand for, or `None` for any other text. A sign, a prefix
/// or a space is not accepted.
pub fn parse_id(text: &str) -> Option<u64>
    ensures value { SomeIff result (IsIdText text.now) (id_value text.now) }
    ensures digits { (id : ℕ) → id < 2 ^ 64 → text.now ≡ id_digits id → result ≡ Some id }
{
    if text.len() > 16 || text.starts_with('+') {
        return None;
    }
    u64::from_str_radix(text, 16).ok()
}
