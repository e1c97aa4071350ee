//! Sizes as text: decimal digits, and behind them a suffix or nothing.

ghost use Rattle.std.specs.Prelude.{◌≡◌, ◌<◌, ◌^◌, ◌↔◌, ℕ, List, [], ◌∷◌, ◌++◌, Some, MatchOption};
ghost use Rattle.std.specs.Option.{SomeIff};
ghost use Rattle.std.specs.Str.Parse.{IsNumeral, digits_value};
ghost use Rattle.hprof_scratch.specs.Size.{IsDecimal, IsSize, IsSuffix};

/// Returns the number of bytes that a suffix stands for, or `None` if the letter is no suffix.
fn bytes_of(letter: u8) -> Option<u64>
    ensures { MatchOption result ((bytes : ℕ) → ¬ IsSuffix (letter ∷ []) bytes) (λ bytes. IsSuffix (letter ∷ []) bytes) }
{
    match letter {
        b'K' | b'k' => Some(1 << 10),
        b'M' | b'm' => Some(1 << 20),
        b'G' | b'g' => Some(1 << 30),
        b'T' | b't' => Some(1 << 40),
        _ => None,
    }
}

/// Returns the text before the suffix, and the number of bytes that the suffix stands for. Without a suffix they are the whole text, and 1.
fn split_suffix(text: &str) -> (&str, u64)
    ensures parts { (suffix : List ℕ) × (text.now ≡ result.0.now ++ suffix) × IsSuffix suffix result.1 }
    ensures only { (digits suffix : List ℕ) (bytes : ℕ) → IsNumeral 10 digits → IsSuffix suffix bytes → text.now ≡ digits ++ suffix
        → (digits ≡ result.0.now) × (bytes ≡ result.1) }
{
    let Some(letter) = text.as_bytes().last() else {
        return (text, 1);
    };
    match bytes_of(*letter) {
        Some(bytes) => (&text[..text.len() - 1], bytes),
        None => (text, 1),
    }
}

/// Returns the number that decimal digits write, or `None` for any other text, and for 2^64 or more. A sign is not accepted.
pub(crate) fn parse_decimal(text: &str) -> Option<u64>
    ensures { SomeIff result (IsDecimal text.now) (digits_value 10 text.now) }
{
    if text.starts_with('+') {
        return None;
    }
    text.parse::<u64>().ok()
}

/// Returns the number of bytes of a size. A size is one or more decimal digits, and behind them nothing or a suffix: `K`, `M`, `G` or `T`,
/// or the same in lower case, for 2^10, 2^20, 2^30 or 2^40 bytes. The answer is `None` for any other text, and for 2^64 bytes or more.
pub fn parse_size(text: &str) -> Option<u64>
    ensures { (bytes : ℕ) → bytes < 2 ^ 64 → (result ≡ Some bytes) ↔ IsSize text.now bytes }
{
    let (digits, bytes) = split_suffix(text);
    parse_decimal(digits)?.checked_mul(bytes)
}
