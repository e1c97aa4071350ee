//! Identifiers that are wanted, in ascending order.

ghost use Rattle.std.specs.Prelude.{◌≡◌, ◌≤◌, ℕ, false};
ghost use Rattle.hprof_objects.specs.Wanted.{AreFrom, Rises, is_among};

/// Returns those of the identifiers that are not below a key.
#[inline(always)]
pub(crate) fn from_key(wanted: &[u64], key: u64) -> &[u64]
    requires { Rises wanted.now }
    ensures rises { Rises result.now }
    ensures from { AreFrom key result.now }
    ensures same { (id : ℕ) → key ≤ id → is_among result.now id ≡ is_among wanted.now id }
{
    let mut rest = wanted;
    while let Some((first, after)) = rest.split_first() {
        if *first >= key {
            return rest;
        }
        rest = after;
    }
    rest
}

/// Returns whether the key is one of the identifiers, of which none is below it.
#[inline(always)]
pub(crate) fn is_next(wanted: &[u64], key: u64) -> bool
    requires rises { Rises wanted.now }
    requires from { AreFrom key wanted.now }
    ensures { result ≡ is_among wanted.now key }
{
    match wanted.first() {
        Some(first) => *first == key,
        None => false,
    }
}

/// Returns whether one of the identifiers is not above a key.
pub(crate) fn has_up_to(wanted: &[u64], key: u64) -> bool
    requires { Rises wanted.now }
    ensures { result ≡ false → (id : ℕ) → id ≤ key → is_among wanted.now id ≡ false }
{
    match wanted.first() {
        Some(first) => *first <= key,
        None => false,
    }
}
