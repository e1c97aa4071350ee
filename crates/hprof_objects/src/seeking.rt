//! Going on to a key.

ghost use Rattle.std.specs.Prelude.{◌≡◌, IfOk, IfErr, OnOk};
ghost use Rattle.hprof_objects.specs.Seeking.{FailsBehind, IsFound, ShowsUpTo};

use hprof_merge::AscendingCursor;

/// Goes on to the first row whose key is not below this one, and returns whether it is the key.
pub(crate) fn go_up_to<C: AscendingCursor>(cursor: &mut C, key: u64) -> Result<bool, C::Fault>
    requires { C.well cursor.old }
    ensures shows { OnOk result (ShowsUpTo C.shown C.goes key cursor.old cursor.new) }
    ensures found { IfOk result (λ found. IsFound key found (C.shown cursor.new)) }
    ensures well { OnOk result (C.well cursor.new) }
    ensures fails { IfErr result (λ fault. FailsBehind C.shown C.goes C.fails cursor.old fault cursor.new) }
{
    while let Some((next, _)) = cursor.current() {
        if next >= key {
            return Ok(next == key);
        }
        cursor.advance()?;
    }
    Ok(false)
}
