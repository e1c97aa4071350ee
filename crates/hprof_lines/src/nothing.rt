//! The line of an identifier that no dump has.

ghost use Rattle.std.specs.Prelude.{◌≡◌, IfOk, string_bytes};
ghost use Rattle.hprof_lines.specs.Line.{nothing_line};

use std::alloc::{AllocError, Global};

/// Returns the line of an identifier that no dump has.
pub fn nothing_line(alloc: Global, id: u64) -> Result<String, AllocError>
    ensures { IfOk result (λ line. string_bytes line ≡ nothing_line id) }
{
    format!(in alloc; "nothing at {id:x}\n")
}
