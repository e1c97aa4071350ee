//! Texts in quotes.

ghost use Rattle.std.specs.Prelude.{◌≡◌, ◌++◌, IfOk, OnOk, string_bytes, take};
ghost use Rattle.std.specs.Option.{option_map};
ghost use Rattle.hprof_lines.specs.Printed.{printed_units};
ghost use Rattle.hprof_threads.specs.ThreadNames.{units_value};
ghost use Rattle.hprof_describe.specs.Quoted.{behind_label, more_text, quoted};

use hprof_naming::Units;
use hprof_text::push_unit;
use std::alloc::{AllocError, Global};

/// The number of units that are printed of a text.
const MOST_UNITS: usize = 100;

/// Appends the first units of a text in print.
fn push_first(text: &mut Vec<u8>, units: Units<'_>) -> Result<(), AllocError>
    ensures { OnOk result (text.new.items ≡ text.old.items ++ printed_units (take 100 (units_value units.entry))) }
{
    let mut rest = units.bytes;
    for _ in 0..MOST_UNITS {
        let Some((unit, after)) = units.coding.first_unit(rest) else {
            return Ok(());
        };
        push_unit(text, unit)?;
        rest = after;
    }
    Ok(())
}

/// Returns how many units are left out of a text of so many, or an empty text if none is.
fn more_text(alloc: Global, count: usize) -> Result<String, AllocError>
    ensures { IfOk result (λ text. string_bytes text ≡ more_text count) }
{
    if count <= MOST_UNITS {
        return Ok(String::new(alloc));
    }
    let more = count - MOST_UNITS;
    format!(in alloc; " .. {more} more")
}

/// Returns the first 100 units of a text in print, in quotes, and behind them how many more there are, if there are more. If memory runs
/// out, the answer is `AllocError`. The form is this project's own.
pub fn quoted(alloc: Global, units: Units<'_>) -> Result<String, AllocError>
    ensures { IfOk result (λ text. string_bytes text ≡ quoted (units_value units.entry)) }
{
    let mut first = Vec::new(alloc);
    push_first(&mut first, units)?;
    let first = String::from_utf8(first).unwrap();
    let more = more_text(alloc, units.count())?;
    format!(in alloc; "\"{first}\"{more}")
}

/// Returns what stands behind a label: a space and a text in quotes, or an empty text if there is none.
pub(crate) fn behind_label(alloc: Global, units: Option<Units<'_>>) -> Result<String, AllocError>
    ensures { IfOk result (λ text. string_bytes text ≡ behind_label (option_map units_value units.entry)) }
{
    let Some(units) = units else {
        return Ok(String::new(alloc));
    };
    let text = quoted(alloc, units)?;
    format!(in alloc; " {text}")
}
