//! Making the rows of a histogram from counts.

ghost use Rattle.std.specs.Prelude.{◌≡◌, ◌++◌, ◌∷◌, [], OnOk, IfOk, nat_eq};
ghost use Rattle.std.specs.List.{IsDistinct, filter};
ghost use Rattle.hprof_tables.specs.HintedMap.{keys_in, rows_in};
ghost use Rattle.hprof_histogram.specs.CountedKinds.{class_rows, element_types, has_objects, row_of, type_rows};

use crate::counted::Counted;
use crate::counted_kinds::{CountedKinds, TYPES};
use crate::row::{Kind, Row};
use hprof_tables::HintedMap;
use hprof_values::Basic;
use std::alloc::{AllocError, Global};

/// The types that elements of primitive arrays may have, by code.
const ELEMENT_TYPES: [Basic; 8] = [
    Basic::Boolean,
    Basic::Char,
    Basic::Float,
    Basic::Double,
    Basic::Byte,
    Basic::Short,
    Basic::Int,
    Basic::Long,
];

/// Appends the row of a kind, if there are objects of it.
fn push_row(rows: &mut Vec<Row>, kind: Kind, counted: Counted) -> Result<(), AllocError>
    ensures { OnOk result (rows.new.items ≡ rows.old.items ++ filter has_objects (row_of kind counted ∷ [])) }
{
    let Counted { count, bytes } = counted;
    if count > 0 {
        rows.push(Row { kind, count, bytes })?;
    }
    Ok(())
}

/// Appends the rows of classes.
fn push_classes(rows: &mut Vec<Row>, classes: &HintedMap<Counted>) -> Result<(), AllocError>
    ensures rows { OnOk result (rows.new.items ≡ rows.old.items ++ filter has_objects (class_rows (rows_in classes.now))) }
    ensures apart { OnOk result (IsDistinct nat_eq (keys_in classes.now)) }
{
    for row in classes.rows() {
        push_row(rows, Kind::Class(row.0), row.1)?;
    }
    Ok(())
}

/// Appends the rows of types.
fn push_types(rows: &mut Vec<Row>, types: &[Counted; TYPES]) -> Result<(), AllocError>
    ensures { OnOk result (rows.new.items ≡ rows.old.items ++ filter has_objects (type_rows types.now element_types)) }
{
    for elem in &ELEMENT_TYPES {
        push_row(rows, Kind::Prim(*elem), types[elem.code() as usize])?;
    }
    Ok(())
}

/// Returns the rows of the counts: first those of classes, then those of types.
pub(crate) fn rows_of(alloc: Global, tally: &CountedKinds) -> Result<Vec<Row>, AllocError>
    ensures rows { IfOk result (λ rows. rows.items ≡ filter has_objects (class_rows (rows_in tally.now.classes))
        ++ filter has_objects (type_rows tally.now.types element_types)) }
    // Each class stands there once.
    ensures apart { OnOk result (IsDistinct nat_eq (keys_in tally.now.classes)) }
{
    let most = tally.classes.len() + ELEMENT_TYPES.len();
    let mut rows = Vec::with_capacity(alloc, most)?;
    push_classes(&mut rows, &tally.classes)?;
    push_types(&mut rows, &tally.types)?;
    Ok(rows)
}
