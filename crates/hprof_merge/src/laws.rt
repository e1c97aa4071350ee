//! Laws of the definitions. The contract of each function is a theorem; its body is empty.

ghost use Rattle.std.specs.Prelude.{◌≡◌, ◌↔◌, ◌<◌, ◌≤◌, ◌⊎◌, ◌++◌, [], ◌∷◌, ℕ, List, Some, None};
ghost use Rattle.std.specs.List.Sorted.{IsPermutation};
ghost use Rattle.hprof_merge.specs.Late.{rows_in_order, late_rows};
ghost use Rattle.hprof_merge.specs.Rows.{ByteRow, Has, IsAscending};
ghost use Rattle.hprof_merge.specs.Union.{AllFrom, AnyHas, HaveSameRows, IsUnion, IsUnionBelow};
ghost use Rattle.hprof_merge.specs.TwoContents.{HasTwoContents, HasEnoughOf, IsLeastWithTwoContents};
ghost use Rattle.hprof_merge.specs.Showing.{AllShow, Shows, all_shown};
ghost use Rattle.hprof_merge.specs.SkipLate.{GoesSkipping, shown_skipping, skipping_over};
ghost use Rattle.hprof_merge.specs.RefuseLate.{GoesUp, refusing_over, shown_refusing};
ghost use Rattle.hprof_merge.specs.OneOf.{goes_either, of_either};
ghost use Rattle.hprof_merge.specs.declared.skip_late.SkipLate.{SkipLate};
ghost use Rattle.hprof_merge.specs.declared.refuse_late.RefuseLate.{RefuseLate};
ghost use Rattle.hprof_merge.specs.declared.one_of.OneOf.{OneOf};
ghost use Rattle.hprof_merge.specs.declared.one_of.OneOf.TheVariants.{First, Second};

use crate::row_cursor::{AscendingCursor, RowCursor};

/// Lists of rows have at most one union, and at most one below each bound.
pub fn one_union()
    ensures all { (lists : List (List ByteRow)) (all others : List ByteRow) → IsUnion lists all → IsUnion lists others → all ≡ others }
    ensures below { (lists : List (List ByteRow)) (bound : ℕ) (front others : List ByteRow) → IsUnionBelow lists bound front
        → IsUnionBelow lists bound others → front ≡ others }
{}

/// The union below a bound is a prefix of the union, if there is one.
pub fn union_below_is_a_prefix()
    ensures { (lists : List (List ByteRow)) (bound : ℕ) (front all : List ByteRow) → IsUnionBelow lists bound front → IsUnion lists all
        → ((rest : List ByteRow) × (all ≡ front ++ rest)) }
{}

/// Lists that have a union have no key with two contents. At most one key is the least with two contents.
pub fn union_or_two_contents()
    ensures apart { (lists : List (List ByteRow)) (all : List ByteRow) (key : ℕ) → IsUnion lists all → HasTwoContents lists key → ⊥ }
    ensures one { (lists : List (List ByteRow)) (key other : ℕ) → IsLeastWithTwoContents lists key → IsLeastWithTwoContents lists other
        → key ≡ other }
{}

/// The order of the lists makes no difference.
pub fn any_order_of_lists()
    ensures union { (lists others : List (List ByteRow)) (all : List ByteRow) → IsPermutation lists others → IsUnion lists all
        → IsUnion others all }
    ensures contents { (lists others : List (List ByteRow)) (key : ℕ) → IsPermutation lists others → IsLeastWithTwoContents lists key
        → IsLeastWithTwoContents others key }
{}

/// Lists with the same rows have the same union and the same least key with two contents.
pub fn the_same_rows()
    ensures union { (lists others : List (List ByteRow)) (all : List ByteRow) → HaveSameRows lists others
        → (IsUnion lists all ↔ IsUnion others all) }
    ensures contents { (lists others : List (List ByteRow)) (key : ℕ) → HaveSameRows lists others
        → (IsLeastWithTwoContents lists key ↔ IsLeastWithTwoContents others key) }
{}

/// Lists that were merged may be replaced by their union: it has with the rest the same union, and the same least key with two contents.
pub fn merged_in_groups()
    ensures union { (lists rest : List (List ByteRow)) (one all : List ByteRow) → IsUnion lists one
        → (IsUnion (one ∷ rest) all ↔ IsUnion (lists ++ rest) all) }
    ensures contents { (lists rest : List (List ByteRow)) (one : List ByteRow) (key : ℕ) → IsUnion lists one
        → (IsLeastWithTwoContents (one ∷ rest) key ↔ IsLeastWithTwoContents (lists ++ rest) key) }
{}

/// If a key has two contents in some of the lists, the least key of all lists is not above it. Below a bound, those lists may be replaced
/// by their union.
pub fn two_contents_in_a_group()
    ensures at_most { (lists rest : List (List ByteRow)) (key least : ℕ) → HasTwoContents lists key
        → IsLeastWithTwoContents (lists ++ rest) least → least ≤ key }
    ensures below { (lists rest : List (List ByteRow)) (bound lower : ℕ) (front : List ByteRow) → IsUnionBelow lists bound front
        → lower < bound
        → (HasTwoContents (front ∷ rest) lower ↔ HasTwoContents (lists ++ rest) lower) }
{}

/// Two rows of a key with two contents are enough: without the others, the union and the least key with two contents are the same.
pub fn two_contents_are_enough()
    ensures union { (lists others : List (List ByteRow)) (all : List ByteRow) → HasEnoughOf lists others
        → (IsUnion lists all ↔ IsUnion others all) }
    ensures contents { (lists others : List (List ByteRow)) (key : ℕ) → HasEnoughOf lists others
        → (IsLeastWithTwoContents lists key ↔ IsLeastWithTwoContents others key) }
{}

/// Rows that the lists have already, or that are above the least key with two contents, do not change it.
pub fn later_rows_change_nothing()
    ensures { (lists more : List (List ByteRow)) (key : ℕ) → ((row : ByteRow) → AnyHas more row → AnyHas lists row ⊎ (key < row.0))
        → IsLeastWithTwoContents lists key → IsLeastWithTwoContents (lists ++ more) key }
{}

/// The rows in order ascend. A late row is not above one of them. They and the late rows are all. If the rows ascend, none is late.
pub fn in_order_or_late()
    ensures ascend { (rows : List ByteRow) → IsAscending (rows_in_order rows) }
    ensures late { (rows : List ByteRow) (row : ByteRow) → Has (late_rows rows) row
        → ((other : ByteRow) × Has (rows_in_order rows) other × (row.0 ≤ other.0)) }
    ensures all { (rows : List ByteRow) → IsPermutation (rows_in_order rows ++ late_rows rows) rows }
    ensures ascending { (rows : List ByteRow) → IsAscending rows → (rows_in_order rows ≡ rows) × (late_rows rows ≡ []) }
{}

/// The rows in order, and lists with the late rows, may replace a list of rows.
pub fn late_rows_in_other_lists()
    ensures { (rows : List ByteRow) (others rest : List (List ByteRow)) → HaveSameRows others (late_rows rows ∷ [])
        → HaveSameRows (rows_in_order rows ∷ (others ++ rest)) (rows ∷ rest) }
{}

/// The rows that an ascending cursor shows ascend, and the row that it shows next is above them.
pub fn cursors_ascend<C: AscendingCursor>()
    ensures rows { (old new : C) (rows : List ByteRow) → Shows C.shown C.goes old rows new → IsAscending rows }
    ensures next { (old new : C) (rows : List ByteRow) (next : ByteRow) → Shows C.shown C.goes old rows new → C.shown new ≡ Some next
        → (row : ByteRow) → Has rows row → row.0 < next.0 }
{}

/// Whatever ascending cursors show later is shown already, or is above a key below which they show none.
pub fn later_rows_are_above<C: AscendingCursor>()
    ensures { (old new : List C) (later : List (List ByteRow)) (key : ℕ) → AllShow C.shown C.goes old new later
        → AllFrom key (all_shown C.shown old) → (row : ByteRow) → AnyHas later row → AnyHas (all_shown C.shown old) row ⊎ (key < row.0) }
{}

/// If a merge stops at the least key with two contents, it is the least of all rows that the cursors would show up to their ends.
pub fn least_of_all_rows<C: AscendingCursor>()
    ensures { (old new : List C) (came later : List (List ByteRow)) (key : ℕ) → AllShow C.shown C.goes old new later
        → ((row : ByteRow) → AnyHas (all_shown C.shown new) row → ⊥) → AllFrom key (all_shown C.shown old)
        → IsLeastWithTwoContents (came ++ all_shown C.shown old) key → IsLeastWithTwoContents (came ++ later) key }
{}

/// The rows that `SkipLate` shows, up to its end, are the rows in order of the cursor below.
pub fn skip_late_shows_rows_in_order<C: RowCursor>()
    ensures { (old new : SkipLate C) (rows : List ByteRow) → Shows (shown_skipping C.shown) (GoesSkipping C.shown C.goes) old rows new
        → shown_skipping C.shown new ≡ None
        → ((all : List ByteRow) × Shows C.shown C.goes (skipping_over old) all (skipping_over new) × (rows ≡ rows_in_order all)) }
{}

/// The rows that `RefuseLate` shows are those of the cursor below.
pub fn refuse_late_shows_all<C: RowCursor>()
    ensures { (old new : RefuseLate C) (rows : List ByteRow) → Shows (shown_refusing C.shown) (GoesUp C.shown C.goes) old rows new
        → Shows C.shown C.goes (refusing_over old) rows (refusing_over new) }
{}

/// The rows that `OneOf` shows are those of its kind.
pub fn one_of_shows_its_kind<A: RowCursor, B: RowCursor>()
    ensures first { (old : A) (new : OneOf A B) (rows : List ByteRow)
        → Shows (of_either A.shown B.shown) (goes_either A.goes B.goes) (First old) rows new
        → ((after : A) × (new ≡ First after) × Shows A.shown A.goes old rows after) }
    ensures second { (old : B) (new : OneOf A B) (rows : List ByteRow)
        → Shows (of_either A.shown B.shown) (goes_either A.goes B.goes) (Second old) rows new
        → ((after : B) × (new ≡ Second after) × Shows B.shown B.goes old rows after) }
{}
