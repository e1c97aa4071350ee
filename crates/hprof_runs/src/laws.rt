//! Laws of the definitions. The contract of each function is a theorem; its body is empty.

ghost use Rattle.std.specs.Prelude.{◌≡◌, ◌≤◌, ◌+◌, ◌++◌, [], ◌∷◌, ℕ, List, length, None};
ghost use Rattle.std.specs.List.Sorted.{IsPermutation};
ghost use Rattle.hprof_merge.specs.Rows.{ByteRow, IsAscending};
ghost use Rattle.hprof_merge.specs.Showing.{AllShow, Shows, all_shown};
ghost use Rattle.hprof_merge.specs.TwoContents.{HasEnoughOf, IsLeastWithTwoContents};
ghost use Rattle.hprof_merge.specs.Union.{AllFrom, AnyHas, HaveSameRows, IsUnionBelow};
ghost use Rattle.hprof_runs.specs.declared.firsts.Firsts.{Firsts};
ghost use Rattle.hprof_runs.specs.declared.others.Others.{Others};
ghost use Rattle.hprof_runs.specs.declared.run_cursor.RunCursor.{RunCursor};
ghost use Rattle.hprof_runs.specs.declared.runs.Runs.{Runs};
ghost use Rattle.hprof_runs.specs.declared.sorted_rows.SortedRows.{SortedRows};
ghost use Rattle.hprof_runs.specs.Known.{AllComeTo};
ghost use Rattle.hprof_runs.specs.Picked.{IsSortedByKey, first_of, firsts_of, others_of};
ghost use Rattle.hprof_runs.specs.Picking.{FirstsGo, OthersGo, firsts_shown, firsts_to_come, others_shown, others_to_come};
ghost use Rattle.hprof_runs.specs.RowsIn.{sorted_in};
ghost use Rattle.hprof_runs.specs.RunCursor.{ComesTo, GoesOn, run_shown};
ghost use Rattle.hprof_runs.specs.RunOf.{run_lists};
ghost use Rattle.hprof_runs.specs.Runs.{HoldsRuns, run_count};

use crate::known_cursor::KnownCursor;
use crate::scratch::Scratch;

/// The keys of sorted rows do not fall.
pub fn sorted_keys_do_not_fall()
    ensures { (rows : SortedRows) → IsSortedByKey (sorted_in rows) }
{}

/// Rows in another order are the same rows.
pub fn any_order_of_rows()
    ensures { (rows others : List ByteRow) → IsPermutation rows others → HaveSameRows (rows ∷ []) (others ∷ []) }
{}

/// The first rows ascend, and so do the others.
pub fn firsts_and_others_ascend()
    ensures firsts { (rows : List ByteRow) → IsAscending (firsts_of rows) }
    ensures others { (rows : List ByteRow) → IsAscending (others_of rows) }
{}

/// Of rows sorted by key, the first rows and the others are enough: they have the same union, and the same least key with two contents. So
/// are the runs that they are written as.
pub fn firsts_and_others_are_enough()
    ensures both { (rows : List ByteRow) → IsSortedByKey rows → HasEnoughOf (rows ∷ []) (firsts_of rows ∷ others_of rows ∷ []) }
    ensures runs { (rows : List ByteRow) → IsSortedByKey rows → HasEnoughOf (rows ∷ []) (run_lists rows) }
{}

/// Lists that are enough of the same rows, or of one group and of another, are enough.
pub fn enough_in_groups()
    ensures same { (lists same others : List (List ByteRow)) → HaveSameRows lists same → HasEnoughOf same others
        → HasEnoughOf lists others }
    ensures both { (lists others more more_others : List (List ByteRow)) → HasEnoughOf lists others → HasEnoughOf more more_others
        → HasEnoughOf (lists ++ more) (others ++ more_others) }
{}

/// The rows that a cursor shows, up to its end, are exactly those to which it comes. Before its end, they are a prefix, and the first of
/// the others is shown.
pub fn known_cursors_show_rows<C: KnownCursor>()
    ensures all { (old new : C) (rows came : List ByteRow) → C.comes_to old rows → Shows C.shown C.goes old came new
        → C.shown new ≡ None → came ≡ rows }
    ensures so_far { (old new : C) (rows came : List ByteRow) → C.comes_to old rows → Shows C.shown C.goes old came new
        → ((rest : List ByteRow) × (rows ≡ came ++ rest) × C.comes_to new rest) }
    ensures first { (it : C) (rows : List ByteRow) → C.comes_to it rows → C.shown it ≡ first_of rows }
{}

/// The rows that the cursors over sorted rows show, up to their end, are exactly the first rows, and the others.
pub fn cursors_show_sorted_rows()
    ensures firsts { (old new : Firsts) (came : List ByteRow) → Shows firsts_shown FirstsGo old came new → firsts_shown new ≡ None
        → came ≡ firsts_to_come old }
    ensures others { (old new : Others) (came : List ByteRow) → Shows others_shown OthersGo old came new → others_shown new ≡ None
        → came ≡ others_to_come old }
{}

/// If the scratch tells its bytes, the rows that a cursor over a run shows, up to its end, are exactly those of the run.
pub fn run_cursors_show_runs<S: Scratch>()
    ensures { (old new : RunCursor S) (rows came : List ByteRow) → ComesTo S.written old rows
        → Shows run_shown (GoesOn S.written) old came new → run_shown new ≡ None → came ≡ rows }
{}

/// Scratch that holds the rows of lists has a run for each list.
pub fn one_run_for_each_list<S: Scratch>()
    ensures { (runs : Runs S) (lists : List (List ByteRow)) → HoldsRuns S.written S.health runs lists → length lists ≡ run_count runs }
{}

/// Cursors that come to the rows of lists show, up to their ends, exactly these rows. If a merge of them stops at the least key with two
/// contents, it is the least of these lists. If no cursor shows a row below a key, the rows up to the key that came and those that are
/// shown are those of the lists.
pub fn merged_rows_are_all<C: KnownCursor>()
    ensures all { (old new : List C) (lists came : List (List ByteRow)) → AllComeTo C.comes_to old lists
        → AllShow C.shown C.goes old new came → ((row : ByteRow) → AnyHas (all_shown C.shown new) row → ⊥) → came ≡ lists }
    ensures least { (old new : List C) (lists came : List (List ByteRow)) (key : ℕ) → AllComeTo C.comes_to old lists
        → AllShow C.shown C.goes old new came → AllFrom key (all_shown C.shown new)
        → IsLeastWithTwoContents (came ++ all_shown C.shown new) key → IsLeastWithTwoContents lists key }
    ensures below { (old new : List C) (lists came : List (List ByteRow)) (key bound : ℕ) (front : List ByteRow)
        → AllComeTo C.comes_to old lists
        → AllShow C.shown C.goes old new came → AllFrom key (all_shown C.shown new) → bound ≤ key + 1
        → IsUnionBelow (came ++ all_shown C.shown new) bound front → IsUnionBelow lists bound front }
{}
