//! Laws of the definitions. The contract of each function is a theorem; its body is empty.

ghost use Rattle.std.specs.Prelude.{◌≡◌, ◌++◌, ℕ, List, [], Option, length, map, true};
ghost use Rattle.std.specs.Io.KnownBytes.{Appends};
ghost use Rattle.hprof_values.specs.declared.ids.IdSize.{IdSize};
ghost use Rattle.hprof_items.specs.FactValue.{FactValue};
ghost use Rattle.hprof_items.specs.Spelling.{Fits};
ghost use Rattle.hprof_items.specs.SubRecord.{dump_bytes};
ghost use Rattle.hprof_merge.specs.Rows.{ByteRow};
ghost use Rattle.hprof_merge.specs.Run.{Runs};
ghost use Rattle.hprof_rows.specs.SubFacts.{is_sub_fact, sub_facts};
ghost use Rattle.hprof_dump.specs.Dump.{most_in_segment, sub_facts_bytes};
ghost use Rattle.hprof_dump.specs.Segments.{IsPacked};
ghost use Rattle.hprof_segments.specs.declared.segment_writer.SegmentWriter.{SegmentWriter};
ghost use Rattle.hprof_segments.specs.ByteSegments.{IsSub, byte_segments, segment_records};
ghost use Rattle.hprof_segments.specs.Taking.{HasTaken, held_record};
ghost use Rattle.hprof_segments.specs.Sink.{HasTakenRows, TakesRow};

use hprof_devices::Target;

/// The segments of sub-records are as full as they can be, and they alone are.
pub fn segments_are_full()
    ensures full { (subs : List (List ℕ)) → IsPacked length most_in_segment subs (byte_segments subs) }
    ensures once { (subs : List (List ℕ)) (segments : List (List (List ℕ))) → IsPacked length most_in_segment subs segments
        → segments ≡ byte_segments subs }
{}

/// The segments of the sub-records of facts are those that the canonical dump has. Each fact of a sub-record that can be encoded may be
/// taken.
pub fn segments_are_those_of_the_dump()
    ensures same { (ids : IdSize) (rows : List FactValue)
        → segment_records (map (dump_bytes ids) (sub_facts rows)) ≡ sub_facts_bytes ids rows }
    ensures subs { (ids : IdSize) (fact : FactValue) → Fits ids fact → is_sub_fact fact ≡ true → IsSub (dump_bytes ids fact) }
{}

/// A writer that holds nothing has taken nothing since. Of the segments of the sub-records that were taken, all were written but the last,
/// which is held. Whatever sub-records follow, what was written is a prefix of the segments of all.
pub fn all_but_the_last_are_written()
    ensures none { (written : Option (List ℕ)) → HasTaken written written [] [] }
    ensures last { (start now : Option (List ℕ)) (held : List ℕ) (subs : List (List ℕ)) → HasTaken start now held subs
        → ((sent : List ℕ) × Appends start now sent × (segment_records subs ≡ sent ++ held_record held)) }
    ensures prefix { (start now : Option (List ℕ)) (held : List ℕ) (subs more : List (List ℕ)) → HasTaken start now held subs
        → ((sent rest : List ℕ) × Appends start now sent × (segment_records (subs ++ more) ≡ sent ++ rest)) }
{}

/// If rows are taken one after another, their bytes are taken as sub-records, in this order.
pub fn rows_are_taken_in_order<W: Target>()
    ensures { (old new : SegmentWriter × W) (rows : List ByteRow) (start : Option (List ℕ)) (subs : List (List ℕ))
        → Runs (TakesRow W.written) old rows new → HasTakenRows W.written old start subs
        → HasTakenRows W.written new start (subs ++ map (λ row. row.1) rows) }
{}
