//! Laws of the definitions. The contract of each function is a theorem; its body is empty.

ghost use Rattle.std.specs.Prelude.{◌≡◌, ℕ, List, ◌≤◌};
ghost use Rattle.hprof_values.specs.declared.ids.IdSize.{IdSize};
ghost use Rattle.hprof_items.specs.FactValue.{FactValue};
ghost use Rattle.hprof_stream.specs.Part.{IsPart};
ghost use Rattle.hprof_rows.specs.HeapValue.{IsHeap};
ghost use Rattle.hprof_dump.specs.Dump.{canonical_dump};
ghost use Rattle.hprof_dump.specs.Segments.{IsPacked, packed};
ghost use Rattle.hprof_items.specs.Spelling.{longest_body};
ghost use Rattle.hprof_dump.specs.Dump101.{dump101, sub_len};

/// Sub-records are divided among segments that are as full as they can be in exactly one way, whatever their sizes and the most bytes of a
/// segment with more than one: each goes into the last segment if it has room, and begins a new one otherwise.
pub fn sub_records_are_packed_in_one_way()
    ensures once { (size : FactValue → ℕ) (most : ℕ) (subs : List FactValue) (segments others : List (List FactValue))
        → IsPacked size most subs segments → IsPacked size most subs others → segments ≡ others }
    ensures greedy { (size : FactValue → ℕ) (most : ℕ) (subs : List FactValue) → IsPacked size most subs (packed size most subs) }
{}

/// The canonical dump of a heap is a part, and states each of the heap's facts once.
pub fn dump_reads_back()
    ensures { (ids : IdSize) (millis : ℕ) (rows : List FactValue) → IsHeap (record { ids = ids; millis = millis; facts = rows })
        → IsPart (canonical_dump ids millis rows) ids millis rows }
{}

/// The 1.0.1 dump of a heap is a part, and states each of the heap's facts once, if its sub-records fit into the body of one record.
pub fn dump101_reads_back()
    ensures { (ids : IdSize) (millis : ℕ) (rows : List FactValue) → IsHeap (record { ids = ids; millis = millis; facts = rows })
        → sub_len ids rows ≤ longest_body → IsPart (dump101 ids millis rows) ids millis rows }
{}

/// If the 1.0.1 dumps of two such heaps are equal, so are their identifier sizes, their times and their facts.
pub fn equal_dumps101_equal_facts()
    ensures { (ids other_ids : IdSize) (millis other_millis : ℕ) (rows others : List FactValue)
        → IsHeap (record { ids = ids; millis = millis; facts = rows }) → sub_len ids rows ≤ longest_body
        → IsHeap (record { ids = other_ids; millis = other_millis; facts = others }) → sub_len other_ids others ≤ longest_body
        → dump101 ids millis rows ≡ dump101 other_ids other_millis others
        → (ids ≡ other_ids) × (millis ≡ other_millis) × (rows ≡ others) }
{}
