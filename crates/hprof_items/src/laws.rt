//! Laws of the definitions. The contract of each function is a theorem; its body is empty.

ghost use Rattle.std.specs.Prelude.{is_some, ◌≡◌, ◌≤◌, List, ℕ, ◌++◌, length, drop, true, Some, Ok, Err, ◌⊎◌};
ghost use Rattle.hprof_values.specs.declared.ids.IdSize.{IdSize};
ghost use Rattle.hprof_values.specs.declared.record_tag.RecordTag.{RecordTag};
ghost use Rattle.hprof_values.specs.Ids.{IsBytes};
ghost use Rattle.hprof_values.specs.RecordTag.{code_of_record, record_of_code};
ghost use Rattle.hprof_values.specs.declared.parse_stop.ParseStop.TheVariants as stops;
ghost use Rattle.hprof_values.specs.FieldGroups.{Bounds, IsWithin, with_more};
ghost use Rattle.hprof_items.specs.declared.header.Header.{Header};
ghost use Rattle.hprof_items.specs.declared.head.Head.{Head};
ghost use Rattle.hprof_items.specs.declared.head.HeadKind.TheVariants as kinds;
ghost use Rattle.hprof_items.specs.Header.{header_bytes, IsMillis};
ghost use Rattle.hprof_items.specs.Head.{head_bytes, record_bytes, kind_of};
ghost use Rattle.hprof_items.specs.FactValue.{FactValue};
ghost use Rattle.hprof_items.specs.Spelling.{longest_body, Fits, spelling};
ghost use Rattle.hprof_items.specs.RecordBody.{is_legal_body, record_body, record_at, record_of, BodyFits};
ghost use Rattle.hprof_items.specs.SubRecord.{sub_at, dump_bytes, DumpFits, IsSubOf};
ghost use Rattle.hprof_items.specs.Reading.{header_at, head_at, IsRightHead};

/// A header that is written reads back, whatever follows, and a header that is read writes the same bytes.
pub fn headers_read_back()
    ensures { ((header : Header) (rest : List ℕ) → IsMillis header.millis → header_at (header_bytes header ++ rest) ≡ Ok (header, 31))
        × ((bytes : List ℕ) (header : Header) (n : ℕ) → IsBytes bytes → header_at bytes ≡ Ok (header, n)
        → (bytes ≡ header_bytes header ++ drop n bytes) × (n ≡ 31) × IsMillis header.millis) }
{}

/// A sub-record that is written within all bounds reads back, whatever follows, and one that is read writes the same bytes. No encoding of
/// a sub-record is the beginning of another.
pub fn sub_records_read_back()
    ensures again { (ids : IdSize) (bounds : Bounds) (fact : FactValue) (rest bytes : List ℕ) → DumpFits ids fact
        → bytes ≡ dump_bytes ids fact ++ rest
        → IsWithin bounds (length (dump_bytes ids fact)) → sub_at ids bounds bytes ≡ Ok (fact, length (dump_bytes ids fact)) }
    ensures found { (ids : IdSize) (bounds : Bounds) (bytes : List ℕ) (fact : FactValue) (n : ℕ) → IsBytes bytes
        → bounds.there ≤ length bytes
        → sub_at ids bounds bytes ≡ Ok (fact, n) → IsSubOf ids bounds bytes fact n }
    ensures once { (ids : IdSize) (fact other : FactValue) (rest more : List ℕ) → DumpFits ids fact → DumpFits ids other
        → dump_bytes ids fact ++ rest ≡ dump_bytes ids other ++ more → (fact ≡ other) × (rest ≡ more) }
{}

/// The body of any record that states one fact reads as that fact, and a fact that is read writes the same bytes.
pub fn records_read_back()
    ensures again { (ids : IdSize) (tag : RecordTag) (fact : FactValue) → BodyFits ids tag fact
        → record_at ids tag (record_body ids tag fact) ≡ Ok fact }
    ensures found { (ids : IdSize) (tag : RecordTag) (body : List ℕ) (fact : FactValue) → IsBytes body
        → is_legal_body ids tag (length body) ≡ true → record_at ids tag body ≡ Ok fact
        → BodyFits ids tag fact × (body ≡ record_body ids tag fact) }
{}

/// No encoding of a fact in a record is the beginning of another.
pub fn one_record_spelling()
    ensures { (ids : IdSize) (fact other : FactValue) (tag tag_too : RecordTag) (rest more : List ℕ)
        → BodyFits ids tag fact → BodyFits ids tag_too other
        → length (record_body ids tag fact) ≤ longest_body → length (record_body ids tag_too other) ≤ longest_body
        → record_bytes (code_of_record tag) 0 (record_body ids tag fact) ++ rest
        ≡ record_bytes (code_of_record tag_too) 0 (record_body ids tag_too other) ++ more
        → (fact ≡ other) × (rest ≡ more) }
{}

/// No encoding of a fact is the beginning of another in its family: records, or sub-records. The tags of the two families overlap.
pub fn one_spelling_in_each_family()
    ensures { (ids : IdSize) (fact other : FactValue) (rest more : List ℕ) → Fits ids fact → Fits ids other
        → is_some (record_of fact) ≡ is_some (record_of other)
        → spelling ids fact ++ rest ≡ spelling ids other ++ more → (fact ≡ other) × (rest ≡ more) }
{}

/// A valid record head that is written reads back, whatever follows, and one that is read is valid and writes the same bytes. If the record
/// states one fact, its body may have the length in the head.
pub fn heads_read_back()
    ensures again { (ids : IdSize) (longest : ℕ) (head : Head) (rest : List ℕ) → IsRightHead ids longest head
        → head_at ids longest (head_bytes head.tag head.time head.length ++ rest) ≡ Ok (head, 9) }
    ensures found { (ids : IdSize) (longest : ℕ) (bytes : List ℕ) (head : Head) (n : ℕ) → IsBytes bytes
        → head_at ids longest bytes ≡ Ok (head, n)
        → (bytes ≡ head_bytes head.tag head.time head.length ++ drop n bytes) × (n ≡ 9) × IsRightHead ids longest head }
    ensures facts { (ids : IdSize) (longest : ℕ) (head : Head) → IsRightHead ids longest head → kind_of head.tag ≡ kinds.FactRecord
        → (known : RecordTag) × (record_of_code head.tag ≡ Some known) × (is_legal_body ids known head.length ≡ true) }
{}

/// More bytes change no answer about a sub-record, except that more bytes are needed.
pub fn fronts_of_sub_records_are_short()
    ensures more { (ids : IdSize) (bounds : Bounds) (bytes more : List ℕ) → bounds.there ≡ length bytes
        → (sub_at ids bounds bytes ≡ Err stops.Short)
        ⊎ (sub_at ids (with_more bounds (length more)) (bytes ++ more) ≡ sub_at ids bounds bytes) }
{}
