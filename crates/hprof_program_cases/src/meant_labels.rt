//! The labels that words mean, and the types whose arrays words name.

use crate::expecting::equal_at;
use hprof_naming::{MeantLabel, arrays_named, type_word};

/// Words, labels, and whether the word means the label.
const MEANT: [(&str, &str, bool); 24] = [
    (
        "java.util.HashMap$Node[]",
        "[Ljava/util/HashMap$Node;",
        true,
    ),
    ("byte[][]", "[[B", true),
    ("byte[][]", "[B", false),
    ("byte[]", "[B", true),
    ("byte[]", "[S", false),
    ("byte", "B", false),
    ("byte", "byte", true),
    ("[B", "[B", true),
    ("LFace;", "Face", true),
    ("LFace;", "LFace;", false),
    ("LFace;[]", "[LFace;", true),
    ("Face", "Face", true),
    ("Face", "face", false),
    ("L;", "L;", true),
    ("L;[]", "[LL;;", true),
    ("[Lshop.Session;", "[Lshop/Session;", true),
    ("shop/Session", "shop.Session", true),
    ("shop.Session[][]", "[[Lshop/Session;", true),
    ("shop.Session[][]", "[Lshop/Session;", false),
    ("shop.Session[]", "[Lshop/Session", false),
    ("shop", "shop/Session", false),
    ("[]", "[L;", true),
    ("", "", true),
    ("0x65", "\\?", false),
];

#[test]
fn words_mean_labels(rt: HostRuntime) {
    for (word, label, is_meant) in MEANT {
        let found = MeantLabel::of(word.as_bytes()).matches(label.as_bytes());
        equal_at(&rt, (word, label), found, is_meant);
    }
}

/// Words, and the types whose arrays they name.
const NAMED: [(&str, Option<&str>); 21] = [
    ("boolean[]", Some("boolean")),
    ("char[]", Some("char")),
    ("float[]", Some("float")),
    ("double[]", Some("double")),
    ("byte[]", Some("byte")),
    ("short[]", Some("short")),
    ("int[]", Some("int")),
    ("long[]", Some("long")),
    ("[Z", Some("boolean")),
    ("[C", Some("char")),
    ("[F", Some("float")),
    ("[D", Some("double")),
    ("[B", Some("byte")),
    ("[S", Some("short")),
    ("[I", Some("int")),
    ("[J", Some("long")),
    ("object[]", None),
    ("byte[][]", None),
    ("[L", None),
    ("byte", None),
    ("B", None),
];

#[test]
fn words_name_arrays(rt: HostRuntime) {
    for (word, named) in NAMED {
        equal_at(
            &rt,
            word,
            arrays_named(word.as_bytes()).map(|elem| type_word(elem)),
            named,
        );
    }
}
