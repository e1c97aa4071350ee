//! The label of a class that a word means.

ghost use Rattle.std.specs.Prelude.{◌≡◌, ◌≢◌, ◌↔◌, ◌<◌, ◌++◌, ◌∷◌, [], ℕ, List, length, replicate, slice_index};
ghost use Rattle.std.specs.Prelude.{EachIndex, IsTrue, MatchOption};
ghost use Rattle.hprof_naming.specs.MeantLabel.{IsMeantBy, Means, bare_name, before_pairs, count_of_pairs, descriptor_of, label_value};
ghost use Rattle.hprof_naming.specs.MeantLabel.{slashed, slashed_byte};

use crate::type_names::{type_letter, type_named};
use hprof_values::Basic;

/// The label that a word means. A word is read once and compared with any number of labels; it is borrowed, and nothing is allocated.
///
/// - A class is named as in Java source, by its label, or by its descriptor: `shop.Session` and `Lshop/Session;` mean `shop/Session`.
/// - Arrays are named as in Java source or by their label: `byte[][]` means `[[B`, and `java.util.HashMap$Node[]` means
///   `[Ljava/util/HashMap$Node;`.
///
/// The rule is this project's own. Descriptors are those of the Java Virtual Machine Specification, section 4.3.2.
#[derive(Clone, Copy, Debug, PartialEq, Eq)]
pub struct MeantLabel<'a> {
    /// The number of pairs `[]` at the word's end: the dimensions of the arrays that it means, or 0 for a class.
    dimensions: usize,
    /// The primitive type that the bytes before the pairs name, if they name one. It counts only if there are pairs.
    elem: Option<Basic>,
    /// The name of the class that they name otherwise.
    name: &'a [u8],
}

/// Returns the bytes before the pairs `[]` at a word's end, and the number of the pairs.
fn split_pairs(word: &[u8]) -> (&[u8], usize)
    ensures text { result.0.now ≡ before_pairs word.now }
    ensures pairs { result.1 ≡ count_of_pairs word.now }
{
    let mut text = word;
    let mut pairs = 0;
    while let Some(front) = text.strip_suffix(b"[]") {
        text = front;
        pairs += 1;
    }
    (text, pairs)
}

/// Returns the name between `L` and `;`, or the text if it has no such form.
fn bare_name(text: &[u8]) -> &[u8]
    ensures { result.now ≡ bare_name text.now }
{
    if text.len() > 2 && text.starts_with(b"L") && text.ends_with(b";") {
        &text[1..text.len() - 1]
    } else {
        text
    }
}

/// Returns the byte, or a slash if it is a dot.
fn slashed_byte(byte: u8) -> u8
    ensures { result ≡ slashed_byte byte }
{
    if byte == b'.' { b'/' } else { byte }
}

/// Returns whether the bytes of two texts are the same as far as both go, with a slash for each dot.
fn agree_slashed(one: &[u8], other: &[u8]) -> bool
    ensures { IsTrue result ↔ EachIndex one.now (λ k. k < length other.now
        → slashed_byte (slice_index one.now k) ≡ slashed_byte (slice_index other.now k)) }
{
    one.iter().zip(other).all(|(byte, other)| slashed_byte(*byte) == slashed_byte(*other))
}

/// Returns whether two texts are the same with a slash for each dot.
fn are_same_slashed(one: &[u8], other: &[u8]) -> bool
    ensures { IsTrue result ↔ (slashed one.now ≡ slashed other.now) }
{
    one.len() == other.len() && agree_slashed(one, other)
}

/// Returns the bytes behind that many opening brackets, if the label begins with so many.
fn behind_brackets(label: &[u8], count: usize) -> Option<&[u8]>
    ensures { MatchOption result ((rest : List ℕ) → label.now ≢ replicate count 91 ++ rest)
        (λ rest. label.now ≡ replicate count 91 ++ rest.now) }
{
    let mut rest = label;
    for _ in 0..count {
        rest = rest.strip_prefix(b"[")?;
    }
    Some(rest)
}

/// Returns the bytes between `L` and `;`, if the text begins and ends so.
fn between(text: &[u8]) -> Option<&[u8]>
    ensures { MatchOption result ((name : List ℕ) → text.now ≢ 76 ∷ name ++ 59 ∷ []) (λ name. text.now ≡ 76 ∷ name.now ++ 59 ∷ []) }
{
    text.strip_prefix(b"L")?.strip_suffix(b";")
}

impl<'a> MeantLabel<'a> {
    /// Returns the label that a word means.
    pub fn of(word: &'a [u8]) -> MeantLabel<'a>
        ensures { IsMeantBy word.now result }
    {
        let (text, dimensions) = split_pairs(word);
        MeantLabel {
            dimensions,
            elem: type_named(text),
            name: bare_name(text),
        }
    }

    /// Returns whether a text is the descriptor of the arrays' elements, dots as slashes.
    fn has_descriptor(&self, text: &[u8]) -> bool
        ensures { IsTrue result ↔ (slashed text.now ≡ slashed (descriptor_of self.now.elem self.now.name.now)) }
    {
        match self.elem {
            Some(elem) => text == type_letter(elem).as_bytes(),
            None => match between(text) {
                Some(name) => are_same_slashed(name, self.name),
                None => false,
            },
        }
    }

    /// Returns whether a printed label is the one meant. Dots count as slashes in both.
    pub fn matches(&self, label: &[u8]) -> bool
        ensures { (word : List ℕ) → IsMeantBy word self.now → (IsTrue result ↔ Means word label.now) }
    {
        if self.dimensions == 0 {
            return are_same_slashed(label, self.name);
        }
        match behind_brackets(label, self.dimensions) {
            Some(text) => self.has_descriptor(text),
            None => false,
        }
    }
}
