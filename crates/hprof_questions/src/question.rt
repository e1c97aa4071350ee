//! The questions of lines.

ghost use Rattle.std.specs.Prelude.{◌≡◌, ◌≢◌, ◌↔◌, ◌++◌, ℕ, List, IsTrue, MatchOption, take, ◌∷◌, []};
ghost use Rattle.hprof_questions.specs.declared.report_word.ReportWord.{ReportWord};
ghost use Rattle.hprof_questions.specs.Asked.{Asks, IsLineOf, IsNamed, IsQuestion, IsWord};
ghost use Rattle.hprof_questions.specs.Lines.{IsBeforeFeed};

use crate::report::Report;
use crate::report_word::{Follows, ReportWord};
use crate::subject::Misnamed;

/// The length of the longest line that is understood, in bytes.
pub(crate) const LONGEST_LINE: usize = 4096;

/// The question of a line.
#[derive(Clone, Copy, Debug, PartialEq, Eq)]
pub enum Question<'a> {
    /// The line is empty.
    Nothing,
    /// `help`: the questions that can be asked.
    Help,
    /// `quit` or `exit`: the end of the dialogue.
    Quit,
    /// A report.
    Report(Report<'a>),
    /// The word of a report, and behind it another word that is none of those that follow it.
    Misnamed(Misnamed),
    /// None of these.
    NotUnderstood,
}

/// Returns whether bytes are a word.
fn is_word(bytes: &[u8]) -> bool
    ensures { IsTrue result ↔ IsWord bytes.now }
{
    for byte in bytes {
        if *byte == b' ' {
            return false;
        }
    }
    !bytes.is_empty()
}

/// Returns the word behind a word and a space, if the line is the two.
fn word_behind<'a>(line: &'a [u8], word: &[u8]) -> Option<&'a [u8]>
    ensures { MatchOption result ((text : List ℕ) → IsWord text → line.now ≢ word.now ++ 32 ∷ text)
        (λ text. IsWord text.now × (line.now ≡ word.now ++ 32 ∷ text.now)) }
{
    let behind = line.strip_prefix(word)?;
    let text = behind.strip_prefix(b" ")?;
    if is_word(text) { Some(text) } else { None }
}

/// Returns the text behind the word of a report, if the line is that word and what follows it.
fn text_behind(line: &[u8], word: ReportWord) -> Option<&[u8]>
    ensures { MatchOption result ((text : List ℕ) → IsLineOf line.now word text → ⊥) (λ text. IsLineOf line.now word text.now) }
{
    let row = word.row();
    match row.follows {
        Follows::Nothing if line == row.word.as_bytes() => Some(&[]),
        Follows::Nothing => None,
        Follows::Identifier | Follows::ClassOrObject | Follows::ClassOrType => word_behind(
            line,
            row.word.as_bytes(),
        ),
    }
}

/// Returns the report that a line asks for by its word, and the text behind the word.
fn words_of(line: &[u8]) -> Option<(ReportWord, &[u8])>
    ensures { MatchOption result ((word : ReportWord) (text : List ℕ) → IsLineOf line.now word text → ⊥)
        (λ it. IsLineOf line.now it.0 it.1.now) }
{
    for word in &ReportWord::ALL {
        if let Some(text) = text_behind(line, *word) {
            return Some((*word, text));
        }
    }
    None
}

/// Returns the question that a word asks with that text behind it.
fn named(word: ReportWord, text: &[u8]) -> Question<'_>
    ensures { IsNamed word text.now result }
{
    match word.report(text) {
        Ok(report) => Question::Report(report),
        Err(fault) => Question::Misnamed(fault),
    }
}

/// Returns the question that the words of a line ask.
fn asked(line: &[u8]) -> Question<'_>
    ensures { IsQuestion line.now result }
{
    if line.is_empty() {
        return Question::Nothing;
    }
    if line == b"help".as_slice() {
        return Question::Help;
    }
    if line == b"quit".as_slice() || line == b"exit".as_slice() {
        return Question::Quit;
    }
    match words_of(line) {
        Some((word, text)) => named(word, text),
        None => Question::NotUnderstood,
    }
}

/// Returns the question of a line. A line of more than 4,096 bytes is not understood.
pub fn question_of(line: &[u8]) -> Question<'_>
    ensures { Asks line.now result }
{
    if line.len() > LONGEST_LINE {
        return Question::NotUnderstood;
    }
    asked(line)
}

/// Returns the bytes before a return, if the bytes end with one.
fn before_return(bytes: &[u8]) -> Option<&[u8]>
    ensures { MatchOption result ((front : List ℕ) → bytes.now ≢ front ++ 13 ∷ []) (λ front. bytes.now ≡ front.now ++ 13 ∷ []) }
{
    bytes.strip_suffix(b"\r")
}

/// Returns the question of a line that ended with a line feed, of which these bytes before the feed were kept.
pub(crate) fn ended_question(kept: &[u8]) -> Question<'_>
    ensures { (before line : List ℕ) → kept.now ≡ take 4098 before → IsBeforeFeed before line → Asks line result }
{
    match before_return(kept) {
        Some(line) => question_of(line),
        None => question_of(kept),
    }
}

/// Returns the question of a line that did not end, of which these bytes were kept.
pub(crate) fn last_question(kept: &[u8]) -> Question<'_>
    ensures { (line : List ℕ) → kept.now ≡ take 4098 line → Asks line result }
{
    question_of(kept)
}
