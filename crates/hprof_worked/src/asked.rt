//! The calls that a line asks for.

use hprof_questions::{Follows, ReportWord};
use hprof_worked_calls::{Call, Question};

/// Returns the call of a word without an identifier.
fn call_named(word: &str) -> Option<Call<'_>> {
    match word {
        "read" => Some(Call::Read),
        "facts" => Some(Call::Facts),
        "join" => Some(Call::Join),
        "join101" => Some(Call::Join101),
        "salvage" => Some(Call::Salvage),
        "diff" => Some(Call::Diff),
        "unite" => Some(Call::Unite),
        "ask" => Some(Call::Ask),
        _ => None,
    }
}

/// Returns the question of a word with an identifier.
fn question_named(word: &str, id: u64) -> Option<Call<'_>> {
    match word {
        "edges" => Some(Call::Graph(Question::Edges(id))),
        "layout" => Some(Call::Graph(Question::Layout(id))),
        _ => None,
    }
}

/// Returns the call of a report, and the text of its parts.
fn report_of<'a>(word: ReportWord, rest: &'a str) -> Option<(Call<'a>, &'a str)> {
    let (text, rest) = match word.row().follows {
        Follows::Nothing => ("", rest),
        Follows::Identifier | Follows::ClassOrObject | Follows::ClassOrType => {
            rest.split_once(' ').unwrap_or((rest, ""))
        }
    };
    match word.report(text.as_bytes()) {
        Ok(report) => Some((Call::Report(report), rest)),
        Err(_) => None,
    }
}

/// Returns the call of a line, and the text of its parts.
pub(crate) fn call_of<'a>(word: &'a str, rest: &'a str) -> Option<(Call<'a>, &'a str)> {
    if let Some(call) = call_named(word) {
        return Some((call, rest));
    }
    if let Some(report) = ReportWord::of(word.as_bytes()) {
        return report_of(report, rest);
    }
    let (id, rest) = rest.split_once(' ').unwrap_or((rest, ""));
    let id = u64::from_str_radix(id, 16).ok()?;
    Some((question_named(word, id)?, rest))
}
