//! What a report is about, as the words behind its own say it.

ghost use Rattle.std.specs.Prelude.{◌≡◌, MatchResult};
ghost use Rattle.std.specs.Option.{SomeIff};
ghost use Rattle.hprof_text.specs.Identifier.{IsIdText, id_value};
ghost use Rattle.hprof_questions.specs.declared.report_word.Follows.TheVariants.{ClassOrObject};
ghost use Rattle.hprof_questions.specs.Asked.{AsksReport, IsMisnamed, NamesId, SaysKinds, SaysNode};
ghost use Rattle.hprof_questions.specs.Words.{node_follows};

use crate::report::{Kinds, Node, NodeReport, Report};
use crate::report_word::ReportWord;
use hprof_histogram::Kind;
use hprof_naming::arrays_named;
use hprof_text::parse_id;
use thiserror::Error;

/// The reason why a text behind the word of a report asks for nothing.
#[derive(Clone, Copy, Debug, PartialEq, Eq, Error)]
pub enum Misnamed {
    /// The text is no identifier, and the report takes nothing else.
    #[error("not an identifier")]
    NoIdentifier,
}

/// Returns the identifier that bytes write, if they write one.
fn parse_identifier(text: &[u8]) -> Option<u64>
    ensures { SomeIff result (IsIdText text.now) (id_value text.now) }
{
    match str::from_utf8(text) {
        Ok(text) => parse_id(text),
        Err(_) => None,
    }
}

/// Returns the identifier that bytes write, or that they write none.
fn identifier_of(text: &[u8]) -> Result<u64, Misnamed>
    ensures { MatchResult result (NamesId text.now) (λ fault. (fault ≡ Misnamed.NoIdentifier) × ¬ (IsIdText text.now)) }
{
    match parse_identifier(text) {
        Some(id) => Ok(id),
        None => Err(Misnamed::NoIdentifier),
    }
}

/// Returns the objects that bytes name: the arrays of a type by its word, as `byte[]` or `[B`, else the objects of a class by its
/// identifier, else those of all classes with the name.
fn kinds_of(text: &[u8]) -> Kinds<'_>
    ensures { SaysKinds text.now result }
{
    if let Some(elem) = arrays_named(text) {
        return Kinds::Of(Kind::Prim(elem));
    }
    match parse_identifier(text) {
        Some(id) => Kinds::Of(Kind::Class(id)),
        None => Kinds::Named(text),
    }
}

/// Returns the class or the object that bytes name: by its identifier, or else a class by its name.
fn node_of(text: &[u8]) -> Node<'_>
    ensures { SaysNode ClassOrObject text.now result }
{
    match parse_identifier(text) {
        Some(id) => Node::Identifier(id),
        None => Node::Named(text),
    }
}

/// Returns what a report on a class or an object is on, with that text behind its word.
fn subject_of(report: NodeReport, text: &[u8]) -> Result<Node<'_>, Misnamed>
    ensures { MatchResult result (SaysNode (node_follows report) text.now) (IsMisnamed (ReportWord.Node report) text.now) }
{
    match report {
        NodeReport::Show | NodeReport::Why | NodeReport::Who | NodeReport::Keeps => {
            Ok(node_of(text))
        }
        NodeReport::Text | NodeReport::Object | NodeReport::Refs | NodeReport::Path => {
            Ok(Node::Identifier(identifier_of(text)?))
        }
    }
}

impl ReportWord {
    /// Returns the report that the word asks for with that text behind it. If nothing follows the word, the text does not matter.
    pub fn report(self, text: &[u8]) -> Result<Report<'_>, Misnamed>
        ensures { MatchResult result (AsksReport self text.now) (IsMisnamed self text.now) }
    {
        Ok(match self {
            ReportWord::Heap(report) => Report::Heap(report),
            ReportWord::Kind(report) => Report::Kind(report, kinds_of(text)),
            ReportWord::Node(report) => Report::Node(report, subject_of(report, text)?),
        })
    }
}
