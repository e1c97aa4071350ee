//! Laws of the definitions. None of these functions does anything.

ghost use Rattle.std.specs.Prelude.{◌≡◌, ◌↔◌, ◌++◌, ◌∷◌, ℕ, List, []};
ghost use Rattle.hprof_rows.specs.HeapValue.{HeapValue};
ghost use Rattle.hprof_questions.specs.Answering.{AreAnswers};
ghost use Rattle.hprof_questions.specs.declared.question.Question.{Question};
ghost use Rattle.hprof_questions.specs.Asked.{Asks, NoneQuits, Quits};
ghost use Rattle.hprof_questions.specs.Lines.{AreFirstLines, AreLines};
ghost use Rattle.hprof_questions.specs.Same.{IsSame};

use crate::dialogue::Answers;

/// Bytes have one list of lines, and no other. Behind bytes whose last line ends with a line feed the lines of more bytes follow.
pub fn bytes_have_one_list_of_lines()
    ensures some { (bytes : List ℕ) → (lines : List (List ℕ)) × AreLines bytes lines }
    ensures one { (bytes : List ℕ) (one other : List (List ℕ)) → AreLines bytes one → AreLines bytes other → one ≡ other }
    ensures more { (bytes more : List ℕ) (lines others : List (List ℕ)) → AreFirstLines bytes lines [] → AreLines more others
        → AreLines (bytes ++ more) (lines ++ others) }
{}

/// A line asks one thing, wherever the bytes of a name lie.
pub fn a_line_asks_one_thing()
    ensures some { (line : List ℕ) → (question : Question) × Asks line question }
    ensures one { (line : List ℕ) (one other : Question) → Asks line one → Asks line other → IsSame one other }
{}

/// The answers to lines about a heap are one text, and there is one. To ask two lists of lines one after the other is to ask them together,
/// unless one of the first lines ends the dialogue: no answer depends on a question before. What stands behind a line that ends the
/// dialogue is not answered.
pub fn answers_are_one_text<A: Answers>(answers: &A)
    ensures some { (heap : HeapValue) → A.about answers.now heap → (lines : List (List ℕ))
        → (text : List ℕ) × AreAnswers (A.is_answer answers.now heap) lines text }
    ensures one { (heap : HeapValue) → A.about answers.now heap → (lines : List (List ℕ)) (one other : List ℕ)
        → AreAnswers (A.is_answer answers.now heap) lines one → AreAnswers (A.is_answer answers.now heap) lines other → one ≡ other }
    ensures together { (heap : HeapValue) → A.about answers.now heap → (lines more : List (List ℕ)) (text : List ℕ) → NoneQuits lines
        → AreAnswers (A.is_answer answers.now heap) (lines ++ more) text
        ↔ ((first : List ℕ) × (then : List ℕ) × AreAnswers (A.is_answer answers.now heap) lines first
        × AreAnswers (A.is_answer answers.now heap) more then × (text ≡ first ++ then)) }
    ensures behind { (heap : HeapValue) → A.about answers.now heap → (lines more : List (List ℕ)) (last text : List ℕ) → Quits last
        → AreAnswers (A.is_answer answers.now heap) (lines ++ last ∷ more) text
        ↔ AreAnswers (A.is_answer answers.now heap) lines text }
{}
