//! A source of questions that prompts for each line.

ghost use Rattle.std.specs.Prelude.{◌≡◌};

use hprof_devices::{ReadFault, Source};
use std::io::Write;

/// A source of questions, and where a person is prompted for each line. A prompt that cannot be written is no fault.
#[derive(Drop)]
pub(crate) struct Prompting<I: Source + Drop, P: Write + Drop> {
    questions: I,
    prompts: Option<P>,
    /// Nothing of a line was read yet.
    is_at_start: bool,
}

impl<I: Source + Drop, P: Write + Drop> Prompting<I, P> {
    /// Returns a source that gives what `input` gives.
    pub(crate) fn new(input: I, prompts: Option<P>) -> Self
        ensures { result.questions ≡ input }
    {
        Prompting {
            questions: input,
            prompts,
            is_at_start: true,
        }
    }

    /// Prompts for a line, if none was begun.
    fn prompt(&mut self)
        ensures { self.new.questions ≡ self.old.questions }
    {
        if !self.is_at_start {
            return;
        }
        if let Some(prompts) = &mut self.prompts {
            let _ = prompts.write_all(b"> ");
            let _ = prompts.flush();
        }
    }
}

impl<I: Source + Drop, P: Write + Drop> Source for Prompting<I, P> {
    ghost left = { λ it. I.left it.questions };

    ghost health = { λ it. I.health it.questions };

    ghost pulls = { λ it. I.pulls it.questions };

    fn pull(&mut self, piece: &mut [u8]) -> Result<usize, ReadFault> {
        self.prompt();
        let count = self.questions.pull(piece)?;
        self.is_at_start = piece[..count].ends_with(b"\n");
        Ok(count)
    }
}
