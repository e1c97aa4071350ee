//! The end of the program.

/// The end of the program.
#[derive(Clone, Copy, Debug, PartialEq, Eq)]
pub enum Status {
    /// It did what it was asked to.
    Done,
    /// It refused. One line on the errors says why.
    Refused,
    /// The words are not understood. A text on the errors says why.
    NotUnderstood,
}

impl Status {
    ghost use Rattle.std.specs.Prelude.{◌≡◌};
    ghost use Rattle.hprof_tool.specs.Status.{code_of};

    /// Returns the exit status of the process.
    pub fn code(self) -> u8
        ensures { result ≡ code_of self }
    {
        match self {
            Status::Done => 0,
            Status::Refused => 1,
            Status::NotUnderstood => 2,
        }
    }
}
