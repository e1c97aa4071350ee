//! The program when its words cannot be read, and when standard error cannot be written.

use crate::expecting::equal_at;
use crate::pushes::{TALLY, Tally};
use hprof_fixtures::{HEADER, NAME_1_A, NAME_1_B, bytes_of};
use hprof_tool::{Storage, run};
use std::alloc::Global;
use std::io;
use std::test::Fail;

/// Where the cases keep objects.
pub(crate) const STORAGE: Storage<'static> = Storage {
    memory: 0,
    folder: "/tmp",
};

/// Returns the words of the command line after the program's name.
pub(crate) fn words_of(alloc: Global, words: &[&str]) -> Result<Vec<String>, Fail> {
    let mut list = Vec::new(alloc);
    list.push(String::from_str(alloc, "hprof")?)?;
    for word in words {
        list.push(String::from_str(alloc, word)?)?;
    }
    Ok(list)
}

#[test]
fn words_that_cannot_be_had(rt: HostRuntime) -> Result<(), Fail> {
    let cases: [(io::ErrorKind, u8, &[u8]); 2] = [
        (io::ErrorKind::OutOfMemory, 1, b"hprof: out of memory\n"),
        (
            io::ErrorKind::InvalidData,
            2,
            b"hprof: the words are no text\n",
        ),
    ];
    for (kind, code, text) in cases {
        let (mut output, mut errors) = (Vec::new(rt.alloc()), Vec::new(rt.alloc()));
        let words = Err(io::Error::from(kind));
        let status = run(
            rt.alloc(),
            &rt,
            STORAGE,
            words,
            HEADER,
            &mut output,
            &mut errors,
            None::<Vec<u8>>,
            None,
        );
        let found = (status.code(), output.len(), errors.as_slice());
        equal_at(&rt, code, found, (code, 0, text));
    }
    Ok(())
}

#[test]
fn refusals_are_told_once(rt: HostRuntime) -> Result<(), Fail> {
    let part = bytes_of(rt.alloc(), &[HEADER, NAME_1_A, NAME_1_B])?;
    for (words, code) in [([].as_slice(), 1), (&["check"], 1), (&["--frob"], 2)] {
        let mut output = TALLY;
        let mut errors = Tally {
            failing_write: 1,
            ..TALLY
        };
        let list = Ok(words_of(rt.alloc(), words)?.into_iter());
        let input = part.as_slice();
        let status = run(
            rt.alloc(),
            &rt,
            STORAGE,
            list,
            input,
            &mut output,
            &mut errors,
            None::<Vec<u8>>,
            None,
        );
        let found = (status.code(), output.writes, errors.writes);
        equal_at(&rt, words, found, (code, 0, 1));
    }
    Ok(())
}
