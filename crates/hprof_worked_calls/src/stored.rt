//! The same of parts whose objects stay in the parts, or go to scratch.

ghost use Rattle.std.specs.Prelude.{◌≡◌, All};
ghost use Rattle.hprof_devices.specs.declared.health.Health.TheVariants.{Well};
ghost use Rattle.hprof_devices.specs.Device.{health_of};

use crate::conversing::of_dialogue;
use crate::engine::{
    Answer, Call, Given, Ways, feed_of_parts, input_of, of_salvaged, outcome_of, plain, readers_of,
    target_of, text_of_difference, text_of_fault,
};
use crate::failing::FailingParts;
use crate::outcome::Outcome;
use crate::streams::{Reader, Writer};
use crate::trouble::Trouble;
use hprof_devices::Device;
use hprof_diff::{DiffFault, GrowthReport, count_stored};
use hprof_engine::ToolFault;
use hprof_large::{PassedReport, ask_stored};
use hprof_making::make_stored;
use hprof_objects::Keeping;
use hprof_parts::Slices;
use hprof_runs::MemoryScratch;
use hprof_stored::{join_stored, salvage_stored};
use hprof_stored101::join101_stored;
use hprof_stream::Limits;
use std::alloc::{AllocError, Global};
use std::cell::Cell;

/// How objects are kept: each alone in scratch; any two that ascend in their part, and others a few at a time in scratch; all in memory.
const KEEPINGS: [Keeping; 3] = [
    Keeping {
        memory: 0,
        stretch: u64::MAX,
        stretches: 0,
    },
    Keeping {
        memory: 100,
        stretch: 1,
        stretches: 64,
    },
    Keeping {
        memory: u64::MAX,
        stretch: u64::MAX,
        stretches: 0,
    },
];

/// Returns the text of an answer, where `done` is that of a call that was done.
fn text_of(alloc: Global, done: &str, answer: Result<(), ToolFault>) -> Result<String, AllocError> {
    match answer {
        Ok(()) => String::from_str(alloc, done),
        Err(fault) => text_of_fault(alloc, fault),
    }
}

/// Compares the heap of the first reader, the older one, with that of the others. The objects of both are kept so.
fn compare_stored(
    alloc: Global,
    parts: &[&[u8]],
    readers: &mut [Device<Reader<'_>>],
    target: &mut Device<Writer>,
    limits: Limits,
    keeping: Keeping,
) -> Result<(), DiffFault>
    requires readers { All (λ reader. health_of reader ≡ Well) readers.old }
    requires writer { health_of target.old ≡ Well }
{
    let (olds, news) = readers.split_at_mut(readers.len().min(1));
    let (old_parts, new_parts) = parts.split_at(parts.len().min(1));
    let again = Slices::new(old_parts);
    let scratch = MemoryScratch::new(alloc);
    let old = match count_stored(alloc, olds, &again, limits, keeping, scratch) {
        Ok(old) => old,
        Err(fault) => return Err(DiffFault::Old(fault)),
    };
    let growth = GrowthReport { old: &old };
    let again = Slices::new(new_parts);
    let scratch = MemoryScratch::new(alloc);
    match make_stored(
        alloc, &growth, news, &again, limits, keeping, scratch, target,
    ) {
        Ok(()) => Ok(()),
        Err(fault) => Err(DiffFault::New(fault)),
    }
}

/// Makes the call of parts whose objects are kept so, and returns its answer, if it can be made so. `done` is the text of a call that was
/// done.
fn answer_stored(
    alloc: Global,
    call: Call<'_>,
    parts: &[&[u8]],
    readers: &mut [Device<Reader<'_>>],
    target: &mut Device<Writer>,
    limits: Limits,
    keeping: Keeping,
    done: &str,
) -> Result<Option<Answer>, AllocError>
    requires readers { All (λ reader. health_of reader ≡ Well) readers.old }
    requires writer { health_of target.old ≡ Well }
{
    let again = Slices::new(parts);
    let scratch = MemoryScratch::new(alloc);
    let answer = match call {
        Call::Join => join_stored(alloc, readers, &again, limits, keeping, scratch, target),
        Call::Join101 => join101_stored(alloc, readers, &again, limits, keeping, scratch, target),
        Call::Salvage => {
            let answer = salvage_stored(alloc, readers, &again, limits, keeping, scratch, target);
            return Ok(Some(of_salvaged(alloc, answer)?));
        }
        Call::Report(report) => {
            let report = PassedReport { report };
            make_stored(
                alloc, &report, readers, &again, limits, keeping, scratch, target,
            )
        }
        Call::Diff => {
            let answer = compare_stored(alloc, parts, readers, target, limits, keeping);
            return Ok(Some(plain(alloc, text_of_difference(alloc, answer)?)));
        }
        _ => return Ok(None),
    };
    Ok(Some(plain(alloc, text_of(alloc, done, answer)?)))
}

/// Makes the call of parts whose objects are kept so, and returns its result, if it can be made so. `done` is the answer of a call that was
/// done.
fn made_stored(
    alloc: Global,
    call: Call<'_>,
    parts: &[&[u8]],
    ways: Ways,
    keeping: Keeping,
    done: &str,
) -> Result<Option<Outcome>, AllocError> {
    let mut readers = readers_of(alloc, parts, ways.feed)?;
    let mut target = target_of(alloc, ways.room);
    let Some(answer) = answer_stored(
        alloc,
        call,
        parts,
        &mut readers,
        &mut target,
        ways.limits,
        keeping,
        done,
    )?
    else {
        return Ok(None);
    };
    let found = outcome_of(answer, readers, target.into_inner());
    Ok(Some(found))
}

/// Makes the same call of parts whose objects are stored in several ways, if it can be made so, and checks that its result is the same.
pub fn check_stored(
    alloc: Global,
    call: Call<'_>,
    parts: &[&[u8]],
    ways: Ways,
    whole: &Outcome,
) -> Result<(), Trouble> {
    // Of that the lines of the case tell.
    if whole.is_out_of_memory() {
        return Ok(());
    }
    let done = whole.answer_text();
    for keeping in &KEEPINGS {
        if let Some(found) = made_stored(alloc, call, parts, ways, *keeping, done)? {
            whole.check_same(alloc, &found)?;
        }
    }
    Ok(())
}

/// Answers the questions of the input over parts whose objects are kept so, and returns the result. The parts are opened again so many
/// times, and then cannot be read.
fn asked_so(
    alloc: Global,
    given: Given<'_>,
    ways: Ways,
    keeping: Keeping,
    openings: u64,
) -> Result<Outcome, AllocError> {
    let feed = feed_of_parts(Call::Ask, ways.feed);
    let mut readers = readers_of(alloc, given.parts, feed)?;
    let mut questions = Device::new(input_of(given, ways.feed));
    let mut target = target_of(alloc, ways.room);
    let again = FailingParts {
        slices: given.parts,
        openings: Cell::new(openings),
    };
    let scratch = MemoryScratch::new(alloc);
    let answer = ask_stored(
        alloc,
        &mut readers,
        &again,
        ways.limits,
        keeping,
        scratch,
        &mut questions,
        &mut target,
    );
    let answer = of_dialogue(alloc, answer)?;
    Ok(outcome_of(answer, readers, target.into_inner()))
}

/// Returns the result, with an answer that says that it is another one than before.
fn told_apart(alloc: Global, found: Outcome) -> Result<Outcome, AllocError> {
    let answer = format!(in alloc; "if objects are stored: {}", found.answer_text())?;
    Ok(Outcome {
        answer: Some(answer),
        ..found
    })
}

/// The number of openings after which parts cannot be read, at most.
const MOST_OPENINGS: u64 = 24;

/// Answers the questions where each opening of a part fails in turn, up to one that is not made. Returns the first result that is neither
/// the one of the call nor a front of its answers and a part that could not be read, or `None`.
fn lost_otherwise(
    alloc: Global,
    given: Given<'_>,
    ways: Ways,
    keeping: Keeping,
    whole: &Outcome,
) -> Result<Option<Outcome>, AllocError> {
    for openings in 0..MOST_OPENINGS {
        let found = asked_so(alloc, given, ways, keeping, openings)?;
        if whole.is_same(&found) {
            return Ok(None);
        }
        if !found.is_of_reading() || !found.is_front_of_answers(whole) {
            return Ok(Some(found));
        }
    }
    Ok(None)
}

/// Answers the same questions over parts whose objects are stored in several ways; if nothing disturbs it, also where parts cannot be read
/// again. Returns the result that is given, or the first that is another one, with an answer that says so.
pub(crate) fn asked_stored(
    alloc: Global,
    given: Given<'_>,
    ways: Ways,
    whole: Outcome,
) -> Result<Outcome, AllocError> {
    // Of that the lines of the case tell.
    if whole.is_out_of_memory() {
        return Ok(whole);
    }
    for keeping in &KEEPINGS {
        let found = asked_so(alloc, given, ways, *keeping, u64::MAX)?;
        if !whole.is_same(&found) {
            return told_apart(alloc, found);
        }
        if ways.is_undisturbed() {
            if let Some(found) = lost_otherwise(alloc, given, ways, *keeping, &whole)? {
                return told_apart(alloc, found);
            }
        }
    }
    Ok(whole)
}
