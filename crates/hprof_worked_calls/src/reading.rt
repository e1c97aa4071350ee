//! Reading parts into one sink.

use crate::engine::Answer;
use crate::listing::Listing;
use crate::streams::Reader;
use hprof_devices::{Device, Health};
use hprof_stream::{Limits, PartSummary, Sink, Tally, read_part};
use std::alloc::{AllocError, Global};

/// The kinds of facts, in the order in which a tally counts them.
const FORMS: [&str; 12] = [
    "names",
    "loads",
    "unloads",
    "frames",
    "traces",
    "starts",
    "ends",
    "roots",
    "classes",
    "instances",
    "object arrays",
    "primitive arrays",
];

fn text_of_summary(alloc: Global, summary: PartSummary) -> Result<String, AllocError> {
    let PartSummary { records, facts, .. } = summary;
    let end = if summary.ended { "yes" } else { "no" };
    format!(in alloc; "records {records} facts {facts} end {end}")
}

/// Reads the parts up to the first that is refused. Returns the text of the fault, or the summary of the last part. Does not read from a
/// reader that has failed.
fn read_into<S: Sink>(
    alloc: Global,
    readers: &mut [Device<Reader<'_>>],
    limits: Limits,
    sink: &mut S,
) -> Result<String, AllocError> {
    let mut text = String::new(alloc);
    for reader in readers.iter_mut() {
        let Health::Well = reader.health() else {
            return String::from_str(alloc, "reader failed");
        };
        match read_part(alloc, reader, limits, sink) {
            Ok(summary) => text = text_of_summary(alloc, summary)?,
            Err(fault) => return fault.to_string(alloc),
        }
    }
    Ok(text)
}

/// Returns the counts that are not 0, one a line.
fn lines_of(alloc: Global, counts: &[u64; 12]) -> Result<String, AllocError> {
    let mut lines = String::new(alloc);
    for (form, count) in FORMS.iter().zip(counts) {
        if *count > 0 {
            lines.push_str(&format!(in alloc; "{form} {count}\n")?)?;
        }
    }
    Ok(lines)
}

/// Reads the parts, and lists the number of facts of each form.
pub(crate) fn counted(
    alloc: Global,
    readers: &mut [Device<Reader<'_>>],
    limits: Limits,
) -> Result<Answer, AllocError> {
    let mut tally = Tally::new();
    let text = read_into(alloc, readers, limits, &mut tally)?;
    let lines = lines_of(alloc, &tally.counts())?;
    Ok(Answer { text, lines })
}

/// Reads the parts, and lists their headers and facts.
pub(crate) fn listed(
    alloc: Global,
    readers: &mut [Device<Reader<'_>>],
    limits: Limits,
) -> Result<Answer, AllocError> {
    let mut listing = Listing::new(alloc);
    let text = read_into(alloc, readers, limits, &mut listing)?;
    let lines = listing.lines;
    Ok(Answer { text, lines })
}
