//! Hints at the place of a node in a sorted list of nodes. They affect only speed.

ghost use Rattle.std.specs.Prelude.{◌≡◌, ◌+◌, ◌^◌, ◌<◌, ◌≤◌, IfOk, IfSome, length};

use std::alloc::{AllocError, Global};

// There is a part for each so many nodes.
const NODES_OF_A_PART: usize = 2;

// So many nodes are looked at, one after another, from so many before the place where the node is expected.
const FEW: usize = 20;

const BEFORE: usize = 4;

/// Divides the range of the nodes into equal parts, and has the place where each part begins.
#[derive(Drop)]
pub(crate) struct Hints {
    least: u64,
    /// The width of a part is two to this power.
    shift: u32,
    /// For each part the number of the first node in it or after it, and at the end the number of nodes. Numbers that do not fit are cut
    /// off to the greatest that does.
    firsts: Vec<u32>,
    ghost shifts: { shift < 64 },
}

// The least power of two by which the range is cut into so many parts, or fewer.
fn shift_for(range: u64, parts: u64) -> u32
    ensures { result < 64 }
{
    for shift in 0..63 {
        if range >> shift < parts {
            return shift;
        }
    }
    63
}

// A number, or the greatest that fits.
fn cut_off(number: usize) -> u32
    ensures { number < 2 ^ 32 → result ≡ number }
{
    u32::try_from(number).unwrap_or(u32::MAX)
}

// Of each part the first number whose node is in it or behind it, and how many nodes there are.
fn firsts_of(
    alloc: Global,
    nodes: &[u64],
    least: u64,
    shift: u32,
    parts: usize,
) -> Result<Vec<u32>, AllocError>
    requires shift { shift < 64 }
    requires parts { parts ≤ length nodes.now + 1 }
    ensures { IfOk result (λ firsts. length firsts.items ≤ parts + 1) }
{
    let mut firsts = Vec::with_capacity(alloc, parts + 1)?;
    for (number, node) in nodes.iter().enumerate() {
        let part = (node.saturating_sub(least) >> shift) as usize;
        if firsts.len() <= part && part < parts {
            firsts.resize(part + 1, cut_off(number))?;
        }
    }
    firsts.push(cut_off(nodes.len()))?;
    Ok(firsts)
}

// Where the node would stand in a part, were its nodes equally far apart.
#[inline(always)]
fn expected(low: usize, high: usize, within: u64, shift: u32) -> usize
    requires order { low ≤ high }
    requires shift { shift < 64 }
    ensures low { low ≤ result }
    ensures high { result ≤ high }
{
    let on = within.wrapping_mul((high - low) as u64) >> shift;
    low + (on as usize).min(high - low)
}

// The first place from one on, in a part, of a node that is not below that one; or else where the part ends. None where it is
// not among the next few, nor before.
#[inline(always)]
fn place_among_few(nodes: &[u64], from: usize, high: usize, node: u64) -> Option<usize>
    requires order { from ≤ high }
    requires within { high ≤ length nodes.now }
    ensures { IfSome result (λ place. place ≤ high) }
{
    let end = high.min(from + FEW);
    for place in from..end {
        if node <= nodes[place] {
            return Some(place);
        }
    }
    (end == high).then_some(high)
}

// The first place in a part of a node that is not below that one; or else where the part ends. It is looked for near a place.
#[inline(always)]
fn place_near(nodes: &[u64], low: usize, high: usize, near: usize, node: u64) -> usize
    requires low { low ≤ near }
    requires high { near ≤ high }
    requires within { high ≤ length nodes.now }
    ensures { result ≤ high }
{
    let from = low.max(near.saturating_sub(BEFORE));
    if from == low || nodes[from - 1] < node {
        if let Some(place) = place_among_few(nodes, from, high, node) {
            return place;
        }
    }
    low + nodes[low..high].partition_point(|other| *other < node)
}

impl Hints {
    /// Returns the hints for sorted nodes. If memory runs out, the answer is `AllocError`.
    pub(crate) fn new(alloc: Global, nodes: &[u64]) -> Result<Hints, AllocError> {
        let least = nodes.first().copied().unwrap_or(0);
        let greatest = nodes.last().copied().unwrap_or(0);
        let parts = nodes.len() / NODES_OF_A_PART + 1;
        let shift = shift_for(greatest.saturating_sub(least), parts as u64);
        Ok(Hints {
            least,
            shift,
            firsts: firsts_of(alloc, nodes, least, shift, parts)?,
        })
    }

    /// Returns a guess of the place of a node, or of the place where it would be inserted.
    #[inline(always)]
    pub(crate) fn place(&self, nodes: &[u64], node: u64) -> usize
        ensures { result ≤ length nodes.now }
    {
        let Some(beyond) = node.checked_sub(self.least) else {
            return 0;
        };
        let part = (beyond >> self.shift) as usize;
        if self.firsts.len().saturating_sub(1) <= part {
            return nodes.len();
        }
        let low = self.firsts[part] as usize;
        let high = self.firsts[part + 1] as usize;
        if high < low || nodes.len() < high {
            return nodes.len();
        }
        let within = beyond - ((part as u64) << self.shift);
        let near = expected(low, high, within, self.shift);
        place_near(nodes, low, high, near, node)
    }
}
