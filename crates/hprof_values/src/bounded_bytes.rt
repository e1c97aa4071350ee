//! The fields of an item, read within bounds.

ghost use Rattle.std.specs.Prelude.{◌≡◌, ◌+◌, ◌<◌, ◌^◌, sum};
ghost use Rattle.hprof_values.specs.FieldGroups.{field_end, reached};
ghost use Rattle.hprof_values.specs.BoundedBytes.{bounds_of};

use crate::parse_stop::ParseStop;
use crate::reason::Reason;

/// The bytes of an item, with the bounds within which it must end. Bounds and places are counted from the item's first byte.
#[derive(Clone, Copy, Debug)]
pub struct BoundedBytes<'a> {
    /// The bytes that are available.
    pub bytes: &'a [u8],
    /// The number of bytes that the record has left.
    pub room: usize,
    /// The number of bytes of the longest accepted item.
    pub longest: usize,
}

#[inline(always)]
fn total(widths: &[usize]) -> usize
    requires { sum widths.now < 2 ^ 64 }
    ensures { result ≡ sum widths.now }
{
    widths.iter().sum()
}

impl BoundedBytes<'_> {
    /// Tests the end of a field. It must lie within the record, then within the longest item, and then its bytes must be available.
    #[inline(always)]
    fn field_end(&self, end: usize) -> Result<usize, ParseStop>
        ensures { result ≡ field_end (bounds_of self.now) end }
    {
        if self.room < end {
            Err(ParseStop::Fault(Reason::PastEnd))
        } else if self.longest < end {
            Err(ParseStop::TooLong)
        } else if self.bytes.len() < end {
            Err(ParseStop::Short)
        } else {
            Ok(end)
        }
    }

    /// Returns the end of fields of these widths that begin at a place. Each field is tested before the next. It is inlined, so that its
    /// callers need no memory for the item and the widths if it does not run.
    #[inline(always)]
    fn each_end(&self, at: usize, widths: &[usize]) -> Result<usize, ParseStop>
        requires { at + sum widths.now < 2 ^ 64 }
        ensures { result ≡ reached (bounds_of self.now) at widths.now }
    {
        let mut end = at;
        let mut rest = widths;
        while let [width, others @ ..] = rest {
            end = self.field_end(end + width)?;
            rest = others;
        }
        Ok(end)
    }

    /// Returns the end of fields of these widths that begin at a place, or the failure of the first test that fails.
    #[tactic(auto, using(crate::proofs::FieldGroups::reached_within))]
    #[inline(always)]
    pub fn end_of(&self, at: usize, widths: &[usize]) -> Result<usize, ParseStop>
        requires { at + sum widths.now < 2 ^ 64 }
        ensures { result ≡ reached (bounds_of self.now) at widths.now }
    {
        let end = at + total(widths);
        let within = self.room.min(self.longest).min(self.bytes.len());
        if end <= within {
            return Ok(end);
        }
        self.each_end(at, widths)
    }
}
