//! Big-endian numbers, written to the front of a slice.

ghost use Rattle.std.specs.Prelude.{◌≡◌, ◌↔◌, IsTrue, ◌<◌, ◌≤◌, ◌^◌, ◌++◌, length, drop, sum};
ghost use Rattle.byteorder.specs.Endian.{big_bytes};
ghost use Rattle.hprof_values.specs.Ids.{width_of, IsId};
ghost use Rattle.hprof_values.specs.FieldGroups.{field_bytes, FitFields};
ghost use Rattle.hprof_values.specs.Numbers.{width_of_number, number_value, number_widths, number_values};

use crate::ids::IdSize;
use byteorder::{BigEndian, ByteOrder};

/// A number that a field holds, with the kind of the field.
#[derive(Clone, Copy, Debug, PartialEq, Eq)]
pub enum Number {
    /// An identifier.
    Id(u64),
    /// A four-byte number.
    Four(u32),
    /// A two-byte number.
    Two(u16),
    /// A one-byte number.
    One(u8),
}

impl Number {
    /// Returns the number of bytes of the field.
    #[inline(always)]
    pub fn width(self, ids: IdSize) -> usize
        ensures { result ≡ width_of_number ids self }
    {
        match self {
            Number::Id(_) => ids.width(),
            Number::Four(_) => 4,
            Number::Two(_) => 2,
            Number::One(_) => 1,
        }
    }

    /// Returns whether the number fits its field. Only an identifier can be too large.
    fn fits(self, ids: IdSize) -> bool
        ensures { IsTrue result ↔ (number_value self < 256 ^ width_of_number ids self) }
    {
        match (self, ids) {
            (Number::Id(id), IdSize::Four) => u32::try_from(id).is_ok(),
            _ => true,
        }
    }
}

/// Returns whether each of the numbers fits its field.
pub fn numbers_fit(numbers: &[Number], ids: IdSize) -> bool
    ensures { IsTrue result ↔ FitFields (number_widths ids numbers.now) (number_values numbers.now) }
{
    for number in numbers {
        if !number.fits(ids) {
            return false;
        }
    }
    true
}

/// Writes an identifier to the front.
#[inline(always)]
fn put_id(id: u64, ids: IdSize, out: &mut [u8])
    requires room { width_of ids ≤ length out.old }
    requires is_id { IsId ids id }
    ensures { out.new ≡ big_bytes (width_of ids) id ++ drop (width_of ids) out.old }
{
    match ids {
        IdSize::Four => BigEndian::write_u32(out, id as u32),
        IdSize::Eight => BigEndian::write_u64(out, id),
    }
}

/// Writes a number to the front.
#[inline(always)]
fn put_number(number: Number, ids: IdSize, out: &mut [u8])
    requires room { width_of_number ids number ≤ length out.old }
    requires fits { number_value number < 256 ^ width_of_number ids number }
    ensures { out.new ≡ big_bytes (width_of_number ids number) (number_value number) ++ drop (width_of_number ids number) out.old }
{
    match number {
        Number::Id(id) => put_id(id, ids, out),
        Number::Four(number) => BigEndian::write_u32(out, number),
        Number::Two(number) => BigEndian::write_u16(out, number),
        Number::One(number) => out[0] = number,
    }
}

/// Returns the number of bytes of the fields.
#[inline(always)]
pub fn numbers_len(numbers: &[Number], ids: IdSize) -> usize
    requires { sum (number_widths ids numbers.now) < 2 ^ 64 }
    ensures { result ≡ sum (number_widths ids numbers.now) }
{
    numbers.iter().map(|number| number.width(ids)).sum()
}

/// Writes the numbers to the front, one after the other.
#[inline(always)]
pub fn put_numbers(numbers: &[Number], ids: IdSize, out: &mut [u8])
    requires room { sum (number_widths ids numbers.now) ≤ length out.old }
    requires fits { FitFields (number_widths ids numbers.now) (number_values numbers.now) }
    ensures { out.new ≡ field_bytes (number_widths ids numbers.now) (number_values numbers.now)
        ++ drop (sum (number_widths ids numbers.now)) out.old }
{
    let mut end = 0;
    for number in numbers {
        put_number(*number, ids, &mut out[end..]);
        end += number.width(ids);
    }
}
