//! Floats and doubles as text, as Java's `Float.toHexString` and `Double.toHexString` print them.

ghost use Rattle.std.specs.Prelude.{◌≡◌, ◌+◌, ◌≤◌, ◌++◌, length};
ghost use Rattle.std.specs.Fmt.{sign_text};
ghost use Rattle.arrayvec.specs.ArrayString.{array_string_len};
ghost use Rattle.hprof_text.specs.JavaFloats.{fraction_bits, exponent_bits, bias, greatest_exponent, fields_of, is_nan};
ghost use Rattle.hprof_text.specs.JavaFloats.{without_last_zeros, fraction_text, lead_text, power_of, finite_text, fields_text};
ghost use Rattle.hprof_text.specs.JavaFloats.{float_text, double_text};

use arrayvec::ArrayString;
use itoa::Buffer;

// The room of a text: a sign, `0x1.`, sixteen digits, `p`, and a power of two of eleven bytes.
const ROOM: usize = 33;

/// The text of a float or a double, which lies in the value itself.
pub type FloatText = ArrayString<ROOM>;

// Java's formats of floating-point numbers (IEEE 754).
#[derive(Clone, Copy)]
enum FloatFormat {
    Float,
    Double,
}

impl FloatFormat {
    fn fraction_bits(self) -> u32
        ensures { result ≡ fraction_bits self }
    {
        match self {
            FloatFormat::Float => 23,
            FloatFormat::Double => 52,
        }
    }

    fn exponent_bits(self) -> u32
        ensures { result ≡ exponent_bits self }
    {
        match self {
            FloatFormat::Float => 8,
            FloatFormat::Double => 11,
        }
    }

    fn bias(self) -> u16
        ensures { result ≡ bias self }
    {
        match self {
            FloatFormat::Float => 127,
            FloatFormat::Double => 1023,
        }
    }

    // The exponent of infinity, and of what is no number.
    fn greatest_exponent(self) -> u16
        ensures { result ≡ greatest_exponent self }
    {
        (1 << self.exponent_bits()) - 1
    }
}

// The fields of a number's bits. Zeros behind the fraction make 64 bits of it.
#[derive(Clone, Copy)]
struct FloatFields {
    is_negative: bool,
    exponent: u16,
    fraction: u64,
}

// The fields of the bits.
fn fields_of(format: FloatFormat, bits: u64) -> FloatFields
    ensures { result ≡ fields_of format bits }
{
    let fraction_bits = format.fraction_bits();
    let exponent_bits = format.exponent_bits();
    FloatFields {
        is_negative: bits >> (exponent_bits + fraction_bits) == 1,
        exponent: ((bits >> fraction_bits) % (1 << exponent_bits)) as u16,
        fraction: bits % (1 << fraction_bits) << (64 - fraction_bits),
    }
}

// Whether the fields are of no number.
fn is_nan(format: FloatFormat, fields: FloatFields) -> bool
    ensures { result ≡ is_nan format fields }
{
    fields.exponent == format.greatest_exponent() && fields.fraction != 0
}

// The sign in print.
fn sign_text(is_negative: bool) -> &'static str
    ensures text { result.now ≡ sign_text is_negative }
    ensures short { length result.now ≤ 1 }
{
    if is_negative { "-" } else { "" }
}

// What stands before the fraction.
fn lead_text(fields: FloatFields) -> &'static str
    ensures text { result.now ≡ lead_text fields }
    ensures short { length result.now ≤ 4 }
{
    if fields.exponent == 0 { "0x0." } else { "0x1." }
}

// The digits without the zeros at the end.
fn without_last_zeros(digits: &str) -> &str
    ensures text { result.now ≡ without_last_zeros digits.now }
    ensures short { length result.now ≤ length digits.now }
{
    let mut kept = digits;
    while let Some(front) = kept.strip_suffix('0') {
        kept = front;
    }
    kept
}

// Appends the fraction in print.
fn push_fraction(text: &mut FloatText, fraction: u64)
    requires { array_string_len text.old + 16 ≤ ROOM }
    ensures text { text.new.bytes ≡ text.old.bytes ++ fraction_text fraction }
    ensures short { array_string_len text.new ≤ array_string_len text.old + 16 }
{
    let mut digits = [0; 16];
    let _ = hex::encode_to_slice(fraction.to_be_bytes(), &mut digits);
    let kept = without_last_zeros(str::from_utf8(&digits).unwrap());
    text.push_str(if kept.is_empty() { "0" } else { kept });
}

// The power of two.
fn power_of(format: FloatFormat, fields: FloatFields) -> i32
    ensures { result ≡ power_of format fields }
{
    if fields.exponent == 0 && fields.fraction == 0 {
        return 0;
    }
    i32::from(fields.exponent.max(1)) - i32::from(format.bias())
}

// Appends a finite number in print, without its sign.
fn push_finite(text: &mut FloatText, format: FloatFormat, fields: FloatFields)
    requires { array_string_len text.old + 32 ≤ ROOM }
    ensures { text.new.bytes ≡ text.old.bytes ++ finite_text format fields }
{
    text.push_str(lead_text(fields));
    push_fraction(text, fields.fraction);
    text.push_str("p");
    text.push_str(Buffer::new().format(power_of(format, fields)));
}

// The fields in print.
fn fields_text(format: FloatFormat, fields: FloatFields) -> FloatText
    ensures { result.bytes ≡ fields_text format fields }
{
    let mut text = FloatText::new();
    if is_nan(format, fields) {
        text.push_str("NaN");
        return text;
    }
    text.push_str(sign_text(fields.is_negative));
    if fields.exponent == format.greatest_exponent() {
        text.push_str("Infinity");
    } else {
        push_finite(&mut text, format, fields);
    }
    text
}

/// Returns the text of a float as Java's `Float.toHexString` prints it, from the bits of the float.
///
/// A number is a sign if it is negative, `0x1.`, the fraction in hexadecimal without the zeros at its end but with one digit at least, `p`,
/// and the power of two in decimal: 0.1 is `0x1.99999ap-4`. A subnormal number begins with `0x0.` and ends with `p-126`, and zero is
/// `0x0.0p0`. Infinity is `Infinity`, with its sign. Each NaN is `NaN`, without a sign.
pub fn float_text(bits: u32) -> FloatText
    ensures { result.bytes ≡ float_text bits }
{
    let bits = u64::from(bits);
    fields_text(FloatFormat::Float, fields_of(FloatFormat::Float, bits))
}

/// Returns the text of a double as Java's `Double.toHexString` prints it, from the bits of the double.
///
/// It is as a float's in [`float_text`], and a subnormal number ends with `p-1022`.
pub fn double_text(bits: u64) -> FloatText
    ensures { result.bytes ≡ double_text bits }
{
    fields_text(FloatFormat::Double, fields_of(FloatFormat::Double, bits))
}
