//! Laws of the definitions. The contract of each function is a theorem; its body is empty.

ghost use Rattle.std.specs.Prelude.{◌≡◌, ℕ, ◌<◌, ◌^◌, List, Option, Some, IsAscii};
ghost use Rattle.hprof_text.specs.ModifiedUtf8.{IsModifiedUtf8, DecodesTo};
ghost use Rattle.hprof_text.specs.Printed.{IsPrinted};
ghost use Rattle.hprof_text.specs.Identifier.{id_digits, AreIdDigits, IsIdText, id_value};
ghost use Rattle.hprof_text.specs.JavaFloats.{IsNumber, float_text, double_text};
ghost use Rattle.hprof_text.specs.declared.java_floats.FloatFormat.TheVariants.{Float, Double};

/// Bytes have at most one list of units.
pub fn one_list_of_units()
    ensures { (a b bytes : List ℕ) → IsModifiedUtf8 a bytes → IsModifiedUtf8 b bytes → a ≡ b }
{}

/// Units have at most one encoding.
pub fn one_list_of_bytes()
    ensures { (units a b : List ℕ) → IsModifiedUtf8 units a → IsModifiedUtf8 units b → a ≡ b }
{}

/// `units` returns the units that `encode_units` was given.
pub fn units_come_back()
    ensures { (units bytes : List ℕ) (found : Option (List ℕ)) → IsModifiedUtf8 units bytes
        → DecodesTo bytes found → found ≡ Some units }
{}

/// Bytes have exactly one printed form.
pub fn one_printed_form()
    ensures exists { (bytes : List ℕ) → (text : List ℕ) × IsPrinted bytes text }
    ensures once { (bytes a b : List ℕ) → IsPrinted bytes a → IsPrinted bytes b → a ≡ b }
{}

/// The digits that `push_id` appends are lower-case hexadecimal without leading zeros, and stand for the identifier.
pub fn digits_are_shortest()
    ensures { (id : ℕ) → id < 2 ^ 64 → AreIdDigits id (id_digits id) }
{}

/// `parse_id` accepts the digits that `push_id` appends, and returns the identifier.
pub fn digits_are_taken()
    ensures { (id : ℕ) → id < 2 ^ 64 → IsIdText (id_digits id) × (id_value (id_digits id) ≡ id) }
{}

/// Floats that are no NaN and have the same text have the same bits, and so have doubles.
pub fn one_number_of_a_text()
    ensures float { (a b : ℕ) → a < 2 ^ 32 → b < 2 ^ 32 → IsNumber Float a → IsNumber Float b
        → float_text a ≡ float_text b → a ≡ b }
    ensures double { (a b : ℕ) → a < 2 ^ 64 → b < 2 ^ 64 → IsNumber Double a → IsNumber Double b
        → double_text a ≡ double_text b → a ≡ b }
{}
