//! What the definitions of decimal texts say.

ghost use Rattle.std.specs.Prelude.{◌≡◌, ℤ};
ghost use Rattle.e57_decimal.specs.declared.values.Decimal.{Decimal};
ghost use Rattle.e57_decimal.specs.Fractions.{Fraction, IsDecimal, IsSame, combined, fraction_of};
ghost use Rattle.e57_decimal.specs.Reading.{HasValue};
ghost use Rattle.e57_decimal.specs.Writing.{HasFewDigits, decimal_text};

/// A law: the text of a value is a decimal text of this value, if it has at most 128 digits before the point.
pub fn text_is_read()
    ensures { (x : Fraction) → HasFewDigits x → HasValue (decimal_text x) x }
{}

/// A law: equal values have equal texts.
pub fn one_text()
    ensures { (x y : Fraction) → IsSame x y → decimal_text x ≡ decimal_text y }
{}

/// A law: a value has at most one decimal.
pub fn one_decimal()
    ensures { (a b : Decimal) → IsDecimal a → IsDecimal b
        → IsSame (fraction_of a) (fraction_of b) → a ≡ b }
{}

/// A law: `raw * scale + offset` depends on the values of the scale and the offset alone.
pub fn one_sum()
    ensures { (a b c d : Fraction) (raw : ℤ) → IsSame a b → IsSame c d
        → IsSame (combined a c raw) (combined b d raw) }
{}
