//! Numbers with one digit before the point and a power of ten.

ghost use Rattle.std.specs.Prelude.{◌≡◌, ◌≤◌, ◌++◌, ◌≤ℤ◌, ◌-ℤ◌, length, pos, IsTrue};
ghost use Rattle.std.specs.Float.{float_is_finite};
ghost use Rattle.std.specs.Float.Ieee.Positive.{num, den};
ghost use Rattle.ioc_double.specs.Nearest.{carried_over, nearest_decimal};
ghost use Rattle.ioc_double.specs.Pieces.{exponent_text, scientific_text};

use crate::exact::exact_of;
use crate::pieces::{DoubleText, push_digits, push_fraction};
use crate::rounding::nearest;

/// A number in scientific notation.
#[derive(Clone, Copy, PartialEq, Eq, Debug)]
pub(crate) struct Scientific {
    /// Its digits.
    pub(crate) digits: u64,
    /// The exponent of ten of its first digit.
    pub(crate) exponent: i32,
}

/// Returns the digits and the exponent of the first one, where these may be one digit too many.
fn carry_over(significand: u64, exponent: i32, digits: u8) -> Scientific
    requires digits { digits ≤ 15 }
    requires exponent { exponent ≤ℤ pos 1000 }
    ensures { result ≡ carried_over digits significand exponent }
{
    let tens = 10u64.pow(u32::from(digits));
    if significand == 10 * tens {
        Scientific {
            digits: tens,
            exponent: exponent + 1,
        }
    } else {
        Scientific {
            digits: significand,
            exponent,
        }
    }
}

/// Returns the exponent of the first of so many digits more than one, of which some stand behind the
/// point.
fn exponent_of(digits: u32, places: u32) -> i32
    requires digits { digits ≤ 1000 }
    requires places { places ≤ 2000 }
    ensures { result ≡ pos digits -ℤ pos places }
{
    digits as i32 - places as i32
}

/// Returns the decimal of `digits` + 1 digits that is nearest to the size of a finite number.
pub(crate) fn scientific_of(number: f64, digits: u8) -> Scientific
    requires finite { IsTrue (float_is_finite number) }
    requires digits { digits ≤ 15 }
    ensures { result ≡ nearest_decimal digits (num number) (den number) }
{
    let exact = exact_of(number);
    let leading = exact.leading;
    if leading.head == 0 {
        return Scientific {
            digits: 0,
            exponent: 0,
        };
    }
    let first = leading.head.ilog10();
    let significand = nearest(leading, first - u32::from(digits)) as u64;
    let exponent = exponent_of(first + leading.dropped, exact.places);
    carry_over(significand, exponent, digits)
}

/// Appends the sign and the digits of an exponent.
fn push_exponent(text: &mut DoubleText, exponent: i32)
    requires { length text.old.items ≤ 19 }
    ensures { text.new.items ≡ text.old.items ++ exponent_text exponent }
{
    text.push(if exponent < 0 { b'-' } else { b'+' });
    let size = u64::from(exponent.unsigned_abs());
    push_digits(text, size, if size < 100 { 2 } else { 3 });
}

/// Appends the size of a finite number in scientific notation, with so many digits behind the point.
pub(crate) fn push_scientific(text: &mut DoubleText, number: f64, digits: u8)
    requires finite { IsTrue (float_is_finite number) }
    requires digits { digits ≤ 15 }
    requires room { length text.old.items ≤ 1 }
    ensures { text.new.items
        ≡ text.old.items ++ scientific_text digits (nearest_decimal digits (num number) (den number)) }
{
    let scientific = scientific_of(number, digits);
    push_digits(text, scientific.digits / 10u64.pow(u32::from(digits)), 1);
    push_fraction(text, scientific.digits, digits);
    text.push(b'e');
    push_exponent(text, scientific.exponent);
}
