//! Doubles cut to whole numbers, and their remainders.

ghost use Rattle.std.specs.Prelude.{◌≡◌, ◌+◌, ◌*◌, ◌/◌, ◌%◌, ◌^◌, ◌<◌, ◌≤◌, IsTrue, pos};
ghost use Rattle.std.specs.Float.{float_is_finite};
ghost use Rattle.std.specs.Float.Ieee.{binary64, of_int, of_bits, mul, nan};
ghost use Rattle.ioc_calc.specs.Wholes.{size_of, signed, remainder, size_of_fields};

use std::num::{f64_from_bits_with_nan, f64_to_bits_with_nan, nearest_i64_to_f64};

/// A whole number without its sign: these digits times two to the power of the places.
#[derive(Clone, Copy)]
pub struct Whole {
    pub digits: u64,
    pub places: u64,
}

/// Returns the size of the number that has this exponent field and these digits.
fn whole_of_fields(field: u64, digits: u64) -> Whole
    requires field { field < 2048 }
    requires digits { digits < 4503599627370496 }
    ensures value { result.digits * 2 ^ result.places ≡ size_of_fields field digits }
    ensures digits { result.digits < 9007199254740992 }
    ensures places { result.places < 1000 }
    ensures normal { 0 < result.places → 4503599627370496 ≤ result.digits }
{
    if field >= 1075 {
        Whole {
            digits: 4503599627370496 + digits,
            places: field - 1075,
        }
    } else if field >= 1023 {
        Whole {
            digits: (4503599627370496 + digits) >> (1075 - field),
            places: 0,
        }
    } else {
        Whole {
            digits: 0,
            places: 0,
        }
    }
}

/// Returns the size of a number without its fraction.
pub fn whole_of(x: f64) -> Whole
    requires { IsTrue (float_is_finite x) }
    ensures value { result.digits * 2 ^ result.places ≡ size_of x }
    ensures digits { result.digits < 9007199254740992 }
    ensures places { result.places < 1000 }
    ensures normal { 0 < result.places → 4503599627370496 ≤ result.digits }
{
    let bits = f64_to_bits_with_nan(x);
    whole_of_fields(
        bits % 9223372036854775808 / 4503599627370496,
        bits % 4503599627370496,
    )
}

/// Returns the remainder of twice a number.
fn doubled_once(rest: u64, divisor: u64) -> u64
    requires rest { rest < divisor }
    requires divisor { divisor < 9007199254740992 }
    ensures value { result ≡ (rest * 2) % divisor }
    ensures below { result < divisor }
{
    (rest * 2) % divisor
}

/// Returns the remainder of a number that is doubled so many times.
fn doubled(number: u64, times: u64, divisor: u64) -> u64
    requires divisor { (0 < divisor) × (divisor < 9007199254740992) }
    ensures value { result ≡ (number * 2 ^ times) % divisor }
    ensures below { result < divisor }
{
    let mut rest = number % divisor;
    for _ in 0..times {
        rest = doubled_once(rest, divisor);
    }
    rest
}

/// Returns the remainder of two whole numbers, of which the second isn't 0.
pub fn rest_of(x: Whole, y: Whole) -> Whole
    requires x_digits { x.digits < 9007199254740992 }
    requires y_digits { (0 < y.digits) × (y.digits < 9007199254740992) }
    requires y_normal { 0 < y.places → 4503599627370496 ≤ y.digits }
    requires places { (x.places < 1000) × (y.places < 1000) }
    ensures value { result.digits * 2 ^ result.places ≡ (x.digits * 2 ^ x.places) % (y.digits * 2 ^ y.places) }
    ensures digits { result.digits < 9007199254740992 }
    ensures places { result.places < 1000 }
{
    if x.places < y.places {
        x
    } else {
        Whole {
            digits: doubled(x.digits, x.places - y.places, y.digits),
            places: y.places,
        }
    }
}

/// Returns the double of a size above 0.
#[tactic(auto, using(crate::proofs::WholeSizes::product_is))]
fn size_as_double(whole: Whole) -> f64
    requires digits { (0 < whole.digits) × (whole.digits < 9007199254740992) }
    requires places { whole.places < 1000 }
    ensures { result ≡ of_int binary64 (pos (whole.digits * 2 ^ whole.places)) }
{
    let power = f64_from_bits_with_nan((whole.places + 1023) * 4503599627370496);
    nearest_i64_to_f64(whole.digits as i64) * power
}

/// Returns the double of a whole number.
fn double_of(negative: bool, whole: Whole) -> f64
    requires digits { whole.digits < 9007199254740992 }
    requires places { whole.places < 1000 }
    ensures { result ≡ signed negative (whole.digits * 2 ^ whole.places) }
{
    if whole.digits == 0 {
        return f64::from(0u32);
    }
    let size = size_as_double(whole);
    if negative { -size } else { size }
}

/// Returns NaN.
fn not_a_number() -> f64
    ensures { result ≡ nan }
{
    f64::NAN
}

/// Returns the remainder of two numbers cut to whole ones, with the sign of the first and never -0:
/// NaN where one is NaN, the first is infinite or the second is cut to 0.
///
/// It needs no function of the C library, whose `fmod` not every system has in the same version.
#[tactic(auto, unfolding(crate::specs::Wholes::remainder))]
pub fn remainder(x: f64, y: f64) -> f64
    ensures { result ≡ remainder x y }
{
    if !x.is_finite() || y.is_nan() {
        return not_a_number();
    }
    let negative = x < 0.0;
    let size = whole_of(x);
    if !y.is_finite() {
        return double_of(negative, size);
    }
    let divisor = whole_of(y);
    if divisor.digits == 0 {
        return not_a_number();
    }
    double_of(negative, rest_of(size, divisor))
}
