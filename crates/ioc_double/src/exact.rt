//! The exact decimal of a double.
//!
//! A finite double is a whole number times a power of two. Times a power of ten it is a whole number
//! again, whose digits are those of the double.

ghost use Rattle.std.specs.Prelude.{◌≡◌, ◌*◌, ◌^◌, ◌<◌, ◌≤◌, length, IsTrue};
ghost use Rattle.std.specs.Float.{float_is_finite};
ghost use Rattle.std.specs.Float.Ieee.Positive.{num, den};
ghost use Rattle.ioc_double.specs.Groups.{value, AreGroups};
ghost use Rattle.ioc_double.specs.Exact.{IsExact};

use crate::groups::{Leading, leading_digits, multiply_by_power};
use std::num::f64_to_bits_with_nan;

/// A size as a multiple of the smallest double: `mantissa` times 2^`shift` times 2^-1074.
#[derive(Clone, Copy)]
struct Binary {
    mantissa: u64,
    shift: u32,
}

/// 2^63, the weight of the sign in the bits of a double.
const SIGN: u64 = 9_223_372_036_854_775_808;

/// 2^52, the weight of the exponent in the bits of a double.
const EXPONENT: u64 = 4_503_599_627_370_496;

/// Returns the size of a finite number.
fn binary_of(number: f64) -> Binary
    requires { IsTrue (float_is_finite number) }
    ensures value { num number * 2 ^ 1074 ≡ result.mantissa * 2 ^ result.shift * den number }
    ensures mantissa { result.mantissa < 2 ^ 53 }
    ensures shift { result.shift ≤ 2045 }
{
    let bits = f64_to_bits_with_nan(number);
    let exponent = bits % SIGN / EXPONENT;
    let fraction = bits % EXPONENT;
    if exponent == 0 {
        Binary {
            mantissa: fraction,
            shift: 0,
        }
    } else {
        Binary {
            mantissa: EXPONENT + fraction,
            shift: (exponent - 1) as u32,
        }
    }
}

/// How many groups of nine digits hold the digits of the smallest double, and 27 zeros.
const GROUPS: usize = 90;

/// Returns the number times 10^27.
fn with_zeros(number: u64) -> [u64; GROUPS]
    requires { number < 2 ^ 53 }
    ensures groups { AreGroups result }
    ensures value { value result ≡ number * 10 ^ 27 }
    ensures count { length result ≡ 90 }
{
    let mut groups = [0; GROUPS];
    groups[3] = number % 1_000_000_000;
    groups[4] = number / 1_000_000_000;
    groups
}

/// The exact size of a finite number: a whole number, of which this has the leading digits, over
/// 10^`places`.
#[derive(Clone, Copy)]
pub(crate) struct Exact {
    pub(crate) leading: Leading,
    pub(crate) places: u32,
}

/// Returns the exact size of a finite number.
pub(crate) fn exact_of(number: f64) -> Exact
    requires { IsTrue (float_is_finite number) }
    ensures { IsExact result (num number) (den number) }
{
    let size = binary_of(number);
    let mut groups = with_zeros(size.mantissa);
    let places = if size.shift < 1074 {
        multiply_by_power(&mut groups, 5, 1074 - size.shift);
        1101 - size.shift
    } else {
        multiply_by_power(&mut groups, 2, size.shift - 1074);
        27
    };
    Exact {
        leading: leading_digits(&groups),
        places,
    }
}
