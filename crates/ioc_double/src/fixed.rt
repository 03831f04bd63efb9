//! Numbers with a fixed number of digits behind the point.

ghost use Rattle.std.specs.Prelude.{◌≡◌, ◌+◌, ◌*◌, ◌^◌, ◌<◌, ◌≤◌, ◌++◌, length};
ghost use Rattle.ioc_double.specs.Size.{IsUpTo};
ghost use Rattle.ioc_double.specs.Fixed.{scaled, tenths_of, parts_of, carried, fixed_text};

use crate::pieces::{DoubleText, push_decimal, push_fraction};
use std::num::{nearest_i64_to_f64, saturating_f64_to_u32};

/// The whole part of a number, and the digits behind its point as a number.
#[derive(Clone, Copy, PartialEq, Eq, Debug)]
pub(crate) struct Fixed {
    /// The whole part.
    pub(crate) whole: u64,
    /// The digits behind the point.
    pub(crate) fraction: u64,
}

/// Returns the number times 10^`digits`, times 10, each product rounded.
fn scaled(rest: f64, digits: u8) -> f64
    requires { digits ≤ 8 }
    ensures { result ≡ scaled rest digits }
{
    let scale = nearest_i64_to_f64(10i64.pow(u32::from(digits)));
    rest * scale * f64::from(10i32)
}

/// Returns ten times the digits behind the point of a number of at most 1, as a whole number.
fn tenths(rest: f64, digits: u8) -> u32
    requires digits { digits ≤ 8 }
    requires rest { IsUpTo 1 rest }
    ensures value { result ≡ tenths_of rest digits }
    ensures bound { result ≤ 10 ^ digits * 10 }
{
    saturating_f64_to_u32(scaled(rest, digits))
}

/// Returns the whole part of a size and its digits behind the point, rounded.
#[tactic(auto, unfolding(crate::specs::Fixed::parts_of))]
fn parts_of(size: f64, digits: u8) -> Fixed
    requires digits { digits ≤ 8 }
    requires size { IsUpTo (10 ^ 7) size }
    ensures value { result ≡ parts_of size digits }
    ensures whole { result.whole ≤ 10 ^ 7 }
    ensures fraction { result.fraction ≤ 10 ^ digits }
{
    let whole = saturating_f64_to_u32(size);
    let tenths = tenths(size - f64::from(whole), digits);
    Fixed {
        whole: u64::from(whole),
        fraction: (u64::from(tenths) + 5) / 10,
    }
}

/// Returns the parts, of which 10^`digits` behind the point is one more whole.
#[tactic(auto, unfolding(crate::specs::Fixed::carried))]
fn carry(parts: Fixed, digits: u8) -> Fixed
    requires digits { digits ≤ 8 }
    requires whole { parts.whole ≤ 10 ^ 7 }
    requires fraction { parts.fraction ≤ 10 ^ digits }
    ensures value { result ≡ carried digits parts }
    ensures whole { result.whole ≤ 10 ^ 7 + 1 }
    ensures fraction { result.fraction < 10 ^ digits }
{
    if parts.fraction == 10u64.pow(u32::from(digits)) {
        Fixed {
            whole: parts.whole + 1,
            fraction: 0,
        }
    } else {
        parts
    }
}

/// Appends a size with so many digits behind the point.
#[tactic(auto, unfolding(crate::specs::Fixed::fixed_text))]
pub(crate) fn push_fixed(text: &mut DoubleText, size: f64, digits: u8)
    requires digits { digits ≤ 8 }
    requires size { IsUpTo (10 ^ 7) size }
    requires room { length text.old.items ≤ 1 }
    ensures value { text.new.items ≡ text.old.items ++ fixed_text size digits }
    ensures short { length text.new.items ≤ 23 }
{
    let parts = carry(parts_of(size, digits), digits);
    push_decimal(text, parts.whole);
    push_fraction(text, parts.fraction, digits);
}
