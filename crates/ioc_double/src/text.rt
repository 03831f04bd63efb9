//! The text of a double.

ghost use Rattle.std.specs.Prelude.{◌≡◌, ◌+◌, ◌≤◌, ◌++◌, length, codes};
ghost use Rattle.ioc_double.specs.Text.{layout_of, minus_text, text_in, text_of_double, wide_text};

use crate::digits::Digits;
use crate::double::Double;
use crate::fixed::push_fixed;
use crate::pieces::{pad_front, push_bytes};
pub use crate::pieces::{DoubleText, MAX_DOUBLE_TEXT_BYTES};
use crate::rounded::push_rounded;
use crate::scientific::push_scientific;
use std::num::nearest_i64_to_f64;

/// How a double is laid out.
#[derive(Clone, Copy, PartialEq, Eq, Debug)]
enum Layout {
    /// All digits in front of the point, and as many behind it as asked for.
    Fixed,
    /// All digits in front of the point, and at most three behind it.
    Rounded,
    /// `nan`.
    NotANumber,
    /// `nan`, `inf`, or one digit in front of the point and an exponent, with spaces in front.
    Padded,
}

/// Returns the layout of a number with so many digits.
#[tactic(auto, unfolding(crate::specs::Text::layout_of))]
fn layout_of(number: f64, digits: u8) -> Layout
    ensures { result ≡ layout_of number digits }
{
    let size = number.abs();
    if digits <= 8 && size <= f64::from(10_000_000i32) {
        Layout::Fixed
    } else if digits <= 8 && size <= nearest_i64_to_f64(10_000_000_000_000_000) {
        Layout::Rounded
    } else if digits <= 8 && number.is_nan() {
        Layout::NotANumber
    } else {
        Layout::Padded
    }
}

/// Returns `-` for a number below 0, and else nothing.
fn sign(number: f64) -> DoubleText
    ensures { result.items ≡ minus_text number }
{
    let mut text = DoubleText::new();
    if number < f64::from(0i32) {
        text.push(b'-');
    }
    text
}

/// Appends a size with so many digits behind the first one.
#[tactic(auto, unfolding(crate::specs::Text::wide_text))]
fn push_wide(text: &mut DoubleText, size: f64, digits: u8)
    requires digits { digits ≤ 15 }
    requires room { length text.old.items ≤ 1 }
    ensures { text.new.items ≡ text.old.items ++ wide_text size digits }
{
    if size.is_nan() {
        push_bytes(text, b"nan");
    } else if size.is_infinite() {
        push_bytes(text, b"inf");
    } else {
        push_scientific(text, size, digits);
    }
}

/// Returns the text of a double with so many digits behind the point, as EPICS shows a field with
/// this PREC. It has at most 23 bytes.
///
/// - Up to 10^7, with at most 8 digits: all digits in front of the point, and `digits` behind it.
///   These are computed as libCom does it, so that a half is rounded up.
/// - Up to 10^16, with at most 8 digits: at most 3 digits behind the point, exactly rounded, a half
///   to the even digit.
/// - Else, and with more digits: one digit in front of the point, `digits` behind it, exactly
///   rounded, a half to the even digit, and an exponent; with spaces in front up to `digits` + 7
///   bytes.
/// - NaN is `nan` and an infinity `inf` or `-inf`, with spaces in front as above, but for a NaN
///   with at most 8 digits.
///
/// A zero has no sign, and a negative number keeps its own: -0.0001 with 2 digits is `-0.00`.
///
/// ```text
/// text_of_double(Double::new(2.675), three)   2.675
/// text_of_double(Double::new(1.5e16), three)   1.500e+16, with a space in front
/// ```
#[tactic(auto, unfolding(crate::specs::Text::text_of_double))]
pub fn text_of_double(value: Double, digits: Digits) -> DoubleText
    ensures value { result.items ≡ text_of_double value digits }
    ensures length { length result.items ≤ 23 }
{
    let number = value.number();
    let count = digits.count();
    let size = number.abs();
    let mut text = sign(number);
    match layout_of(number, count) {
        Layout::Fixed => push_fixed(&mut text, size, count),
        Layout::Rounded => push_rounded(&mut text, size, count),
        Layout::NotANumber => {
            text.clear();
            push_bytes(&mut text, b"nan");
        }
        Layout::Padded => {
            push_wide(&mut text, size, count);
            text = pad_front(&text, usize::from(count) + 7);
        }
    }
    text
}
