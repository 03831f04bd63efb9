//! Large numbers with at most three digits behind the point.

ghost use Rattle.std.specs.Prelude.{◌≡◌, ◌+◌, ◌*◌, ◌^◌, ◌<◌, ◌≤◌, ◌++◌, length, IsTrue};
ghost use Rattle.std.specs.Float.{float_is_finite};
ghost use Rattle.std.specs.Float.Ieee.Nearest.{closest};
ghost use Rattle.std.specs.Float.Ieee.Positive.{num, den};
ghost use Rattle.ioc_double.specs.Rounded.{rounded_text};

use crate::exact::exact_of;
use crate::pieces::{DoubleText, push_decimal, push_fraction};
use crate::rounding::nearest;

/// Returns the whole number that is nearest to the size of a number, times 10^`places`. Of two that
/// are equally near it is the even one.
fn nearest_with_places(number: f64, places: u8) -> u64
    requires finite { IsTrue (float_is_finite number) }
    requires places { places ≤ 3 }
    requires large { 10 ^ 7 * den number < num number }
    requires small { num number ≤ 10 ^ 16 * den number }
    ensures value { result ≡ closest (num number * 10 ^ places) (den number) }
    ensures bound { result ≤ 10 ^ 16 * 10 ^ places }
{
    let exact = exact_of(number);
    let dropped = exact.leading.dropped + u32::from(places);
    nearest(exact.leading, exact.places - dropped) as u64
}

/// Appends the size of a number with so many digits behind the point, three at most.
pub(crate) fn push_rounded(text: &mut DoubleText, number: f64, digits: u8)
    requires finite { IsTrue (float_is_finite number) }
    requires large { 10 ^ 7 * den number < num number }
    requires small { num number ≤ 10 ^ 16 * den number }
    requires room { length text.old.items ≤ 1 }
    ensures value { text.new.items ≡ text.old.items ++ rounded_text number digits }
    ensures short { length text.new.items ≤ 23 }
{
    let places = digits.min(3);
    let rounded = nearest_with_places(number, places);
    push_decimal(text, rounded / 10u64.pow(u32::from(places)));
    push_fraction(text, rounded, places);
}
