//! Numbers rounded to their first digits.

ghost use Rattle.std.specs.Prelude.{◌≡◌, ◌+◌, ◌^◌, ◌<◌, ◌≤◌, ℕ};
ghost use Rattle.std.specs.Float.Ieee.Nearest.{closest};
ghost use Rattle.ioc_double.specs.Leading.{IsLeading};

use crate::groups::Leading;

/// Returns the whole number that is nearest to a number over 10^(`dropped` + `places`). Of two that
/// are equally near it is the even one.
pub(crate) fn nearest(number: Leading, places: u32) -> u128
    requires positive { 0 < places }
    requires small { places ≤ 38 }
    ensures { (n : ℕ) → IsLeading number n
        → result ≡ closest n (10 ^ (number.dropped + places)) }
{
    let tens = 10u128.pow(places);
    let whole = number.head / tens;
    let rest = number.head % tens;
    let half = tens / 2;
    if rest < half {
        whole
    } else if rest > half || number.more {
        whole + 1
    } else {
        whole + whole % 2
    }
}
