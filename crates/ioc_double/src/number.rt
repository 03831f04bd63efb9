//! Whole numbers as doubles, and doubles as whole numbers.

ghost use Rattle.std.specs.Prelude.{◌≡◌};
ghost use Rattle.ioc_double.specs.Whole.{whole_of, within_i64};

use crate::double::Double;
use std::num::{nearest_i64_to_f64, saturating_f64_to_i64};

impl From<i64> for Double {
    ghost use Rattle.std.specs.Prelude.{◌≡◌};
    ghost use Rattle.std.specs.Float.Ieee.{binary64, of_int};

    ghost from_gives = { λ n x. x ≡ of_int binary64 n };

    /// Returns the double that is nearest to the number; of two that are equally near, the even one.
    fn from(number: i64) -> Self {
        Double::new(nearest_i64_to_f64(number))
    }
}

impl From<i32> for Double {
    ghost use Rattle.std.specs.Prelude.{◌≡◌};
    ghost use Rattle.std.specs.Float.Ieee.{binary64, of_int};

    ghost from_gives = { λ n x. x ≡ of_int binary64 n };

    /// Returns the double that the number is.
    fn from(number: i32) -> Self {
        Double::new(f64::from(number))
    }
}

impl From<u32> for Double {
    ghost use Rattle.std.specs.Prelude.{◌≡◌, pos};
    ghost use Rattle.std.specs.Float.Ieee.{binary64, of_int};

    ghost from_gives = { λ n x. x ≡ of_int binary64 (pos n) };

    /// Returns the double that the number is.
    fn from(number: u32) -> Self {
        Double::new(f64::from(number))
    }
}

/// Returns the number without its fraction, where it fits 64 bits with a sign.
fn cut(number: f64) -> Option<i64>
    ensures { result ≡ within_i64 (whole_of number) }
{
    let lowest = nearest_i64_to_f64(i64::MIN);
    if lowest <= number && number < -lowest {
        Some(saturating_f64_to_i64(number))
    } else {
        None
    }
}

impl Double {
    /// Returns the number without its fraction: 2.9 gives 2, and -0.5 gives 0. Returns `None` for
    /// NaN, an infinity, and a number that doesn't fit 64 bits with a sign, which no field holds.
    pub fn whole(self) -> Option<i64>
        ensures { result ≡ within_i64 (whole_of self) }
    {
        cut(self.number())
    }
}
