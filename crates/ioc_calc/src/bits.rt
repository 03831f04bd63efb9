//! The 32 bits of a double.

ghost use Rattle.std.specs.Prelude.{◌≡◌};
ghost use Rattle.ioc_calc.specs.Operations.{bits_of, low_bits, long_of};

use std::num::saturating_f64_to_i64;

/// Returns the low 32 bits of a whole number, or 0 for the largest, which stands for any double of
/// 2^63 or more.
#[tactic(auto, unfolding(crate::specs::Operations::low_bits))]
fn low_bits(n: i64) -> u32
    ensures { result ≡ low_bits n }
{
    if n == 9223372036854775807i64 {
        0
    } else {
        (n.cast_unsigned() % 4294967296u64) as u32
    }
}

/// Returns the 32 bits of a double: cut toward 0 and modulo 2^32. NaN and a size of 2^63 or more
/// give 0.
#[tactic(auto, unfolding(crate::specs::Operations::bits_of))]
pub fn bits_of(x: f64) -> u32
    ensures { result ≡ bits_of x }
{
    low_bits(saturating_f64_to_i64(x))
}

/// Returns the signed number that has these bits.
#[tactic(auto, unfolding(crate::specs::Operations::long_of))]
pub fn long_of(bits: u32) -> f64
    ensures { result ≡ long_of bits }
{
    f64::from(bits.cast_signed())
}
