//! Whole numbers in groups of nine decimal digits, the lowest group first.

ghost use Rattle.std.specs.Prelude.{◌≡◌, ◌+◌, ◌*◌, ◌^◌, ◌<◌, ◌≤◌, length};
ghost use Rattle.ioc_double.specs.Groups.{value, AreGroups};
ghost use Rattle.ioc_double.specs.Leading.{IsLeading};

/// One more than the greatest group.
const BASE: u64 = 1_000_000_000;

/// Multiplies the number by the factor. Returns what doesn't fit the groups.
pub(crate) fn multiply_groups(groups: &mut [u64], factor: u64) -> u64
    requires groups { AreGroups groups.old }
    requires factor { factor < 2 ^ 32 }
    ensures groups { AreGroups groups.new }
    ensures value { value groups.new + 10 ^ (9 * length groups.old) * result ≡ value groups.old * factor }
{
    let mut carry = 0;
    for group in groups.iter_mut() {
        let product = *group * factor + carry;
        *group = product % BASE;
        carry = product / BASE;
    }
    carry
}

/// The leading digits of a number, which is `head` times 10^`dropped`, and a rest below 10^`dropped`.
#[derive(Clone, Copy)]
pub(crate) struct Leading {
    /// The first 28 to 36 digits, or all.
    pub(crate) head: u128,
    /// How many digits stand behind them.
    pub(crate) dropped: u32,
    /// Whether some of those isn't 0.
    pub(crate) more: bool,
}

/// The least number of 28 digits.
const ENOUGH: u128 = 1_000_000_000_000_000_000_000_000_000;

/// Returns the leading digits of the number.
pub(crate) fn leading_digits(groups: &[u64]) -> Leading
    requires groups { AreGroups groups.now }
    requires count { length groups.now ≤ 90 }
    ensures leading { IsLeading result (value groups.now) }
    ensures dropped { result.dropped ≤ 810 }
{
    let mut head = 0;
    let mut dropped = 0;
    let mut more = false;
    let mut rest = groups;
    while let [before @ .., group] = rest {
        if head < ENOUGH {
            head = head * 1_000_000_000 + u128::from(*group);
        } else {
            dropped += 9;
            more = more || *group != 0;
        }
        rest = before;
    }
    Leading {
        head,
        dropped,
        more,
    }
}

/// How many powers are multiplied at once.
const CHUNK: u32 = 13;

/// Multiplies the number by the factor. The product must fit the groups.
fn multiply_exactly(groups: &mut [u64], factor: u64)
    requires groups { AreGroups groups.old }
    requires factor { factor < 2 ^ 32 }
    requires fits { value groups.old * factor < 10 ^ (9 * length groups.old) }
    ensures groups { AreGroups groups.new }
    ensures value { value groups.new ≡ value groups.old * factor }
{
    multiply_groups(groups, factor);
}

/// Multiplies the number by a power of the base. The product must fit the groups.
pub(crate) fn multiply_by_power(groups: &mut [u64], base: u64, exponent: u32)
    requires groups { AreGroups groups.old }
    requires positive { 0 < base }
    requires small { base ≤ 5 }
    requires fits { value groups.old * base ^ exponent < 10 ^ (9 * length groups.old) }
    ensures groups { AreGroups groups.new }
    ensures value { value groups.new ≡ value groups.old * base ^ exponent }
{
    for _ in 0..exponent / CHUNK {
        multiply_exactly(groups, base.pow(CHUNK));
    }
    multiply_exactly(groups, base.pow(exponent % CHUNK));
}
