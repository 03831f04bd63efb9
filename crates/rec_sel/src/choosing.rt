//! Which of twelve values is selected.
ghost use Rattle.std.specs.Prelude.{◌≡◌, ◌<◌, ◌≤◌, true, false, IfSome};
ghost use Rattle.std.specs.Float.Ieee.{inf, nan};
ghost use Rattle.rec_sel.specs.Choosing.{has_above, has_below, is_highest, is_lowest, first_highest, first_lowest, is_before};
ghost use Rattle.rec_sel.specs.Choosing.{count_before, numbers_among, is_after, median_number};

use ioc_values::Double;

/// Returns whether one of the values is above this one.
fn has_above(values: &[Double; 12], value: Double) -> bool
    ensures { result ≡ has_above values.now value }
{
    values.iter().any(|other| value.number() < other.number())
}

/// Returns whether one of the values is below this one.
fn has_below(values: &[Double; 12], value: Double) -> bool
    ensures { result ≡ has_below values.now value }
{
    values.iter().any(|other| other.number() < value.number())
}

/// Returns the infinity.
pub fn infinity() -> f64
    ensures { result ≡ inf false }
{
    f64::INFINITY
}

/// Returns the negative infinity.
pub fn negative_infinity() -> f64
    ensures { result ≡ inf true }
{
    f64::NEG_INFINITY
}

/// Returns NaN.
pub fn no_number() -> f64
    ensures { result ≡ nan }
{
    f64::NAN
}

/// Returns whether a value is above the negative infinity, and none is above it.
#[tactic(auto, unfolding(crate::specs::Choosing::is_highest))]
fn is_highest(values: &[Double; 12], value: Double) -> bool
    ensures { result ≡ is_highest values.now value }
{
    negative_infinity() < value.number() && !has_above(values, value)
}

/// Returns whether a value is below the infinity, and none is below it.
#[tactic(auto, unfolding(crate::specs::Choosing::is_lowest))]
fn is_lowest(values: &[Double; 12], value: Double) -> bool
    ensures { result ≡ is_lowest values.now value }
{
    value.number() < infinity() && !has_below(values, value)
}

/// Returns the number of the first of the values that is above the negative infinity and that none is
/// above.
pub fn first_highest(values: &[Double; 12]) -> Option<usize>
    ensures number { result ≡ first_highest values.now }
    ensures below { IfSome result (λ n. n < 12) }
{
    values.iter().position(|value| is_highest(values, *value))
}

/// Returns the number of the first of the values that is below the infinity and that none is below.
pub fn first_lowest(values: &[Double; 12]) -> Option<usize>
    ensures number { result ≡ first_lowest values.now }
    ensures below { IfSome result (λ n. n < 12) }
{
    values.iter().position(|value| is_lowest(values, *value))
}

/// Returns how many of the values are numbers, not NaN.
#[tactic(auto, unfolding(crate::specs::Choosing::numbers_among))]
pub fn numbers_among(values: &[Double; 12]) -> u16
    ensures number { result ≡ numbers_among values.now }
    ensures few { result ≤ 12 }
{
    let mut count = 0;
    for i in 0..12 {
        if !values[i].number().is_nan() {
            count += 1;
        }
    }
    count
}

// Returns whether a value comes before another one in rising order, where equal ones come in the order
// of their numbers.
#[tactic(auto, unfolding(crate::specs::Choosing::is_before))]
fn is_before(value: Double, number: usize, other: Double, other_number: usize) -> bool
    ensures { result ≡ is_before value number other other_number }
{
    value.number() < other.number() || value.number() == other.number() && number < other_number
}

// Returns how many of the values come before the one of this number.
#[tactic(auto, unfolding(crate::specs::Choosing::count_before))]
fn count_before(values: &[Double; 12], number: usize) -> u16
    requires { number < 12 }
    ensures { result ≡ count_before values.now number }
{
    let other = values[number];
    let mut count = 0;
    for i in 0..12 {
        if is_before(values[i], i, other, number) {
            count += 1;
        }
    }
    count
}

// Returns whether the value of this number isn't NaN, and so many come before it.
#[tactic(auto, unfolding(crate::specs::Choosing::is_after))]
fn is_after(values: &[Double; 12], many: u16, number: usize) -> bool
    requires { number < 12 }
    ensures { result ≡ is_after values.now many number }
{
    !values[number].number().is_nan() && count_before(values, number) == many
}

/// Returns the number of the value in the middle of those that are numbers: with half of them before
/// it in rising order. There is none if all are NaN.
#[tactic(auto, unfolding(crate::specs::Choosing::median_number))]
pub fn median_number(values: &[Double; 12]) -> Option<usize>
    ensures number { result ≡ median_number values.now }
    ensures below { IfSome result (λ n. n < 12) }
{
    let half = numbers_among(values) / 2;
    for number in 0..12 {
        if is_after(values, half, number) {
            return Some(number);
        }
    }
    None
}
