//! What the operators and functions give.

ghost use Rattle.std.specs.Prelude.{◌≡◌};
ghost use Rattle.ioc_calc.specs.Operations.{truth, is_true, shifted_left, shifted_right, shifted_right_unsigned, smaller, larger};
ghost use Rattle.ioc_calc.specs.Operations.{nearest_integer, sign_of_infinity, of_one, of_first, of_next, of_two, power};
ghost use Rattle.ioc_calc.specs.Operations.{multiplied, multiplied_once, chosen};

use crate::bits::{bits_of, long_of};
use crate::operators::{Exponent, Infix, ListFunction, Prefix};
use crate::wholes::remainder;

const ZERO: f64 = 0.0;

const HALF: f64 = 0.5;

const ONE: f64 = 1.0;

/// Returns 1 for a truth and else 0.
#[tactic(auto, unfolding(crate::specs::Operations::truth))]
fn truth(holds: bool) -> f64
    ensures { result ≡ truth holds }
{
    if holds { ONE } else { ZERO }
}

/// Returns whether the value counts as true: not 0. NaN is true.
#[tactic(auto, unfolding(crate::specs::Operations::is_true))]
fn is_true(x: f64) -> bool
    ensures { result ≡ is_true x }
{
    x != ZERO
}

/// Returns the first one's 32 bits shifted to the left by the second one's low five bits.
#[tactic(auto, unfolding(crate::specs::Operations::shifted_left))]
fn shifted_left(x: f64, y: f64) -> f64
    ensures { result ≡ shifted_left x y }
{
    f64::from(bits_of(x).cast_signed().wrapping_shl(bits_of(y)))
}

/// Returns the first one's 32 bits shifted to the right by the second one's low five bits, with the
/// sign kept.
#[tactic(auto, unfolding(crate::specs::Operations::shifted_right))]
fn shifted_right(x: f64, y: f64) -> f64
    ensures { result ≡ shifted_right x y }
{
    f64::from(bits_of(x).cast_signed().wrapping_shr(bits_of(y)))
}

/// Returns the first one's 32 bits shifted to the right by the second one's low five bits, with
/// zeros put in.
#[tactic(auto, unfolding(crate::specs::Operations::shifted_right_unsigned))]
fn shifted_right_unsigned(x: f64, y: f64) -> f64
    ensures { result ≡ shifted_right_unsigned x y }
{
    f64::from(bits_of(x).wrapping_shr(bits_of(y)))
}

/// Returns the smaller one, NaN where one is, and the first of two that are equal.
#[tactic(auto, unfolding(crate::specs::Operations::smaller))]
fn smaller(x: f64, y: f64) -> f64
    ensures { result ≡ smaller x y }
{
    if y < x || y.is_nan() { y } else { x }
}

/// Returns the larger one, NaN where one is, and the first of two that are equal.
#[tactic(auto, unfolding(crate::specs::Operations::larger))]
fn larger(x: f64, y: f64) -> f64
    ensures { result ≡ larger x y }
{
    if x < y || y.is_nan() { y } else { x }
}

/// Returns the nearest whole number, with a half away from 0, and never -0.
#[tactic(auto, unfolding(crate::specs::Operations::nearest_integer))]
fn nearest_integer(x: f64) -> f64
    ensures { result ≡ nearest_integer x }
{
    let moved = if ZERO <= x { x + HALF } else { x - HALF };
    moved.trunc() + ZERO
}

/// Returns 1 for the positive infinity, -1 for the negative one, and else 0.
#[tactic(auto, unfolding(crate::specs::Operations::sign_of_infinity))]
fn sign_of_infinity(x: f64) -> f64
    ensures { result ≡ sign_of_infinity x }
{
    if x.is_infinite() {
        if x < ZERO { -ONE } else { ONE }
    } else {
        ZERO
    }
}

/// Returns what an operator before its operand, or a function of one operand, gives.
#[inline(always)]
#[tactic(auto, unfolding(crate::specs::Operations::is_true))]
pub fn of_one(operator: Prefix, x: f64) -> f64
    ensures { result ≡ of_one operator x }
{
    match operator {
        Prefix::Minus => -x,
        Prefix::Not => truth(x == ZERO),
        Prefix::Complement => long_of(!bits_of(x)),
        Prefix::Abs => x.abs(),
        Prefix::SquareRoot => x.sqrt(),
        Prefix::Ceiling => x.ceil(),
        Prefix::Floor => x.floor(),
        Prefix::NearestInteger => nearest_integer(x),
        Prefix::IsInfinite => sign_of_infinity(x),
    }
}

/// Returns what a function gives for its first operand.
#[inline(always)]
pub fn of_first(function: ListFunction, x: f64) -> f64
    ensures { result ≡ of_first function x }
{
    match function {
        ListFunction::Minimum | ListFunction::Maximum => x,
        ListFunction::AllFinite => truth(x.is_finite()),
        ListFunction::AnyNan => truth(x.is_nan()),
    }
}

/// Returns what a function gives for one more operand, from what it gave for those before.
#[inline(always)]
pub fn of_next(function: ListFunction, before: f64, x: f64) -> f64
    ensures { result ≡ of_next function before x }
{
    match function {
        ListFunction::Minimum => smaller(before, x),
        ListFunction::Maximum => larger(before, x),
        ListFunction::AllFinite => truth(is_true(before) && x.is_finite()),
        ListFunction::AnyNan => truth(is_true(before) || x.is_nan()),
    }
}

/// Returns what an operator between two operands gives.
#[inline(always)]
pub fn of_two(operator: Infix, x: f64, y: f64) -> f64
    ensures { result ≡ of_two operator x y }
{
    match operator {
        Infix::Multiply => x * y,
        Infix::Divide => x / y,
        Infix::Remainder => remainder(x, y),
        Infix::Add => x + y,
        Infix::Subtract => x - y,
        Infix::Less => truth(x < y),
        Infix::LessOrEqual => truth(x <= y),
        Infix::Greater => truth(y < x),
        Infix::GreaterOrEqual => truth(y <= x),
        Infix::Equal => truth(x == y),
        Infix::NotEqual => truth(x != y),
        Infix::BitAnd => long_of(bits_of(x) & bits_of(y)),
        Infix::And => truth(is_true(x) && is_true(y)),
        Infix::ShiftLeft => shifted_left(x, y),
        Infix::ShiftRight => shifted_right(x, y),
        Infix::ShiftRightUnsigned => shifted_right_unsigned(x, y),
        Infix::BitOr => long_of(bits_of(x) | bits_of(y)),
        Infix::BitXor => long_of(bits_of(x) ^ bits_of(y)),
        Infix::Or => truth(is_true(x) || is_true(y)),
    }
}

/// Returns the number, multiplied by the square where the exponent's lowest bit is one.
#[tactic(auto, unfolding(crate::specs::Operations::multiplied_once))]
fn multiplied_once(number: f64, square: f64, exponent: u8) -> f64
    ensures { result ≡ multiplied_once number square exponent }
{
    if exponent % 2 == 1 {
        number * square
    } else {
        number
    }
}

/// Returns the product of a number and a power, by squares.
fn multiplied(start: f64, base: f64, exponent: u8) -> f64
    ensures { result ≡ multiplied 7 start base exponent }
{
    let mut product = start;
    let mut square = base;
    let mut rest = exponent;
    for _ in 0..7u8 {
        if rest == 0 {
            return product;
        }
        product = multiplied_once(product, square, rest);
        square = square * square;
        rest = rest / 2;
    }
    product
}

/// Returns a power.
#[tactic(auto, unfolding(crate::specs::Operations::power))]
pub fn power(base: f64, exponent: Exponent) -> f64
    ensures { result ≡ power base exponent }
{
    let size = multiplied(ONE, base, exponent.size);
    if exponent.negative { ONE / size } else { size }
}

/// Returns the first value where the condition isn't 0, and else the second. NaN chooses the first.
#[inline(always)]
#[tactic(auto, unfolding(crate::specs::Operations::chosen))]
pub fn chosen(condition: f64, x: f64, y: f64) -> f64
    ensures { result ≡ chosen condition x y }
{
    if is_true(condition) { x } else { y }
}
