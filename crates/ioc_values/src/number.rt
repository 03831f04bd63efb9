//! Numbers in texts: an optional sign followed by decimal digits, or by `0x` and hexadecimal
//! digits.

ghost use Rattle.std.specs.Prelude.{◌≡◌, ◌^◌, ◌≤◌, ℤ, pos, neg_ℤ, Some, is_some, option_map, FitsSigned};
ghost use Rattle.std.specs.Int.{w64};
ghost use Rattle.std.specs.Fmt.{signed_decimal};
ghost use Rattle.ioc_values.specs.Number.{numeral, magnitude, below, signed, within_i64, number_of, all_digits};

use crate::trim::trim;

/// Returns the number that the digits spell, if it is below 2^64.
#[inline(always)]
#[tactic(auto, using(crate::proofs::Numerals::numeral_past, crate::proofs::Numerals::numeral_is))]
fn numeral(digits: &[u8], radix: u32) -> Option<u64>
    requires low { 2 ≤ radix }
    requires high { radix ≤ 36 }
    ensures { result ≡ below (2 ^ 64) (numeral radix digits.now) }
{
    if digits.is_empty() {
        return None;
    }
    let mut n = 0u64;
    let mut rest = digits;
    while let [first, after @ ..] = rest {
        let digit = char::from(*first).to_digit(radix)?;
        n = n
            .checked_mul(u64::from(radix))?
            .checked_add(u64::from(digit))?;
        rest = after;
    }
    Some(n)
}

/// Returns the number that a text of decimal digits alone spells. Returns `None` if it spells none,
/// or one of 2^64 or more.
pub fn decimal(digits: &[u8]) -> Option<u64>
    ensures { result ≡ below (2 ^ 64) (numeral 10 digits.now) }
{
    numeral(digits, 10)
}

/// Returns the number that decimal digits, or `0x` and hexadecimal digits, spell, if it is below
/// 2^64.
#[tactic(auto, unfolding(crate::specs::Number::magnitude))]
fn magnitude(digits: &[u8]) -> Option<u64>
    ensures { result ≡ below (2 ^ 64) (magnitude digits.now) }
{
    match digits {
        [b'0', b'x', rest @ ..] => numeral(rest, 16),
        _ => numeral(digits, 10),
    }
}

/// Returns the number that these digits spell after a `-`.
fn negative(digits: &[u8]) -> Option<i64>
    ensures { result ≡ within_i64 (option_map (λ n. neg_ℤ (pos n)) (magnitude digits.now)) }
{
    0i64.checked_sub_unsigned(magnitude(digits)?)
}

/// Returns the number that the digits spell.
fn positive(digits: &[u8]) -> Option<i64>
    ensures { result ≡ within_i64 (option_map pos (magnitude digits.now)) }
{
    0i64.checked_add_unsigned(magnitude(digits)?)
}

/// Returns the number that the whole text spells; spaces at its ends aren't skipped. Returns `None`
/// if it spells none, or if the number doesn't fit 64 bits.
#[tactic(auto, unfolding(crate::specs::Number::signed))]
pub fn signed(text: &[u8]) -> Option<i64>
    ensures { result ≡ within_i64 (signed text.now) }
{
    match text {
        [] => None,
        [b'-', rest @ ..] => negative(rest),
        [b'+', rest @ ..] => positive(rest),
        [_, ..] => positive(text),
    }
}

/// Returns whether each byte is a digit.
fn all_digits(digits: &[u8], radix: u32) -> bool
    requires low { 2 ≤ radix }
    requires high { radix ≤ 36 }
    ensures { result ≡ all_digits radix digits.now }
{
    let mut rest = digits;
    while let [first, after @ ..] = rest {
        if char::from(*first).to_digit(radix).is_none() {
            return false;
        }
        rest = after;
    }
    true
}

/// Returns whether the text consists of digits, at least one.
#[tactic(auto, using(crate::proofs::Numerals::some_numeral))]
fn is_numeral(digits: &[u8], radix: u32) -> bool
    requires low { 2 ≤ radix }
    requires high { radix ≤ 36 }
    ensures { result ≡ is_some (numeral radix digits.now) }
{
    match digits {
        [] => false,
        [_, ..] => all_digits(digits, radix),
    }
}

/// Returns whether the whole text consists of decimal digits, or of `0x` and hexadecimal digits.
#[tactic(auto, unfolding(crate::specs::Number::magnitude))]
fn is_magnitude(digits: &[u8]) -> bool
    ensures { result ≡ is_some (magnitude digits.now) }
{
    match digits {
        [b'0', b'x', rest @ ..] => is_numeral(rest, 16),
        _ => is_numeral(digits, 10),
    }
}

/// Returns whether the whole text spells a number of any size.
#[tactic(auto, unfolding(crate::specs::Number::signed))]
pub fn is_number(text: &[u8]) -> bool
    ensures { result ≡ is_some (signed text.now) }
{
    match text {
        [] => false,
        [b'-', rest @ ..] => is_magnitude(rest),
        [b'+', rest @ ..] => is_magnitude(rest),
        [_, ..] => is_magnitude(text),
    }
}

// Returns the number, if it fits 64 bits with a sign.
fn unsigned(number: u64) -> Option<i64>
    ensures { result ≡ within_i64 (Some (pos number)) }
{
    0i64.checked_add_unsigned(number)
}

/// Returns the number that the whole text spells, without the spaces at both ends. Returns `None`
/// if it spells none, or if the number doesn't fit 64 bits. Decimal digits alone, the most common
/// case, are tried first.
pub fn number(text: &[u8]) -> Option<i64>
    ensures { result ≡ within_i64 (number_of text.now) }
{
    match decimal(text) {
        Some(number) => unsigned(number),
        None => signed(trim(text, false)),
    }
}

/// A number printed in decimal reads back as the same number.
pub fn printed_is_read()
    ensures { (z : ℤ) → FitsSigned w64 z → number_of (signed_decimal z) ≡ Some z }
{}
