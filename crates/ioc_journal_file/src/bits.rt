//! The bits of doubles in hexadecimal digits.
ghost use Rattle.std.specs.Prelude.{◌≡◌, ◌++◌, OnOk};
ghost use Rattle.ioc_journal_file.specs.Bits.{hexadecimal, number_after, bits_text, bits_double};

use crate::texts::{hex_digit, hex_value};
use ioc_values::Double;
use std::alloc::AllocError;

/// How many digits the bits of a double have.
const DOUBLE_DIGITS: u8 = 16;

/// 2^60, above each number of fifteen digits.
const FIFTEEN_DIGITS: u64 = 1_152_921_504_606_846_976;

/// Appends the last digits of the number, `count` of them.
fn add_hexadecimal(out: &mut Vec<u8>, count: u8, number: u64) -> Result<(), AllocError>
    ensures { OnOk result (out.new.items ≡ out.old.items ++ hexadecimal count number) }
{
    if count == 0 {
        return Ok(());
    }
    add_hexadecimal(out, count - 1, number / 16)?;
    out.push(hex_digit((number % 16) as u8))?;
    Ok(())
}

/// Appends the bits of a double.
#[tactic(auto, unfolding(crate::specs::Bits::bits_text))]
pub(crate) fn add_double(out: &mut Vec<u8>, number: Double) -> Result<(), AllocError>
    ensures { OnOk result (out.new.items ≡ out.old.items ++ bits_text number) }
{
    add_hexadecimal(out, DOUBLE_DIGITS, number.to_bits())
}

/// Returns the number that the last sixteen of the digits spell.
fn number_of_digits(digits: &[u8]) -> u64
    ensures { result ≡ number_after 0 digits.now }
{
    let mut number = 0u64;
    let mut rest = digits;
    while let [first, after @ ..] = rest {
        number = number % FIFTEEN_DIGITS * 16 + u64::from(hex_value(*first));
        rest = after;
    }
    number
}

/// Returns the double that the digits of its bits spell, or `None` if these aren't sixteen.
#[tactic(auto, unfolding(crate::specs::Bits::bits_double))]
pub(crate) fn double_of_bits(word: &[u8]) -> Option<Double>
    ensures { result ≡ bits_double word.now }
{
    if word.len() == usize::from(DOUBLE_DIGITS) {
        Some(Double::from_bits(number_of_digits(word)))
    } else {
        None
    }
}
