//! Numbers in decimal.
ghost use Rattle.std.specs.Prelude.{◌≡◌, ◌+◌, ◌≤◌, ◌++◌, ◌∷◌, decimal, length, drop, OnOk};
ghost use Rattle.std.specs.Fmt.{signed_decimal};
ghost use Rattle.ioc_journal_file.specs.Reading.{Gives};
ghost use Rattle.ioc_journal_file.specs.Parts.{number_at, integer_at};

use crate::words::split;
use ioc_names::RecordNo;
use ioc_notify::NotifyId;
use ioc_values::number::{decimal, signed};
use itoa::{Buffer, write_digits};
use std::alloc::AllocError;

/// The digits of the largest number.
pub(crate) const MOST_DIGITS: usize = 20;

/// Appends a number.
pub(crate) fn add_number(out: &mut Vec<u8>, number: u64) -> Result<(), AllocError>
    ensures { OnOk result (out.new.items ≡ out.old.items ++ decimal number) }
{
    if number < 10 {
        out.push(b'0' + number as u8)?;
        return Ok(());
    }
    let mut text = [0; MOST_DIGITS];
    let start = write_digits(number, &mut text, MOST_DIGITS);
    out.extend_from_slice(&text[start..])
}

/// Writes a number and a tab so that they end at `end`, and returns where they start.
pub(crate) fn write_before(number: u64, text: &mut [u8], end: usize) -> usize
    requires room { 21 ≤ end }
    requires within { end ≤ length text.old }
    ensures start { (result ≤ end) × (end ≤ result + 21) }
    ensures written { drop result text.new ≡ decimal number ++ 9 ∷ drop end text.old }
    ensures length { length text.new ≡ length text.old }
{
    text[end - 1] = b'\t';
    write_digits(number, text, end - 1)
}

/// Appends the number of a record.
pub(crate) fn add_record(out: &mut Vec<u8>, number: RecordNo) -> Result<(), AllocError>
    ensures { OnOk result (out.new.items ≡ out.old.items ++ decimal number) }
{
    add_number(out, number.index() as u64)
}

/// Appends a number with its sign.
pub(crate) fn add_integer(out: &mut Vec<u8>, number: i64) -> Result<(), AllocError>
    ensures { OnOk result (out.new.items ≡ out.old.items ++ signed_decimal number) }
{
    out.extend_from_slice(Buffer::new().format(number).as_bytes())
}

/// Reads a number.
#[tactic(auto, unfolding(crate::specs::Parts::number_at))]
pub(crate) fn number_at(bytes: &[u8]) -> Option<(u64, &[u8])>
    ensures { Gives (λ x. (x.0, x.1.now)) result (number_at bytes.now) }
{
    let (word, rest) = split(bytes);
    let number = decimal(word)?;
    Some((number, rest))
}

/// Reads the number of a record.
pub(crate) fn record_at(bytes: &[u8]) -> Option<(RecordNo, &[u8])>
    ensures { Gives (λ x. (x.0, x.1.now)) result (number_at bytes.now) }
{
    let (number, rest) = number_at(bytes)?;
    Some((RecordNo::new(number as usize), rest))
}

/// Reads the number of a put with notification.
pub(crate) fn notification_at(bytes: &[u8]) -> Option<(NotifyId, &[u8])>
    ensures { Gives (λ x. (x.0, x.1.now)) result (number_at bytes.now) }
{
    let (number, rest) = number_at(bytes)?;
    Some((NotifyId::new(number), rest))
}

/// Reads a number with its sign.
#[tactic(auto, unfolding(crate::specs::Parts::integer_at))]
pub(crate) fn integer_at(bytes: &[u8]) -> Option<(i64, &[u8])>
    ensures { Gives (λ x. (x.0, x.1.now)) result (integer_at bytes.now) }
{
    let (word, rest) = split(bytes);
    let number = signed(word)?;
    Some((number, rest))
}
