//! Pieces of the text of a double.

ghost use Rattle.std.specs.Prelude.{◌≡◌, ◌+◌, ◌≤◌, ◌++◌, length};
ghost use Rattle.std.specs.Fmt.{decimal};
ghost use Rattle.ioc_double.specs.Pieces.{last_digits, fraction_text, padded};

use arrayvec::ArrayVec;
use itoa::Buffer;

/// The maximum length of the text of a double in bytes.
pub const MAX_DOUBLE_TEXT_BYTES: usize = 23;

/// The text of a double.
pub type DoubleText = ArrayVec<u8, MAX_DOUBLE_TEXT_BYTES>;

/// Appends the bytes.
pub(crate) fn push_bytes(text: &mut DoubleText, bytes: &[u8])
    requires { length text.old.items + length bytes.now ≤ 23 }
    ensures { text.new.items ≡ text.old.items ++ bytes.now }
{
    let _ = text.try_extend_from_slice(bytes);
}

/// Appends the last digits of the number, `count` of them.
pub(crate) fn push_digits(text: &mut DoubleText, number: u64, count: u8)
    requires { length text.old.items + count ≤ 23 }
    ensures { text.new.items ≡ text.old.items ++ last_digits count number }
{
    if count != 0 {
        push_digits(text, number / 10, count - 1);
        text.push(b'0' + (number % 10) as u8);
    }
}

/// Appends the number.
pub(crate) fn push_decimal(text: &mut DoubleText, number: u64)
    requires { length text.old.items + length (decimal number) ≤ 23 }
    ensures { text.new.items ≡ text.old.items ++ decimal number }
{
    push_bytes(text, Buffer::new().format(number).as_bytes());
}

/// Appends a point and the last digits of the number, if these are any.
pub(crate) fn push_fraction(text: &mut DoubleText, number: u64, count: u8)
    requires { length text.old.items + count + 1 ≤ 23 }
    ensures value { text.new.items ≡ text.old.items ++ fraction_text count number }
    ensures short { length text.new.items ≤ length text.old.items + count + 1 }
{
    if count != 0 {
        text.push(b'.');
        push_digits(text, number, count);
    }
}

/// Returns the text with spaces in front, up to so many bytes.
pub(crate) fn pad_front(text: &DoubleText, width: usize) -> DoubleText
    requires { width ≤ 23 }
    ensures value { result.items ≡ padded width text.now.items }
    ensures short { length result.items ≤ 23 }
{
    let mut wide = DoubleText::new();
    for _ in text.len()..width {
        wide.push(b' ');
    }
    push_bytes(&mut wide, text.as_slice());
    wide
}
