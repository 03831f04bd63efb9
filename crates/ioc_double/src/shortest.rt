//! Texts of doubles with all their digits.

ghost use Rattle.std.specs.Prelude.{◌≡◌, ◌≤◌, length};
ghost use Rattle.ioc_double.specs.Spelled.{double_of_text};

use crate::double::Double;
use arrayvec::ArrayVec;
use ryu::Buffer;

/// The maximum length of such a text in bytes.
pub const MAX_EXACT_TEXT_BYTES: usize = 25;

/// The text of a double with all its digits.
pub type ExactText = ArrayVec<u8, MAX_EXACT_TEXT_BYTES>;

/// Returns a text of the bytes.
fn filled(bytes: &[u8]) -> ExactText
    requires { length bytes.now ≤ 25 }
    ensures { result.items ≡ bytes.now }
{
    let mut text = ExactText::new();
    let _ = text.try_extend_from_slice(bytes);
    text
}

/// Returns a text from which the same double is read again: a decimal with as many digits as that
/// takes, `nan`, `inf` or `-inf`.
pub fn exact_text(value: Double) -> ExactText
    ensures { double_of_text result.items ≡ Some value }
{
    let number = value.number();
    if number.is_finite() {
        filled(Buffer::new().format_finite(number).as_bytes())
    } else if number.is_nan() {
        filled(b"nan")
    } else if number < f64::from(0i32) {
        filled(b"-inf")
    } else {
        filled(b"inf")
    }
}
