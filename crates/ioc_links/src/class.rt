//! Classes of bytes, and texts split at a class.

ghost use Rattle.std.specs.Prelude.{◌≡◌, ◌≤◌, length};
ghost use Rattle.ioc_links.specs.Classes.{in_class, all_of, front_of, back_of};

/// A class of bytes.
#[derive(Clone, Copy, PartialEq, Eq)]
pub enum Class {
    Digit,
    Point,
    /// `e` or `E`, which begins an exponent.
    Mark,
    /// 33 to 126, except `"`, `$`, `'` and `.`.
    NameByte,
    /// A capital letter or a digit.
    FieldByte,
    /// A space or a tab.
    Blank,
}

/// Returns whether the byte is in the class.
#[tactic(auto, unfolding(crate::specs::Classes::in_class))]
pub fn in_class(class: Class, b: u8) -> bool
    ensures { result ≡ in_class class b }
{
    match class {
        Class::Digit => b'0' <= b && b <= b'9',
        Class::Point => b == b'.',
        Class::Mark => b == b'e' || b == b'E',
        Class::NameByte => {
            b'!' <= b && b <= b'~' && !(b == b'"' || b == b'$' || b == b'\'' || b == b'.')
        }
        Class::FieldByte => (b'A' <= b && b <= b'Z') || (b'0' <= b && b <= b'9'),
        Class::Blank => b == b' ' || b == b'\t',
    }
}

/// Returns whether each byte is in the class.
pub fn all_of(class: Class, bytes: &[u8]) -> bool
    ensures { result ≡ all_of class bytes.now }
{
    let mut rest = bytes;
    while let [first, after @ ..] = rest {
        if !in_class(class, *first) {
            return false;
        }
        rest = after;
    }
    true
}

/// Splits the bytes before the first one in the class.
pub fn split_at(class: Class, bytes: &[u8]) -> (&[u8], &[u8])
    ensures front { result.0.now ≡ front_of class bytes.now }
    ensures back { result.1.now ≡ back_of class bytes.now }
    ensures shorter { length result.1.now ≤ length bytes.now }
{
    let mut count = 0;
    let mut rest = bytes;
    while let [first, after @ ..] = rest {
        if in_class(class, *first) {
            break;
        }
        count += 1;
        rest = after;
    }
    (&bytes[..count], rest)
}
