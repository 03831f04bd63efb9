//! Unsigned decimal numbers at the front of a text.

ghost use Rattle.std.specs.Prelude.{◌≡◌, ◌≤◌, [], length};
ghost use Rattle.std.specs.Float.Parse.{float_scan_step, completes_number};
ghost use Rattle.ioc_double.specs.Decimal.{decimal_length};
ghost use Rattle.ioc_double.specs.Reading.{place, place_after};

/// How far a decimal number has been read.
#[derive(Clone, Copy, PartialEq, Eq, Debug)]
enum Reading {
    /// Nothing.
    Start,
    /// Digits of the whole part.
    Whole,
    /// A point without a digit.
    Point,
    /// A digit, and the point.
    Fraction,
    /// The `e` of an exponent.
    Mark,
    /// The sign of an exponent.
    Sign,
    /// Digits of an exponent.
    Exponent,
}

impl Reading {
    /// Returns how far the number is read with one more byte, or `None` if no number begins so.
    fn after(self, byte: u8) -> Option<Self>
        ensures { place_after result ≡ float_scan_step (place self) byte }
    {
        match (byte, self) {
            (b'0'..=b'9', Reading::Start | Reading::Whole) => Some(Reading::Whole),
            (b'0'..=b'9', Reading::Point | Reading::Fraction) => Some(Reading::Fraction),
            (b'0'..=b'9', Reading::Mark | Reading::Sign | Reading::Exponent) => {
                Some(Reading::Exponent)
            }
            (b'.', Reading::Start) => Some(Reading::Point),
            (b'.', Reading::Whole) => Some(Reading::Fraction),
            (b'e' | b'E', Reading::Whole | Reading::Fraction) => Some(Reading::Mark),
            (b'+' | b'-', Reading::Mark) => Some(Reading::Sign),
            _ => None,
        }
    }

    /// Returns whether the bytes read so far are a number.
    fn is_number(self) -> bool
        ensures { result ≡ completes_number (place self) [] }
    {
        match self {
            Reading::Whole | Reading::Fraction | Reading::Exponent => true,
            Reading::Start | Reading::Point | Reading::Mark | Reading::Sign => false,
        }
    }
}

/// Returns how many bytes at the front form the longest unsigned decimal number, or 0 if none do.
/// `1.5e3` has five, `1.5e` three and `.e1` none.
pub fn decimal_length(bytes: &[u8]) -> usize
    ensures value { result ≡ decimal_length bytes.now }
    ensures within { result ≤ length bytes.now }
{
    let mut reading = Reading::Start;
    let mut longest = 0;
    for (index, byte) in bytes.iter().enumerate() {
        let Some(next) = reading.after(*byte) else {
            return longest;
        };
        if next.is_number() {
            longest = index + 1;
        }
        reading = next;
    }
    longest
}
