//! Tags of lines, by which a program finds the replies to its lines.
ghost use Rattle.std.specs.Prelude.{◌≡◌};
ghost use Rattle.ioc_commands.specs.Tags.{seen, tagged_of};

use crate::parts::cut_at;
use ioc_values::number::decimal;

/// A line, with the tag that it begins with.
///
/// ```rust
/// // `@17 get tank:level`: its number is 17, and its line is `get tank:level`.
/// let Tagged::Tag(number, line) = Tagged::of(b"@17 get tank:level") else { unreachable!() };
/// ```
#[derive(Clone, Copy)]
pub enum Tagged<'a> {
    /// A line without a tag.
    Plain(&'a [u8]),
    /// The digits of a number below 2^32 as they were written, and the line behind them.
    Tag(&'a [u8], &'a [u8]),
    /// The line begins with `@`, but not with a number below 2^32 and a space behind it.
    Malformed,
}

impl<'a> Tagged<'a> {
    /// Returns the tag of a line, which comes without its line feed, and the line behind it.
    pub fn of(line: &'a [u8]) -> Self
        ensures { seen result ≡ tagged_of line.now }
    {
        let [b'@', words @ ..] = line else {
            return Tagged::Plain(line);
        };
        let (number, rest) = cut_at(words, b' ');
        match (decimal(number), rest) {
            (Some(value), Some(rest)) if value < 4_294_967_296 => Tagged::Tag(number, rest),
            _ => Tagged::Malformed,
        }
    }
}
