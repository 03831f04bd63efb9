//! Byte strings as text and as numbers.
ghost use Rattle.std.specs.Prelude.{◌≡◌};
ghost use Rattle.ioc_values.specs.Number.{signed as number_spelt, within_i64};

use crate::number::signed;
use crate::short::Short;
use std::{fmt, str};

impl<const CAP: usize> Short<CAP> {
    /// Returns the number that the whole string spells in decimal, or in hexadecimal behind `0x`,
    /// perhaps with a sign before it. Returns `None` if it spells none, or one that doesn't fit 64
    /// bits.
    pub fn number(&self) -> Option<i64>
        ensures { result ≡ within_i64 (number_spelt self.now) }
    {
        signed(self.as_slice())
    }
}

// Writes these bytes one by one. What isn't ASCII is replaced.
fn write_bytes<W: fmt::Write>(bytes: &[u8], f: &mut fmt::Formatter<W>) -> fmt::Result {
    for byte in bytes {
        if byte.is_ascii() {
            f.write_char(char::from(*byte))?;
        } else {
            f.write_char(char::REPLACEMENT_CHARACTER)?;
        }
    }
    Ok(())
}

/// Writes the string as text. If it isn't UTF-8, each byte that isn't ASCII is written as U+FFFD.
impl<const CAP: usize> fmt::Display for Short<CAP> {
    fn fmt<W: fmt::Write>(&self, f: &mut fmt::Formatter<W>) -> fmt::Result {
        match str::from_utf8(self.as_slice()) {
            Ok(text) => f.write_str(text),
            Err(_) => write_bytes(self.as_slice(), f),
        }
    }
}
