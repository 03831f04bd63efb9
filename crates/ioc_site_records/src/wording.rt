//! The words of findings.
use std::{fmt, str};

/// A text of a file as it is shown: bytes that can't be printed are escaped.
#[derive(Clone, Copy)]
pub struct Shown<'a>(pub &'a [u8]);

// Writes the text with control characters escaped.
fn write_text<W: fmt::Write>(text: &str, f: &mut fmt::Formatter<W>) -> fmt::Result {
    for c in text.chars() {
        if c.is_control() {
            write!(f, "\\x{:02x}", c as u32)?;
        } else {
            f.write_char(c)?;
        }
    }
    Ok(())
}

// Writes the bytes, and those beyond ASCII and control bytes escaped.
fn write_bytes<W: fmt::Write>(bytes: &[u8], f: &mut fmt::Formatter<W>) -> fmt::Result {
    for b in bytes {
        if *b == b' ' || b.is_ascii_graphic() {
            f.write_char(char::from(*b))?;
        } else {
            write!(f, "\\x{:02x}", *b)?;
        }
    }
    Ok(())
}

impl fmt::Display for Shown<'_> {
    fn fmt<W: fmt::Write>(&self, f: &mut fmt::Formatter<W>) -> fmt::Result {
        match str::from_utf8(self.0) {
            Ok(text) => write_text(text, f),
            Err(_) => write_bytes(self.0, f),
        }
    }
}

/// The end of a finding that names what was probably meant, if there is such a word.
#[derive(Clone, Copy)]
pub struct Meant<'a>(pub Option<&'a str>);

impl fmt::Display for Meant<'_> {
    fn fmt<W: fmt::Write>(&self, f: &mut fmt::Formatter<W>) -> fmt::Result {
        match self.0 {
            Some(word) => write!(f, "; did you mean {word}?"),
            None => Ok(()),
        }
    }
}

/// The end of a finding that names what does here what is left out, if anything does.
#[derive(Clone, Copy)]
pub struct Instead(pub &'static str);

impl fmt::Display for Instead {
    fn fmt<W: fmt::Write>(&self, f: &mut fmt::Formatter<W>) -> fmt::Result {
        if self.0.is_empty() {
            Ok(())
        } else {
            write!(f, "; {}", self.0)
        }
    }
}

/// Choices with commas between them.
#[derive(Clone, Copy)]
pub struct Listed<'a>(pub &'a [&'static str]);

impl fmt::Display for Listed<'_> {
    fn fmt<W: fmt::Write>(&self, f: &mut fmt::Formatter<W>) -> fmt::Result {
        let mut is_first = true;
        for choice in self.0 {
            if !is_first {
                f.write_str(", ")?;
            }
            f.write_str(choice)?;
            is_first = false;
        }
        Ok(())
    }
}
