//! Bytes of a script in a message.
use std::fmt;

/// Bytes as a message shows them. Those that a terminal doesn't show stand as escapes, such as
/// `\r`.
#[derive(Clone, Copy)]
pub struct Shown<'a>(pub &'a [u8]);

/// Bytes between quotes.
#[derive(Clone, Copy)]
pub struct Quoted<'a>(pub &'a [u8]);

impl fmt::Display for Shown<'_> {
    fn fmt<W: fmt::Write>(&self, f: &mut fmt::Formatter<W>) -> fmt::Result {
        if self.0.iter().any(|byte| byte.is_ascii_control()) {
            return write!(f, "{}", self.0.escape_ascii());
        }
        match str::from_utf8(self.0) {
            Ok(text) => f.write_str(text),
            Err(_) => write!(f, "{}", self.0.escape_ascii()),
        }
    }
}

impl fmt::Display for Quoted<'_> {
    fn fmt<W: fmt::Write>(&self, f: &mut fmt::Formatter<W>) -> fmt::Result {
        write!(f, "'{}'", Shown(self.0))
    }
}
