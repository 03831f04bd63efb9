//! Values in JSON.
use std::alloc::{AllocError, Global};

/// A value in JSON, as far as it is read.
#[derive(Drop)]
pub struct Json {
    /// The value as it is written.
    pub text: Vec<u8>,
    /// The brackets that close those that are open, outermost first.
    closers: Vec<u8>,
    /// The quote of the text that is open.
    pub quote: Option<u8>,
    is_escaped: bool,
    /// Whether a bracket closes another one than the last that is open, or is round.
    pub(crate) is_crossed: bool,
}

impl Json {
    /// Begins with no byte.
    pub fn new(alloc: Global) -> Self {
        Json {
            text: Vec::new(alloc),
            closers: Vec::new(alloc),
            quote: None,
            is_escaped: false,
            is_crossed: false,
        }
    }

    /// Returns the bracket that is missing.
    pub fn closer(&self) -> u8 {
        self.closers.last().copied().unwrap_or(b'}')
    }

    /// Adds a byte outside quotes. Returns whether the value ends with it.
    fn add_bare(&mut self, byte: u8) -> Result<bool, AllocError> {
        match byte {
            b'{' => self.closers.push(b'}')?,
            b'[' => self.closers.push(b']')?,
            b'"' | b'\'' => self.quote = Some(byte),
            b'}' | b']' if self.closer() == byte => {
                self.closers.pop();
                return Ok(self.closers.is_empty());
            }
            b'}' | b']' | b')' => {
                self.is_crossed = true;
                return Ok(true);
            }
            _ => {}
        }
        Ok(false)
    }

    /// Adds a byte. Returns whether the value ends with it.
    ///
    /// # Errors
    ///
    /// [`AllocError`] if allocation fails.
    pub fn add(&mut self, byte: u8) -> Result<bool, AllocError> {
        self.text.push(byte)?;
        let Some(quote) = self.quote else {
            return self.add_bare(byte);
        };
        if self.is_escaped {
            self.is_escaped = false;
        } else if byte == b'\\' {
            self.is_escaped = true;
        } else if byte == quote {
            self.quote = None;
        }
        Ok(false)
    }
}
