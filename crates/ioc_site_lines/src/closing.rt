//! Where parts of a text end.
use std::alloc::{AllocError, Global};

/// Returns the bracket that closes this one.
pub fn closer_of(bracket: u8) -> u8 {
    if bracket == b'(' { b')' } else { b'}' }
}

/// What of a text is passed so far.
#[derive(Drop)]
struct Passed {
    /// The brackets that close the macro uses that are open, outermost first.
    closers: Vec<u8>,
    is_escaped: bool,
    is_behind_dollar: bool,
}

impl Passed {
    /// Passes a byte that isn't escaped, and returns whether it is outside macro uses.
    fn pass_plain(&mut self, byte: u8) -> Result<bool, AllocError> {
        let is_behind_dollar = self.is_behind_dollar;
        self.is_behind_dollar = byte == b'$';
        self.is_escaped = byte == b'\\';
        if is_behind_dollar && (byte == b'(' || byte == b'{') {
            self.closers.push(closer_of(byte))?;
            return Ok(false);
        }
        if self.closers.last().copied() == Some(byte) {
            self.closers.pop();
            return Ok(false);
        }
        Ok(self.closers.is_empty())
    }

    /// Passes a byte, and returns whether it is outside macro uses and not escaped.
    fn pass(&mut self, byte: u8) -> Result<bool, AllocError> {
        if self.is_escaped {
            self.is_escaped = false;
            self.is_behind_dollar = false;
            return Ok(false);
        }
        self.pass_plain(byte)
    }
}

/// Returns the place of the first of these signs that is outside macro uses and not escaped.
///
/// # Errors
///
/// [`AllocError`] if allocation fails.
pub fn find_sign(alloc: Global, signs: &[u8], text: &[u8]) -> Result<Option<usize>, AllocError> {
    let mut passed = Passed {
        closers: Vec::new(alloc),
        is_escaped: false,
        is_behind_dollar: false,
    };
    for (at, byte) in text.iter().enumerate() {
        if passed.pass(*byte)? && signs.contains(byte) {
            return Ok(Some(at));
        }
    }
    Ok(None)
}

/// Returns whether a byte is a quote that opens or closes a text, and the quote that is open behind
/// it.
pub fn quote_behind(quote: Option<u8>, byte: u8) -> (bool, Option<u8>) {
    match quote {
        Some(open) if open == byte => (true, None),
        Some(_) => (false, quote),
        None if byte == b'"' || byte == b'\'' => (true, Some(byte)),
        None => (false, None),
    }
}

/// What begins a comment.
#[derive(Clone, Copy, Debug, PartialEq, Eq)]
pub enum Comment {
    /// `#`: the comment has the rest of the line.
    Own,
    /// `//` of C, which is a mistake: it is meant to have the rest of the line.
    Line,
    /// `/*` of C, which is a mistake: it is meant to end with `*/`.
    Block,
}

/// Returns where the first comment of a line begins, and what begins it. What stands in quotes or in a
/// macro use begins no comment.
///
/// # Errors
///
/// [`AllocError`] if allocation fails.
pub fn first_comment(alloc: Global, line: &[u8]) -> Result<Option<(usize, Comment)>, AllocError> {
    let mut quote = None;
    let mut next = 0;
    for (at, byte) in line.iter().enumerate() {
        if at < next {
            continue;
        }
        match line.get(at..).unwrap_or(&[]) {
            [b'#', ..] if quote.is_none() => return Ok(Some((at, Comment::Own))),
            [b'/', b'/', ..] if quote.is_none() => return Ok(Some((at, Comment::Line))),
            [b'/', b'*', ..] if quote.is_none() => return Ok(Some((at, Comment::Block))),
            [b'\\', _, ..] => next = at.saturating_add(2),
            [b'$', bracket @ (b'(' | b'{'), inner @ ..] => {
                let length = find_sign(alloc, &[closer_of(*bracket)], inner)?;
                let inside = at.saturating_add(2);
                next = inside.saturating_add(length.unwrap_or(inner.len()));
            }
            _ => quote = quote_behind(quote, *byte).1,
        }
    }
    Ok(None)
}

/// Returns the place behind the first `*/` of a line.
pub fn block_end(line: &[u8]) -> Option<usize> {
    for at in 0..line.len() {
        if matches!(line.get(at..), Some([b'*', b'/', ..])) {
            return Some(at.saturating_add(2));
        }
    }
    None
}

/// Puts blanks in place of the bytes from the first place up to the second one.
pub fn clear(line: &mut [u8], from: usize, to: usize) {
    for (at, byte) in line.iter_mut().enumerate() {
        if from <= at && at < to {
            *byte = b' ';
        }
    }
}
