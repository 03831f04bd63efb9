//! The token at the front of some bytes.
use crate::closing::closer_of;
use crate::token::Kind;
use ioc_dblex::{skip_gap, split_at_byte, split_quoted, split_word};

/// Returns whether the byte is a sign.
fn is_sign(byte: u8) -> bool {
    matches!(byte, b'(' | b')' | b'{' | b'}' | b',')
}

/// Returns the bytes behind the word at the front. It may have uses of macros that have no value, and `*`.
fn behind_word(bytes: &[u8]) -> &[u8] {
    let mut rest = bytes;
    for _ in 0..bytes.len() {
        rest = match split_word(rest).1 {
            [b'*', after @ ..] => after,
            [b'$', bracket @ (b'(' | b'{'), inner @ ..] => {
                split_at_byte(closer_of(*bracket), inner)
                    .1
                    .get(1..)
                    .unwrap_or(&[])
            }
            behind => return behind,
        };
    }
    rest
}

/// Returns whether what is behind a bracket `)` goes on as behind the end of an entry or of a head.
fn goes_on(bytes: &[u8]) -> bool {
    let behind = bytes.trim_ascii_start();
    let entries: [&[u8]; 3] = [b"field(", b"info(", b"alias("];
    matches!(behind, [] | [b'{' | b'}', ..])
        || entries.iter().any(|entry| behind.starts_with(*entry))
}

/// Returns how many bytes at the front are of a text between quotes that isn't closed: those before the
/// bracket that closes its entry or its head, or all.
fn unclosed_length(bytes: &[u8]) -> usize {
    for (at, byte) in bytes.iter().enumerate() {
        let behind = bytes.get(at.saturating_add(1)..).unwrap_or(&[]);
        let opens_body = *byte == b'{' && behind.trim_ascii_start().is_empty();
        if opens_body || (*byte == b')' && goes_on(behind)) {
            return at;
        }
    }
    bytes.len()
}

/// Returns how many bytes at the front belong to no token: the first one, and those up to what may begin one.
fn fault_length(bytes: &[u8]) -> usize {
    for (at, byte) in bytes.iter().enumerate() {
        let ends = byte.is_ascii_whitespace() || is_sign(*byte) || b"\"#".contains(byte);
        if at > 0 && ends {
            return at;
        }
    }
    bytes.len()
}

/// Returns whether some bytes are a word with `)` behind it, or with nothing.
pub fn is_whole_word(bytes: &[u8]) -> bool {
    matches!(skip_gap(behind_word(bytes)), [] | [b')', ..])
}

/// How the bytes of a token lie.
#[derive(Clone, Copy, Debug, PartialEq, Eq)]
pub struct Extent {
    pub kind: Kind,
    /// The bytes before its text.
    pub before: usize,
    /// The bytes of its text.
    pub length: usize,
    /// The bytes of it all.
    pub whole: usize,
}

/// Returns the extent of the token at the front of some bytes, which begin with no blank.
pub fn extent_of(bytes: &[u8]) -> Extent {
    let (kind, before, length) = match bytes {
        [b'"', text @ ..] => match split_quoted(text) {
            (_, []) => (Kind::Fault, 0, unclosed_length(bytes)),
            (text, _) => (Kind::Quoted, 1, text.len()),
        },
        [sign, ..] if is_sign(*sign) => (Kind::Sign(*sign), 0, 1),
        _ => match bytes.len().saturating_sub(behind_word(bytes).len()) {
            0 => (Kind::Fault, 0, fault_length(bytes)),
            length => (Kind::Word, 0, length),
        },
    };
    let whole = length.saturating_add(before).saturating_add(before);
    Extent {
        kind,
        before,
        length,
        whole,
    }
}

/// Returns the length of the item at the front: words and quoted texts with no blank between them.
fn item_length(bytes: &[u8]) -> Option<usize> {
    let mut is_quoted = false;
    let mut is_escaped = false;
    for (at, byte) in bytes.iter().enumerate() {
        let ends = matches!(*byte, b' ' | b'\t' | b'{' | b'}' | b',');
        if is_escaped {
            is_escaped = false;
        } else if ends && !is_quoted {
            return Some(at);
        } else if *byte == b'\\' {
            is_escaped = true;
        } else if *byte == b'"' {
            is_quoted = !is_quoted;
        }
    }
    if is_quoted { None } else { Some(bytes.len()) }
}

/// Returns the extent of the token of a substitution file at the front of some bytes, which begin
/// with no blank. Quotes are part of its text.
pub fn item_extent_of(bytes: &[u8]) -> Extent {
    let (kind, length) = match bytes {
        [sign @ (b'{' | b'}' | b','), ..] => (Kind::Sign(*sign), 1),
        _ => match item_length(bytes) {
            Some(length) => (Kind::Word, length),
            None => (Kind::Fault, bytes.len()),
        },
    };
    Extent {
        kind,
        before: 0,
        length,
        whole: length,
    }
}
