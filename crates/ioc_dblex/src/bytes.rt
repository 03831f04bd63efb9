//! Bytes of a database text, and the parts into which they split it.
ghost use Rattle.std.specs.Prelude.{◌≡◌, false, true, None, IfSome};
ghost use Rattle.ioc_dblex.specs.Bytes.{is_word_byte, word_of, behind_word, closes, escapes, quoted_of, behind_quoted, behind_gap};

/// Returns whether the byte is valid in a bareword.
#[inline]
#[tactic(auto, unfolding(crate::specs::Bytes::is_word_byte))]
pub fn is_word_byte(b: u8) -> bool
    ensures { result ≡ is_word_byte b }
{
    // Most bytes are small letters, which one comparison tells from all others.
    if b >= b'a' {
        return b <= b'z';
    }
    match b {
        b'0'..=b'9' | b'A'..=b'Z' => true,
        b'_' | b'-' | b'+' | b':' | b'.' | b'[' | b']' | b'<' | b'>' | b';' => true,
        _ => false,
    }
}

/// Splits the word at the front from the bytes after it.
#[inline]
pub fn split_word(bytes: &[u8]) -> (&[u8], &[u8])
    ensures word { result.0.now ≡ word_of bytes.now }
    ensures behind { result.1.now ≡ behind_word bytes.now }
{
    let mut count = 0;
    let mut rest = bytes;
    while let [first, after @ ..] = rest {
        if !is_word_byte(*first) {
            break;
        }
        count += 1;
        rest = after;
    }
    (&bytes[..count], rest)
}

/// Returns whether the next byte is escaped.
#[tactic(auto, unfolding(crate::specs::Bytes::escapes))]
pub fn escapes(escaped: bool, b: u8) -> bool
    ensures { result ≡ escapes escaped b }
{
    !escaped && b == b'\\'
}

/// Returns whether the byte after this one is escaped, or `None` if this one closes the text. Two
/// comparisons suffice for most bytes.
#[inline(always)]
#[tactic(auto, unfolding(crate::specs::Bytes::closes, crate::specs::Bytes::escapes))]
fn escaped_behind(escaped: bool, b: u8) -> Option<bool>
    ensures open { IfSome result (λ next. (closes escaped b ≡ false) × (next ≡ escapes escaped b)) }
    ensures closed { result ≡ None → closes escaped b ≡ true }
{
    match b {
        b'"' => if escaped { Some(false) } else { None },
        b'\\' => Some(!escaped),
        _ => Some(false),
    }
}

/// Splits the text before the closing quote or the end of the line from the bytes after it, the
/// quote included.
#[inline]
pub fn split_quoted(bytes: &[u8]) -> (&[u8], &[u8])
    ensures text { result.0.now ≡ quoted_of false bytes.now }
    ensures behind { result.1.now ≡ behind_quoted false bytes.now }
{
    let mut count = 0;
    let mut escaped = false;
    let mut rest = bytes;
    while let [first, after @ ..] = rest {
        let Some(next) = escaped_behind(escaped, *first) else {
            break;
        };
        escaped = next;
        count += 1;
        rest = after;
    }
    (&bytes[..count], rest)
}

/// Returns the bytes after spaces and tabs at the front.
#[inline]
pub fn skip_gap(bytes: &[u8]) -> &[u8]
    ensures { result.now ≡ behind_gap bytes.now }
{
    let mut rest = bytes;
    while let [first, after @ ..] = rest {
        if *first != b' ' && *first != b'\t' {
            break;
        }
        rest = after;
    }
    rest
}
