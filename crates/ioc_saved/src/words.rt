//! Bytes before and behind a separator.
ghost use Rattle.std.specs.Prelude.{◌≡◌};
ghost use Rattle.ioc_saved.specs.Words.{lacks, before, behind, lines_of, last_of, ends_line};

/// Returns whether the byte is none of these.
pub(crate) fn lacks(byte: u8, bytes: &[u8]) -> bool
    ensures { result ≡ lacks byte bytes.now }
{
    let mut rest = bytes;
    while let [first, after @ ..] = rest {
        if *first == byte {
            return false;
        }
        rest = after;
    }
    true
}

/// Splits the bytes at the first separator.
pub(crate) fn split(separator: u8, bytes: &[u8]) -> (&[u8], &[u8])
    ensures before { result.0.now ≡ before separator bytes.now }
    ensures behind { result.1.now ≡ behind separator bytes.now }
{
    let mut count = 0;
    let mut rest = bytes;
    while let [first, after @ ..] = rest {
        if *first == separator {
            return (&bytes[..count], after);
        }
        count += 1;
        rest = after;
    }
    (bytes, rest)
}

/// Returns the last line, without its line feed.
pub(crate) fn last_line(text: &[u8]) -> &[u8]
    ensures { result.now ≡ last_of (lines_of text.now) }
{
    let mut rest = text;
    while !rest.is_empty() {
        let (line, after) = split(b'\n', rest);
        if after.is_empty() {
            return line;
        }
        rest = after;
    }
    rest
}

/// Returns whether the last byte is a line feed.
pub(crate) fn ends_line(text: &[u8]) -> bool
    ensures { result ≡ ends_line text.now }
{
    match text.last() {
        Some(last) => *last == b'\n',
        None => false,
    }
}
