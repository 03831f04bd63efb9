//! The lines of request files.
ghost use Rattle.std.specs.Prelude.{◌≡◌, List, ℕ};
ghost use Rattle.ioc_saved.specs.Lines.{Gives};
ghost use Rattle.ioc_saved.specs.Requests.{is_blank, unblanked, word_of, rest_of, is_nothing, is_file, field_of, channel_of};
ghost use Rattle.ioc_saved.specs.Requests.{channel_in, Asks};

use crate::line::name_in;
use crate::words::{lacks, split};
use ioc_values::{FieldName, Name};

/// What a line of a request file asks for.
///
/// ```text
/// request_line(b"plant:level.HIGH")   // Channel: plant:level, HIGH
/// request_line(b"plant:level")        // Channel: plant:level, VAL
/// request_line(b"file pump.req P=a:") // File: pump.req, P=a:
/// request_line(b"# pumps")            // Nothing
/// ```
#[derive(Clone, Copy)]
pub enum RequestLine<'a> {
    /// The value of this field of this record is saved.
    Channel(Name, FieldName),
    /// The lines of the file with this name, with these macros.
    File(&'a [u8], &'a [u8]),
    /// An empty line or a comment.
    Nothing,
    /// A line that is none of these.
    Bad,
}

/// Returns whether the byte is a space, a tab or a carriage return.
fn is_blank(byte: u8) -> bool
    ensures { result ≡ is_blank byte }
{
    byte == b' ' || byte == b'\t' || byte == b'\r'
}

/// Returns the bytes from the first that is no blank.
fn unblanked(bytes: &[u8]) -> &[u8]
    ensures { result.now ≡ unblanked bytes.now }
{
    let mut rest = bytes;
    while let [first, after @ ..] = rest {
        if !is_blank(*first) {
            return rest;
        }
        rest = after;
    }
    rest
}

/// Splits the bytes at their first blanks.
fn split_word(bytes: &[u8]) -> (&[u8], &[u8])
    ensures word { result.0.now ≡ word_of bytes.now }
    ensures rest { result.1.now ≡ rest_of bytes.now }
{
    let mut count = 0;
    let mut rest = bytes;
    while let [first, after @ ..] = rest {
        if is_blank(*first) {
            return (&bytes[..count], unblanked(after));
        }
        count += 1;
        rest = after;
    }
    (bytes, rest)
}

/// Returns whether nothing or a comment stands here.
fn is_nothing(text: &[u8]) -> bool
    ensures { result ≡ is_nothing text.now }
{
    match text {
        [first, ..] => *first == b'#',
        [] => true,
    }
}

/// Returns the field that a word names.
fn field_of(word: &[u8]) -> &[u8]
    ensures { result.now ≡ field_of word.now }
{
    if lacks(b'.', word) {
        return b"VAL";
    }
    let (_, field) = split(b'.', word);
    field
}

/// Reads the record and the field that a word names.
fn channel_of(word: &[u8]) -> Option<(Name, FieldName)>
    ensures { Gives (λ channel. (channel.0, channel.1)) result (channel_of word.now) }
{
    let (name, _) = split(b'.', word);
    let name = name_in(name)?;
    let field = name_in(field_of(word))?;
    Some((name, field))
}

/// Reads a line of a request file, without its line feed, whose macros are replaced. A record
/// without a field asks for its `VAL`; behind a channel only a comment may stand.
pub fn request_line(line: &[u8]) -> RequestLine<'_>
    ensures { Asks result (unblanked line.now) }
{
    let text = unblanked(line);
    if is_nothing(text) {
        return RequestLine::Nothing;
    }
    let (word, rest) = split_word(text);
    if word == b"file".as_slice() {
        if is_nothing(rest) {
            return RequestLine::Bad;
        }
        let (name, macros) = split_word(rest);
        return RequestLine::File(name, macros);
    }
    if !is_nothing(rest) {
        return RequestLine::Bad;
    }
    match channel_of(word) {
        Some((name, field)) => RequestLine::Channel(name, field),
        None => RequestLine::Bad,
    }
}
