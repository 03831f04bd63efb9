//! The lines of a text, and the text of each without its comment and line end.
ghost use Rattle.std.specs.Prelude.{◌≡◌, ◌<◌, ◌≤◌, ◌∷◌, ◌++◌, length, option_map, true, IfOk};
ghost use Rattle.ioc_dblex.specs.Macros.{back_of};
ghost use Rattle.ioc_dblex.specs.Lines.{quoting_after, begins_comment, uncommented, stands, without_end, is_plain, line_text, lines_of};

use crate::macros::Macros;
use crate::replacement::add_replaced;
use crate::search::lacks;
use memchr::memchr;
use std::alloc::AllocError;

/// Whether a byte of a line is quoted.
#[derive(Clone, Copy, PartialEq, Eq, Debug)]
pub enum Quoting {
    Outside,
    /// Between double quotes.
    Inside,
    /// Between double quotes, after a backslash.
    Escaped,
}

#[tactic(auto, unfolding(crate::specs::Lines::quoting_after))]
fn quoting_after(quoting: Quoting, b: u8) -> Quoting
    ensures { result ≡ quoting_after quoting b }
{
    match quoting {
        Quoting::Outside => if b == b'"' {
            Quoting::Inside
        } else {
            Quoting::Outside
        },
        Quoting::Inside => {
            if b == b'"' {
                Quoting::Outside
            } else if b == b'\\' {
                Quoting::Escaped
            } else {
                Quoting::Inside
            }
        }
        Quoting::Escaped => Quoting::Inside,
    }
}

#[tactic(auto, unfolding(crate::specs::Lines::begins_comment))]
fn begins_comment(quoting: Quoting, b: u8) -> bool
    ensures { result ≡ begins_comment quoting b }
{
    match quoting {
        Quoting::Outside => b == b'#',
        Quoting::Inside => false,
        Quoting::Escaped => false,
    }
}

/// Returns the line without its comment.
fn uncommented(line: &[u8]) -> &[u8]
    ensures { result.now ≡ uncommented Quoting.Outside line.now }
{
    if lacks(b'#', line) {
        return line;
    }
    let mut count = 0;
    let mut quoting = Quoting::Outside;
    let mut rest = line;
    while let [first, after @ ..] = rest {
        if begins_comment(quoting, *first) {
            break;
        }
        quoting = quoting_after(quoting, *first);
        count += 1;
        rest = after;
    }
    &line[..count]
}

/// Returns whether no byte begins a comment or a macro.
pub fn is_plain(bytes: &[u8]) -> bool
    ensures { result ≡ is_plain bytes.now }
{
    lacks(b'#', bytes) && lacks(b'$', bytes)
}

/// Returns whether this byte is at `before` bytes before the last one.
fn stands(c: u8, before: usize, bytes: &[u8]) -> bool
    requires { before < 2 }
    ensures { result ≡ stands c before bytes.now }
{
    bytes.len() > before && bytes[bytes.len() - before - 1] == c
}

/// Returns the line without its line feed, and without a carriage return before it.
fn without_end(line: &[u8]) -> &[u8]
    requires { length (back_of 10 line.now) ≤ 1 }
    ensures { result.now ≡ without_end line.now }
{
    if !stands(b'\n', 0, line) {
        return line;
    }
    if stands(b'\r', 1, line) {
        return &line[..line.len() - 2];
    }
    &line[..line.len() - 1]
}

/// Splits the first line, with its line feed, from the text after it.
pub fn split_line(text: &[u8]) -> (&[u8], &[u8])
    ensures whole { result.0.now ++ result.1.now ≡ text.now }
    ensures first { 0 < length text.now → lines_of text.now ≡ result.0.now ∷ lines_of result.1.now }
    ensures one { length (back_of 10 result.0.now) ≤ 1 }
{
    match memchr(b'\n', text) {
        Some(place) => text.split_at(place + 1),
        None => (text, &[]),
    }
}

/// Returns the text of a line without its comment and line end and with its macros replaced, or
/// `None` if one of them can't be replaced. If a macro is used, the text is in `replacement`. If
/// the line is known to be plain, it isn't searched again.
///
/// # Errors
///
/// [`AllocError`] if allocation fails.
#[tactic(auto, unfolding(crate::specs::Lines::line_text))]
pub fn line_text<'a>(
    macros: &Macros,
    plain: bool,
    line: &'a [u8],
    replacement: &'a mut Vec<u8>,
) -> Result<Option<&'a [u8]>, AllocError>
    requires one { length (back_of 10 line.now) ≤ 1 }
    requires known { plain ≡ true → is_plain line.now ≡ true }
    ensures { IfOk result (λ text. option_map (λ t. t.now) text ≡ line_text macros.now line.now) }
{
    let body = without_end(line);
    if plain {
        return Ok(Some(body));
    }
    let text = uncommented(body);
    if lacks(b'$', text) {
        return Ok(Some(text));
    }
    replacement.clear();
    if !add_replaced(macros, text, replacement)? {
        return Ok(None);
    }
    Ok(Some(replacement.as_slice()))
}
