//! Expansion of a database text to the texts of its lines.
ghost use Rattle.std.specs.Prelude.{◌≡◌, ◌+◌, ◌++◌, ◌∷◌, [], length, sum, IfOk, OnOk};
ghost use Rattle.ioc_dblex.specs.Lexing.{begun_within, behind_begun, rest_of, token_at};
ghost use Rattle.ioc_dblex.specs.Lines.{lines_of};
ghost use Rattle.ioc_dblex.specs.Texts.{parts_of, expansion, most_bytes};
ghost use Rattle.ioc_dblex.specs.SeenTexts.{expansion_of};

use crate::bytes::skip_gap;
use crate::lexer::token_at;
use crate::lines::{is_plain, line_text, split_line};
use crate::macros::Macros;
use crate::texts::{End, Texts};
use std::alloc::{AllocError, Global};

/// The maximum length of a database text in bytes: 16 MiB.
pub const MAX_BYTES: usize = 1 << 24;

/// Returns the bytes after the first token.
#[tactic(auto, unfolding(crate::specs::Lexing::token_at))]
fn behind_token(bytes: &[u8]) -> &[u8]
    ensures { result.now ≡ rest_of (token_at 0 bytes.now) bytes.now }
{
    match token_at(0, bytes) {
        None => bytes,
        Some((_, rest)) => rest,
    }
}

/// Returns what is left after the tokens that begin before the last `past` bytes.
fn behind_begun(past: usize, text: &[u8]) -> &[u8]
    ensures { result.now ≡ behind_begun (length text.now) past text.now }
{
    let mut rest = text;
    for _ in 0..text.len() {
        let solid = skip_gap(rest);
        if solid.len() <= past {
            break;
        }
        rest = behind_token(solid);
    }
    rest
}

/// Returns the line's text up to the end of the last token that begins among its first `room`
/// bytes.
#[tactic(auto, unfolding(crate::specs::Lexing::begun_within))]
fn begun_within(room: usize, text: &[u8]) -> &[u8]
    ensures { result.now ≡ begun_within room text.now }
{
    let past = text.len().saturating_sub(room);
    let left = behind_begun(past, text).len();
    &text[..text.len().saturating_sub(left)]
}

/// Appends the text of one more line.
#[tactic(auto, using(crate::proofs::Parts::parts_push, crate::proofs::Parts::sum_push))]
fn add_text(bytes: &mut Vec<u8>, lengths: &mut Vec<usize>, text: &[u8]) -> Result<(), AllocError>
    requires { sum lengths.old.items ≡ length bytes.old.items }
    ensures parts { OnOk result (parts_of lengths.new.items bytes.new.items ≡ parts_of lengths.old.items bytes.old.items ++ text.now ∷ []) }
    ensures fits { OnOk result (sum lengths.new.items ≡ length bytes.new.items) }
    ensures count { OnOk result (length lengths.new.items ≡ length lengths.old.items + 1) }
{
    bytes.extend_from_slice(text)?;
    lengths.push(text.len())?;
    Ok(())
}

/// Returns the texts of a database text's lines, up to the first line whose macros can't be
/// replaced or that exceeds the limit of [`MAX_BYTES`]. In the latter case the text of that line,
/// with its macros replaced, ends after the last token that begins before the limit.
///
/// # Errors
///
/// [`AllocError`] if allocation fails.
pub fn expand(alloc: Global, macros: &Macros, text: &[u8]) -> Result<Texts, AllocError>
    ensures { IfOk result (λ t. expansion_of t ≡ expansion macros.now most_bytes (lines_of text.now)) }
{
    let mut bytes = Vec::new(alloc);
    let mut lengths = Vec::new(alloc);
    let mut replacement = Vec::new(alloc);
    let plain = is_plain(text);
    let mut room = MAX_BYTES;
    let mut rest = text;
    while !rest.is_empty() {
        let (line, behind) = split_line(rest);
        let found = line_text(macros, plain, line, &mut replacement)?;
        let Some(text) = found else {
            let end = End::BadMacro;
            return Ok(Texts {
                bytes,
                lengths,
                end,
            });
        };
        if room < line.len() {
            add_text(&mut bytes, &mut lengths, begun_within(room, text))?;
            let end = End::TooLong;
            return Ok(Texts {
                bytes,
                lengths,
                end,
            });
        }
        add_text(&mut bytes, &mut lengths, text)?;
        room -= line.len();
        rest = behind;
    }
    let end = End::Whole;
    Ok(Texts {
        bytes,
        lengths,
        end,
    })
}
