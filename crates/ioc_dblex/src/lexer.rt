//! The tokens of a line, one at a time.
ghost use Rattle.std.specs.Prelude.{◌≡◌, ◌≤◌, Some, None, false, length, option_map};
ghost use Rattle.ioc_dblex.specs.Bytes.{quoted_of, behind_quoted};
ghost use Rattle.ioc_dblex.specs.Lexing.{is_sign, behind_sign, bare, quoted_at, token_at, is_fault, behind_begun, begun_within};
ghost use Rattle.ioc_dblex.specs.SeenToken.{CutsSo};

use crate::bytes::{is_word_byte, skip_gap, split_quoted, split_word};
use crate::token::{Token, TokenKind};
use ioc_values::BadDbKind;

#[tactic(auto, unfolding(crate::specs::Lexing::is_sign))]
fn is_sign(b: u8) -> bool
    ensures { result ≡ is_sign b }
{
    matches!(b, b'(' | b')' | b'{' | b'}' | b',' | b'*')
}

fn bare<'a>(line: u64, kind: TokenKind, rest: &'a [u8]) -> (Token<'a>, &'a [u8])
    ensures { CutsSo (Some (bare line kind rest.now)) (Some result) }
{
    let text: &[u8] = &[];
    (Token { line, kind, text }, rest)
}

fn quoted_at<'a>(line: u64, bytes: &'a [u8]) -> (Token<'a>, &'a [u8])
    ensures { CutsSo (Some (quoted_at line (quoted_of false bytes.now) (behind_quoted false bytes.now))) (Some result) }
{
    let (text, behind) = split_quoted(bytes);
    match behind {
        [] => bare(line, TokenKind::Fault(BadDbKind::Unclosed), &[]),
        [_, rest @ ..] => {
            let kind = TokenKind::Quoted;
            (Token { line, kind, text }, rest)
        }
    }
}

/// Returns the token at the front of some bytes of this line, which begin with no blank, and the
/// bytes after it. Returns `None` if there are no bytes. After a fault there are no bytes.
#[inline(always)]
#[tactic(auto, unfolding(crate::specs::Lexing::token_at))]
pub fn token_at<'a>(line: u64, bytes: &'a [u8]) -> Option<(Token<'a>, &'a [u8])>
    ensures { CutsSo (token_at line bytes.now) result }
{
    let [first, behind @ ..] = bytes else {
        return None;
    };
    if is_sign(*first) {
        return Some(bare(line, TokenKind::Sign(*first), behind));
    }
    if *first == b'"' {
        return Some(quoted_at(line, behind));
    }
    if is_word_byte(*first) {
        let (text, rest) = split_word(bytes);
        let kind = TokenKind::Word;
        return Some((Token { line, kind, text }, rest));
    }
    Some(bare(line, TokenKind::Fault(BadDbKind::Syntax), &[]))
}

/// Returns the bytes after this sign, or `None` if it isn't the first of the bytes.
#[inline]
pub fn behind_sign(b: u8, bytes: &[u8]) -> Option<&[u8]>
    ensures { option_map (λ behind. behind.now) result ≡ behind_sign b bytes.now }
{
    let [first, behind @ ..] = bytes else {
        return None;
    };
    if *first != b || !is_sign(b) {
        return None;
    }
    Some(behind)
}

/// Returns whether the token is a fault, after which there are no tokens.
pub fn is_fault(kind: TokenKind) -> bool
    ensures { result ≡ is_fault kind }
{
    matches!(kind, TokenKind::Fault(_))
}
