//! The tokens of lines, one after another.
ghost use Rattle.std.specs.Prelude.{◌≡◌, ◌+◌, ◌<◌, ◌≤◌, ◌^◌, [], length, option_map};
ghost use Rattle.ioc_dblex.specs.Bytes.{behind_gap};
ghost use Rattle.ioc_dblex.specs.Tokens.{tokens_of, TakesToken, front_of, end_of};
ghost use Rattle.ioc_dblex.specs.Signs.{takes_sign};
ghost use Rattle.ioc_dblex.specs.SeenToken.{seen};
ghost use Rattle.ioc_dblex.specs.SeenLines.{TakesLine};
ghost use Rattle.ioc_dblex.specs.SeenPlace.{tokens_of_place};
ghost use Rattle.ioc_dblex.specs.SeenTexts.{expansion_of};

use crate::cursor::Cursor;
use crate::token_lines::Lines;
use crate::{End, Texts, Token, TokenKind, behind_sign, is_fault, skip_gap, token_at};
use ioc_values::BadDbKind;
use std::marker::Model;

/// The remaining tokens. Each is made once, when it is taken.
#[derive(Drop)]
pub struct Tokens<'a> {
    place: Cursor<'a>,
}

impl<'a> Model for Tokens<'a> {
    ghost use Rattle.std.specs.Prelude.{List, ◌+◌, ◌<◌, ◌^◌, length};
    ghost use Rattle.ioc_dblex.specs.Lexing.{Lexeme};

    ghost Value = { List Lexeme };

    ghost use Rattle.ioc_dblex.specs.SeenPlace.{tokens_of_place};

    ghost view = { λ t. tokens_of_place t.place };

    ghost invariant = { λ t. t.place.line + length t.place.behind.lengths.now < 2 ^ 63 };
}

/// Returns the first of the lines and those after it.
fn next_line<'a>(lines: Lines<'a>) -> Option<(&'a [u8], Lines<'a>)>
    ensures { TakesLine lines.entry result }
{
    let [first, lengths @ ..] = lines.lengths else {
        return None;
    };
    let (line, bytes) = lines.bytes.split_at(*first);
    Some((line, Lines { bytes, lengths }))
}

/// Advances to the first byte that isn't a blank, on this line or on one after it.
fn find<'a>(place: &mut Cursor<'a>)
    requires { place.old.line + length place.old.behind.lengths.now < 2 ^ 63 }
    ensures same { tokens_of_place place.new ≡ tokens_of_place place.old }
    ensures last { length place.new.rest.now ≡ 0 → length place.new.behind.lengths.now ≡ 0 }
    ensures solid { behind_gap place.new.rest.now ≡ place.new.rest.now }
    ensures room { place.new.line + length place.new.behind.lengths.now ≡ place.old.line + length place.old.behind.lengths.now }
    ensures end { place.new.end ≡ place.old.end }
{
    place.rest = skip_gap(place.rest);
    while place.rest.is_empty() {
        let Some((first, others)) = next_line(place.behind) else {
            break;
        };
        place.line += 1;
        place.rest = skip_gap(first);
        place.behind = others;
    }
}

/// Returns the token at the end of the lines, the last of which has this number.
fn end_token<'a>(end: End, line: u64) -> Option<Token<'a>>
    requires { line < 2 ^ 63 }
    ensures { option_map seen result ≡ front_of (end_of end (line + 1)) }
{
    let (line, kind) = match end {
        End::Whole => return None,
        End::BadMacro => (line + 1, BadDbKind::Macro),
        End::TooLong => (line, BadDbKind::TooMany),
    };
    let text: &[u8] = &[];
    let kind = TokenKind::Fault(kind);
    Some(Token { line, kind, text })
}

/// Returns the next token and advances past it.
fn advance<'a>(place: &mut Cursor<'a>) -> Option<Token<'a>>
    requires { place.old.line + length place.old.behind.lengths.now < 2 ^ 63 }
    ensures takes { TakesToken (tokens_of_place place.old) (option_map seen result) (tokens_of_place place.new) }
    ensures room { place.new.line + length place.new.behind.lengths.now ≤ place.old.line + length place.old.behind.lengths.now }
{
    find(place);
    let Some((token, rest)) = token_at(place.line, place.rest) else {
        let token = end_token(place.end, place.line);
        stop(place);
        return token;
    };
    if is_fault(token.kind) {
        stop(place);
        return Some(token);
    }
    place.rest = rest;
    Some(token)
}

/// Discards the remaining tokens.
fn stop<'a>(place: &mut Cursor<'a>)
    ensures tokens { tokens_of_place place.new ≡ [] }
    ensures line { place.new.line ≡ place.old.line }
    ensures behind { length place.new.behind.lengths.now ≡ 0 }
{
    place.rest = &[];
    place.behind = Lines {
        bytes: &[],
        lengths: &[],
    };
    place.end = End::Whole;
}

/// Advances past this sign if it is the next token. Returns whether it is.
fn take_sign_at<'a>(b: u8, place: &mut Cursor<'a>) -> bool
    requires { place.old.line + length place.old.behind.lengths.now < 2 ^ 63 }
    ensures takes { (result, tokens_of_place place.new) ≡ takes_sign b (tokens_of_place place.old) }
    ensures room { place.new.line + length place.new.behind.lengths.now ≤ place.old.line + length place.old.behind.lengths.now }
{
    find(place);
    let Some(behind) = behind_sign(b, place.rest) else {
        return false;
    };
    place.rest = behind;
    true
}

impl<'a> Tokens<'a> {
    /// Creates the tokens of the texts, the first of which is line 1. There are at most as many as
    /// there are bytes, and one at the end.
    pub fn new(texts: &'a Texts) -> Self
        ensures tokens { result ≡ tokens_of texts.now.end 1 (expansion_of texts.now).texts }
        ensures few { length result ≤ length texts.now.bytes.items + 1 }
    {
        let behind = Lines {
            bytes: texts.bytes.as_slice(),
            lengths: texts.lengths.as_slice(),
        };
        let place = Cursor {
            line: 0,
            rest: &[],
            behind,
            end: texts.end,
        };
        Tokens { place }
    }

    /// Returns the next token, if there is one. After a fault there is none.
    pub fn next(&mut self) -> Option<Token<'a>>
        ensures { TakesToken self.old (option_map seen result) self.new }
    {
        advance(&mut self.place)
    }

    /// Takes the next token if it is this sign, and returns whether it is. Any other token is kept.
    pub fn take_sign(&mut self, b: u8) -> bool
        ensures { (result, self.new) ≡ takes_sign b self.old }
    {
        take_sign_at(b, &mut self.place)
    }
}
