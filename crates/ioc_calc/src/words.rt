//! The words and signs of an expression, and the longest one at the front of a text.

ghost use Rattle.std.specs.Prelude.{◌≡◌, ◌≤◌, length, IfSome};
ghost use Rattle.ioc_calc.specs.Words.{upper, begins, longer_of, fitting, longest_in};

use crate::token::Token;

/// A word or sign, in capitals: its first byte and those behind it, up to a 0.
#[derive(Clone, Copy)]
pub struct Word {
    pub first: u8,
    pub more: [u8; 7],
    pub token: Token,
}

/// Returns a letter as a capital, and any other byte as it is.
fn upper(byte: u8) -> u8
    ensures { result ≡ upper byte }
{
    if byte >= 97 && byte <= 122 {
        byte - 32
    } else {
        byte
    }
}

/// Returns how many bytes these are up to a 0, if the text begins with them in capitals or small
/// letters.
fn begins(spelling: &[u8], text: &[u8]) -> Option<usize>
    ensures value { result ≡ begins spelling.now text.now }
    ensures within { IfSome result (λ n. n ≤ length text.now) }
{
    match spelling {
        [] => Some(0),
        [capital, more @ ..] => {
            if *capital == 0 {
                return Some(0);
            }
            match text {
                [] => None,
                [byte, rest @ ..] => {
                    if upper(*byte) == *capital {
                        Some(begins(more, rest)? + 1)
                    } else {
                        None
                    }
                }
            }
        }
    }
}

/// Returns the one of two tokens that has more bytes, and the first of two that have as many.
fn longer_of(one: Option<(Token, usize)>, other: Option<(Token, usize)>) -> Option<(Token, usize)>
    ensures { result ≡ longer_of one other }
{
    match one {
        None => other,
        Some(a) => match other {
            None => one,
            Some(b) => { if a.1 < b.1 { other } else { one } }
        },
    }
}

/// Returns the token of the word, if the text begins with it, and how many bytes it has behind its
/// first.
#[tactic(auto, unfolding(crate::specs::Words::fitting))]
fn fitting(word: &Word, first: u8, rest: &[u8]) -> Option<(Token, usize)>
    ensures { result ≡ fitting word.now first rest.now }
{
    if upper(first) == word.first {
        let more = begins(&word.more, rest)?;
        Some((word.token, more))
    } else {
        None
    }
}

/// Returns the token of the longest word with which the text begins, and how many bytes it has
/// behind its first.
pub fn longest_in(words: &[Word], first: u8, rest: &[u8]) -> Option<(Token, usize)>
    ensures { result ≡ longest_in words.now first rest.now }
{
    match words {
        [] => None,
        [word, others @ ..] => longer_of(
            fitting(word, first, rest),
            longest_in(others, first, rest),
        ),
    }
}
