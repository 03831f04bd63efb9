//! Tokens of database texts.
use ioc_values::BadDbKind;

/// The kind of a token.
#[derive(Clone, Copy, PartialEq, Eq, Debug)]
pub enum TokenKind {
    /// One of `(`, `)`, `{`, `}`, `,` and `*`.
    Sign(u8),
    /// A bareword.
    Word,
    /// The bytes between double quotes.
    Quoted,
    /// No token can be made here. This is the last token.
    Fault(BadDbKind),
}

/// A token, and the line on which it begins, counted from 1.
#[derive(Clone, Copy)]
pub struct Token<'a> {
    pub line: u64,
    pub kind: TokenKind,
    /// The bareword, or the bytes between quotes as they are written.
    pub text: &'a [u8],
}
