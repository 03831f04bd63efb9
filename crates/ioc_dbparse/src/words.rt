//! Single tokens of statements.
ghost use Rattle.std.specs.Prelude.{◌≡◌, List, IfOk};
ghost use Rattle.ioc_dblex.specs.Lexing.{Lexeme};
ghost use Rattle.ioc_values.specs.declared.error.BadDbKind.TheVariants as kinds;
ghost use Rattle.ioc_dblex.specs.SeenToken.{seen};
ghost use Rattle.ioc_dblex.specs.SeenSaid.{said_bytes};
ghost use Rattle.ioc_dbparse.specs.Statements.{Reads, at, sound, next_at, is_sign_of, expect, is_value, value_at, is_bareword};
ghost use Rattle.ioc_dbparse.specs.Statements.{is_word, text_of, name_line, begins_record, is_left_out, refused_word};

use ioc_dblex::{Token, TokenKind, TokenText, Tokens, read_escapes};
use ioc_values::{BadDbKind, DbFault, LoadError};
use std::alloc::{AllocError, Global};

/// Returns a fault of this kind on this line.
pub fn fault(line: u64, kind: BadDbKind) -> LoadError
    ensures { result ≡ LoadError.BadDb (at line kind) }
{
    LoadError::BadDb(DbFault { line, kind })
}

/// Returns the token if it is no fault.
pub fn sound<'a>(token: Token<'a>) -> Result<Token<'a>, DbFault>
    ensures { (rest : List Lexeme) → Reads (λ t. (seen t, rest)) result (sound (seen token.entry) token.entry.kind rest) }
{
    match token.kind {
        TokenKind::Fault(kind) => Err(DbFault {
            line: token.line,
            kind,
        }),
        _ => Ok(token),
    }
}

/// Returns the next token of a statement, in a text with this last line.
#[tactic(auto, unfolding(crate::specs::Statements::next_at))]
pub fn next_at<'a>(last: u64, tokens: &mut Tokens<'a>) -> Result<Token<'a>, DbFault>
    ensures { Reads (λ t. (seen t, tokens.new)) result (next_at last tokens.old) }
{
    let Some(token) = tokens.next() else {
        let kind = BadDbKind::OpenBody;
        return Err(DbFault { line: last, kind });
    };
    sound(token)
}

/// Returns the fault of a token that doesn't fit.
pub fn misfit(token: &Token<'_>) -> DbFault
    ensures { result ≡ at token.now.line kinds.Syntax }
{
    DbFault {
        line: token.line,
        kind: BadDbKind::Syntax,
    }
}

/// Returns whether it is this sign.
pub fn is_sign_of(b: u8, kind: TokenKind) -> bool
    ensures { result ≡ is_sign_of b kind }
{
    match kind {
        TokenKind::Sign(c) => c == b,
        _ => false,
    }
}

/// Reads the next token, which must be this sign.
#[tactic(auto, unfolding(crate::specs::Statements::expect))]
fn sign_at(b: u8, last: u64, tokens: &mut Tokens<'_>) -> Result<(), DbFault>
    ensures { Reads (λ _. tokens.new) result (expect b last tokens.old) }
{
    let token = next_at(last, tokens)?;
    if !is_sign_of(b, token.kind) {
        return Err(misfit(&token));
    }
    Ok(())
}

/// Reads this sign.
pub fn expect(b: u8, last: u64, tokens: &mut Tokens<'_>) -> Result<(), DbFault>
    ensures { Reads (λ _. tokens.new) result (expect b last tokens.old) }
{
    // Mostly the sign is there, and then no token need be created.
    if tokens.take_sign(b) {
        return Ok(());
    }
    sign_at(b, last, tokens)
}

/// Returns whether it is a bareword or a quoted text.
pub fn is_value(kind: TokenKind) -> bool
    ensures { result ≡ is_value kind }
{
    matches!(kind, TokenKind::Word | TokenKind::Quoted)
}

/// Reads a bareword or a quoted text.
#[tactic(auto, unfolding(crate::specs::Statements::value_at))]
pub fn value_at<'a>(last: u64, tokens: &mut Tokens<'a>) -> Result<Token<'a>, DbFault>
    ensures { Reads (λ t. (seen t, tokens.new)) result (value_at last tokens.old) }
{
    let token = next_at(last, tokens)?;
    if !is_value(token.kind) {
        return Err(misfit(&token));
    }
    Ok(token)
}

/// Returns whether it is a bareword.
fn is_bareword(kind: TokenKind) -> bool
    ensures { result ≡ is_bareword kind }
{
    matches!(kind, TokenKind::Word)
}

/// Returns whether the token is this bareword.
pub fn is_word(word: &[u8], token: &Token<'_>) -> bool
    ensures { result ≡ is_word word.now (seen token.now) }
{
    let token = *token;
    is_bareword(token.kind) && token.text == word
}

/// Returns the text of a token, in the value of a field or in a name.
pub fn text_of<'a>(
    alloc: Global,
    in_value: bool,
    token: &Token<'a>,
) -> Result<TokenText<'a>, AllocError>
    ensures { IfOk result (λ s. said_bytes s ≡ text_of in_value (seen token.now)) }
{
    read_escapes(alloc, in_value, token.text)
}

/// Returns whether it is a word of a database definition, whose statements this grammar leaves out.
#[tactic(auto, unfolding(crate::specs::Statements::is_left_out))]
fn is_left_out(token: &Token<'_>) -> bool
    ensures { result ≡ is_left_out (seen token.now) }
{
    is_word(b"menu", token)
        || is_word(b"recordtype", token)
        || is_word(b"device", token)
        || is_word(b"driver", token)
        || is_word(b"include", token)
        || is_word(b"path", token)
        || is_word(b"addpath", token)
        || is_word(b"breaktable", token)
        || is_word(b"registrar", token)
        || is_word(b"function", token)
        || is_word(b"variable", token)
        || is_word(b"link", token)
}

/// Returns whether a record begins with this token.
#[tactic(auto, unfolding(crate::specs::Statements::begins_record))]
pub fn begins_record(token: &Token<'_>) -> bool
    ensures { result ≡ begins_record (seen token.now) }
{
    is_word(b"record", token) || is_word(b"grecord", token)
}

/// Returns why no statement begins with this token.
pub fn refused_word(token: &Token<'_>) -> BadDbKind
    ensures { result ≡ refused_word (seen token.now) }
{
    if is_left_out(token) {
        BadDbKind::LeftOut
    } else {
        BadDbKind::Syntax
    }
}

/// Returns the line on which a name is refused: too many records are refused on the line of the
/// word `record`.
pub fn name_line(begun: u64, line: u64, kind: BadDbKind) -> u64
    ensures { result ≡ name_line begun line kind }
{
    match kind {
        BadDbKind::TooMany => begun,
        _ => line,
    }
}
