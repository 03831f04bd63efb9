//! The statements of database files.
use crate::first_words::wrong_file;
use crate::words::Words;
use ioc_site::{Statement, Word};
use ioc_site_lines::{Keyword, Kind, Token, keyword_of};
use ioc_spelling::nearest;
use std::alloc::AllocError;

/// The words that begin statements.
const STATEMENTS: &[&str] = &[
    "record",
    "grecord",
    "alias",
    "include",
    "path",
    "addpath",
    "menu",
    "recordtype",
    "device",
    "driver",
    "registrar",
    "function",
    "variable",
    "breaktable",
    "link",
];

/// Returns what is said of a word that is no statement and not near to one.
fn remedy_for(word: &[u8]) -> &'static [u8] {
    let is_comment = word.starts_with(b";") || word.starts_with(b"--");
    match wrong_file(false, word) {
        Some(remedy) => remedy,
        None if is_comment => b"' begins no comment; a comment begins with '#'",
        None => b"' is no statement; begin one with record, alias or include",
    }
}

/// Returns what a word begins that is no statement: what is near to it. That it is none is
/// reported.
fn near_keyword(words: &mut Words, token: &Token) -> Result<Option<Keyword>, AllocError> {
    let text = token.bytes();
    let Some(name) = nearest(words.stream.alloc, text, STATEMENTS)? else {
        let mut said = Vec::new(words.stream.alloc);
        said.push(b'\'')?;
        said.extend_from_slice(text)?;
        said.extend_from_slice(remedy_for(text))?;
        words.stream.findings.report_text(token.place, said)?;
        return Ok(None);
    };
    words.report_misspelt(token, "statement", name)?;
    let is_followed = matches!(token.next, Some(b'(' | b'"'));
    Ok(if is_followed {
        keyword_of(name.as_bytes())
    } else {
        None
    })
}

/// Returns what a token begins. If it begins nothing, that is reported.
fn statement_keyword(words: &mut Words, token: &Token) -> Result<Option<Keyword>, AllocError> {
    let text = token.bytes();
    match token.kind {
        Kind::Word => match keyword_of(text) {
            Some(Keyword::Field | Keyword::Info) => {
                let parts = [text, b" outside the body of a record; put it inside of one"];
                words.report(token.place, &parts)?;
                Ok(None)
            }
            Some(found) => Ok(Some(found)),
            None => near_keyword(words, token),
        },
        Kind::Fault => {
            words.report(token.place, &[text])?;
            Ok(None)
        }
        Kind::Sign(b'}') => {
            words.report(token.place, &[b"'}' closes nothing; drop it"])?;
            Ok(None)
        }
        Kind::Sign(_) | Kind::Quoted => {
            let remedy = b"' begins no statement; begin one with record, alias or include";
            words.report(token.place, &[b"'", text, remedy])?;
            Ok(None)
        }
    }
}

/// Returns what the next token begins, with the token, or `None` at the end of the text. What
/// begins no statement is reported and passed.
///
/// # Errors
///
/// [`AllocError`] if allocation fails.
pub fn next_heading(words: &mut Words) -> Result<Option<(Keyword, Token)>, AllocError> {
    for _ in 0..u64::MAX {
        words.start();
        let Some(token) = words.take()? else {
            break;
        };
        if let Some(found) = statement_keyword(words, &token)? {
            return Ok(Some((found, token)));
        }
        if !token.is_sign(b'}') {
            words.lacks_records = true;
            words.skip_to_statement()?;
        }
    }
    Ok(None)
}

/// Takes `(TYPE, NAME)` of a record. Without both there is `None`.
///
/// # Errors
///
/// [`AllocError`] if allocation fails.
pub fn record_head(words: &mut Words) -> Result<Option<(Word, Word)>, AllocError> {
    let Some(pair) = words.expect_pair(b"the record type", b"the record's name")? else {
        words.lacks_records = true;
        words.recover(true)?;
        return Ok(None);
    };
    if !words.expect_close(&pair.1, true)? {
        words.lacks_records = true;
        words.recover(true)?;
        return Ok(None);
    }
    Ok(Some(pair))
}

/// Takes `(RECORD, ALIAS)` of an alias.
///
/// # Errors
///
/// [`AllocError`] if allocation fails.
pub fn alias_statement(words: &mut Words) -> Result<Option<Statement>, AllocError> {
    let Some((record, alias)) = words.expect_pair(b"the record's name", b"the alias")? else {
        words.lacks_records = true;
        words.recover(false)?;
        return Ok(None);
    };
    if !words.expect(b')')? {
        words.recover(false)?;
    }
    Ok(Some(Statement::Alias { record, alias }))
}

/// Passes a statement that has no part in records, by its first word.
///
/// # Errors
///
/// [`AllocError`] if allocation fails.
pub fn skipped_statement(words: &mut Words, token: Token) -> Result<Statement, AllocError> {
    words.skip_group(b'(', b')')?;
    words.skip_group(b'{', b'}')?;
    Ok(Statement::Skipped(Word {
        text: token.text,
        place: token.place,
        quoted: false,
    }))
}
