//! The entries of records.
use crate::words::Words;
use ioc_site::{Entry, EntryKind, Place, Word};
use ioc_site_lines::{Keyword, Kind, Token, keyword_of};
use ioc_spelling::nearest;
use std::alloc::{AllocError, Global};

/// The words that begin entries of a record.
const ENTRIES: &[&str] = &["field", "info", "alias", "include"];

/// Returns the word that begins an entry of a record and may have been meant by this token.
fn near_entry(words: &Words, token: &Token) -> Result<Option<&'static str>, AllocError> {
    if token.kind != Kind::Word {
        return Ok(None);
    }
    nearest(words.stream.alloc, token.bytes(), ENTRIES)
}

/// What is in the body of a record.
#[derive(Drop)]
pub struct Body {
    pub entries: Vec<Entry>,
    pub aliases: Vec<Word>,
    /// Whether it is reported that the body isn't closed.
    is_told_open: bool,
}

impl Body {
    /// Begins with an empty body.
    pub fn new(alloc: Global) -> Self {
        Body {
            entries: Vec::new(alloc),
            aliases: Vec::new(alloc),
            is_told_open: false,
        }
    }
}

/// Where a body begins, and the name of its record.
#[derive(Clone, Copy)]
pub struct Opening<'a> {
    pub place: Place,
    pub name: &'a [u8],
}

/// Reports a body that isn't closed before what is next, or before the end of the text.
fn report_open(words: &mut Words, opening: Opening, next: &[u8]) -> Result<(), AllocError> {
    let line = opening.place.line.to_string(words.stream.alloc)?;
    let place = match &words.stream.ahead {
        Some(token) => token.place,
        None => opening.place,
    };
    let inside: &[u8] = if next.is_empty() { b"" } else { b" inside " };
    let remedy: &[u8] = if next.is_empty() {
        b", isn't closed; put '}' at its end"
    } else {
        b"; close it with '}'"
    };
    let parts: [&[u8]; 7] = [
        next,
        inside,
        b"the body of \"",
        opening.name,
        b"\", which opens on line ",
        line.as_bytes(),
        remedy,
    ];
    words.report(place, &parts)
}

/// Reports a body that isn't closed before the token that is next.
fn report_open_before(words: &mut Words, opening: Opening) -> Result<(), AllocError> {
    let next = match &words.stream.ahead {
        Some(token) => token.bytes().to_vec(words.stream.alloc)?,
        None => Vec::new(words.stream.alloc),
    };
    report_open(words, opening, next.as_slice())
}

/// Returns whether the body ends here, and takes the bracket that closes it. A bracket that is
/// missing is reported, once.
fn ends(words: &mut Words, opening: Opening, body: &Body) -> Result<bool, AllocError> {
    if words.is_at(b'}')? {
        words.take()?;
        return Ok(true);
    }
    let is_open = match &words.stream.ahead {
        Some(token) => token.begins_statement(),
        None => true,
    };
    if is_open && !body.is_told_open {
        report_open_before(words, opening)?;
    }
    Ok(is_open)
}

/// Returns what a token begins in a body. If it begins nothing, that is reported.
fn entry_keyword(words: &mut Words, token: &Token) -> Result<Option<Keyword>, AllocError> {
    let text = token.bytes();
    let place = token.place;
    if token.kind == Kind::Word
        && let Some(
            found @ (Keyword::Field | Keyword::Info | Keyword::Alias | Keyword::Include),
        ) = keyword_of(text)
    {
        return Ok(Some(found));
    }
    if let Some(name) = near_entry(words, token)? {
        words.report_misspelt(token, "entry of a record", name)?;
        let is_followed = token.next == Some(b'(');
        return Ok(if is_followed {
            keyword_of(name.as_bytes())
        } else {
            None
        });
    }
    if token.kind == Kind::Fault {
        words.report(place, &[text])?;
        return Ok(None);
    }
    let is_name = text
        .iter()
        .all(|byte| byte.is_ascii_uppercase() || byte.is_ascii_digit());
    let remedy: [&[u8]; 3] = if text == b",".as_slice() || text == b";".as_slice() {
        [b"' stands between no entries; drop it", b"", b""]
    } else if is_name {
        [b"' is no entry of a record; write field(", text, b", ..)"]
    } else {
        [
            b"' is no entry of a record; write field, info or alias",
            b"",
            b"",
        ]
    };
    words.report(place, &[b"'", text, remedy[0], remedy[1], remedy[2]])?;
    Ok(None)
}

/// Takes `(NAME, VALUE)`. What is missing is reported.
fn entry(words: &mut Words, kind: EntryKind) -> Result<Option<Entry>, AllocError> {
    let missing: &[u8] = match kind {
        EntryKind::Field => b"the field's name",
        EntryKind::Info => b"the info's name",
    };
    if !words.expect(b'(')? {
        return Ok(None);
    }
    let Some(mut name) = words.expect_text(missing)? else {
        return Ok(None);
    };
    if !words.is_at(b',')? && name.text.ends_with(b":") {
        name.text.pop();
    }
    if !words.expect_comma()? {
        return Ok(None);
    }
    let Some(value) = words.expect_value()? else {
        return Ok(None);
    };
    Ok(if words.expect_close(&value, false)? {
        Some(Entry { kind, name, value })
    } else {
        None
    })
}

/// Reads `(ALIAS)`. What is missing is reported, and so are two names, which belong to a statement: the body
/// isn't closed before it.
fn read_alias(words: &mut Words, opening: Opening, body: &mut Body) -> Result<(), AllocError> {
    if !words.expect(b'(')? {
        return words.lose_entry();
    }
    let Some(alias) = words.expect_text(b"the alias")? else {
        return words.lose_entry();
    };
    if words.is_at(b',')? {
        body.is_told_open = true;
        words.lacks_records = true;
        report_open(words, opening, b"alias of two names")?;
        return words.recover(false);
    }
    if !words.expect(b')')? {
        words.recover(false)?;
    }
    Ok(body.aliases.push(alias)?)
}

/// Reads a field or an info.
fn read_entry(words: &mut Words, found: Keyword, body: &mut Body) -> Result<(), AllocError> {
    let kind = if found == Keyword::Info {
        EntryKind::Info
    } else {
        EntryKind::Field
    };
    match entry(words, kind)? {
        Some(entry) => Ok(body.entries.push(entry)?),
        None => words.lose_entry(),
    }
}

/// Reads entries up to the bracket that closes the body, or up to an include, whose file's name it
/// returns.
///
/// # Errors
///
/// [`AllocError`] if allocation fails.
pub fn read_entries(
    words: &mut Words,
    opening: Opening,
    body: &mut Body,
) -> Result<Option<Word>, AllocError> {
    for _ in 0..u64::MAX {
        words.start();
        if ends(words, opening, &*body)? {
            break;
        }
        let Some(token) = words.take()? else {
            break;
        };
        match entry_keyword(words, &token)? {
            None => words.lose_entry()?,
            Some(Keyword::Include) => {
                let file = words.expect_text(b"the file's name")?;
                if file.is_some() {
                    return Ok(file);
                }
                words.lose_entry()?;
            }
            Some(Keyword::Alias) => read_alias(words, opening, body)?,
            Some(found) => read_entry(words, found, body)?,
        }
    }
    Ok(None)
}
