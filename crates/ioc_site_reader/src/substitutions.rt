//! Substitution files: templates, and the macros with which each is read.
use crate::words::Words;
use ioc_site::{Place, Word};
use ioc_site_lines::{Definition, Kind, Token, split_bare};
use ioc_spelling::nearest;
use std::alloc::{AllocError, Global};

/// A template, and the definitions of each of its readings.
#[derive(Drop)]
pub struct Group {
    pub template: Word,
    pub sets: Vec<Vec<Definition>>,
}

/// What is in `{ .. }`.
#[derive(Drop)]
struct Items {
    /// Where the bracket is.
    place: Place,
    list: Vec<Word>,
}

/// The words that begin statements.
const HEADINGS: &[&str] = &["file", "global"];

/// The word before the names of the macros that sets give values.
const PATTERN: &[&str] = &["pattern"];

/// Returns whether a statement begins with this word.
fn is_heading(token: &Token) -> bool {
    token.is_word("file") || token.is_word("global")
}

/// Returns whether a path is that of a substitution file.
pub fn is_substitution_file(path: &[u8]) -> bool {
    path.ends_with(b".substitutions") || path.ends_with(b".subs") || path.ends_with(b".sub")
}

/// Returns a text without the quotes around it.
fn unquoted(text: &[u8]) -> &[u8] {
    match text {
        [b'"', inner @ .., b'"'] => inner,
        _ => text,
    }
}

/// Passes what is before the next statement, of which something can't be read.
fn skip_to_heading(words: &mut Words) -> Result<(), AllocError> {
    words.lacks_records = true;
    for _ in 0..u64::MAX {
        words.stream.look()?;
        let stops = match &words.stream.ahead {
            Some(token) => is_heading(token),
            None => true,
        };
        if stops {
            break;
        }
        words.take()?;
    }
    Ok(())
}

/// Returns whether a token begins a file's statement, and not one of all files. If it begins
/// neither, that is reported.
fn begins_file(words: &mut Words, token: &Token) -> Result<Option<bool>, AllocError> {
    let text = token.bytes();
    if is_heading(token) {
        return Ok(Some(token.is_word("file")));
    }
    let place = token.place;
    if token.kind == Kind::Fault {
        words.report(place, &[text])?;
        return Ok(None);
    }
    match nearest(words.stream.alloc, text, HEADINGS)? {
        Some(name) => {
            words.report_misspelt(token, "statement", name)?;
            Ok(Some(name == "file"))
        }
        None => {
            let remedy = b"' is no statement of a substitution file; write file or global";
            words.report(place, &[b"'", text, remedy])?;
            Ok(None)
        }
    }
}

/// Takes `{ ITEM, .. }`. What is missing is reported.
fn expect_items(words: &mut Words) -> Result<Option<Items>, AllocError> {
    if !words.expect(b'{')? {
        return Ok(None);
    }
    let place = words.last;
    let mut list = Vec::new(words.stream.alloc);
    for _ in 0..u64::MAX {
        if words.is_at(b'}')? {
            words.take()?;
            break;
        }
        if words.is_at(b',')? {
            words.take()?;
        } else {
            let Some(item) = words.expect_text(b"'}'")? else {
                return Ok(None);
            };
            list.push(item)?;
        }
    }
    Ok(Some(Items { place, list }))
}

/// Appends copies of definitions.
fn extend(
    alloc: Global,
    set: &mut Vec<Definition>,
    definitions: &[Definition],
) -> Result<(), AllocError> {
    for definition in definitions {
        let name = definition.name.as_slice();
        set.push(Definition::new(alloc, name, definition.value.as_slice())?)?;
    }
    Ok(())
}

/// Adds the definitions of items `NAME=VALUE`. The first that is none is reported. Returns whether each is
/// one.
fn define(words: &mut Words, items: &Items, set: &mut Vec<Definition>) -> Result<bool, AllocError> {
    let mut is_reported = false;
    for item in &items.list {
        let text = item.text.as_slice();
        match split_bare(b'=', text) {
            (name, Some(value)) if !name.is_empty() => {
                set.push(Definition::new(words.stream.alloc, name, value)?)?;
            }
            _ if is_reported => {}
            _ => {
                is_reported = true;
                let remedy = b"' defines no macro; write NAME=VALUE";
                words.report(item.place, &[b"'", text, remedy])?;
            }
        }
    }
    Ok(!is_reported)
}

/// Returns the number with the word, which has an `s` unless it is one.
fn counted(alloc: Global, number: usize, word: &str) -> Result<String, AllocError> {
    let ending = if number == 1 { "" } else { "s" };
    format!(in alloc; "{number} {word}{ending}")
}

/// Adds the definitions of the pattern's macros by the values of a set. Returns whether each has one.
fn define_by(
    words: &mut Words,
    pattern: &Items,
    items: Items,
    set: &mut Vec<Definition>,
) -> Result<bool, AllocError> {
    let alloc = words.stream.alloc;
    let (count, given) = (pattern.list.len(), items.list.len());
    if count != given {
        let macros = counted(alloc, count, "macro")?;
        let values = counted(alloc, given, "value")?;
        let text = format!(in alloc;
            "the pattern has {macros} and this set {values}; give one for each"
        )?;
        words.report(items.place, &[text.as_bytes()])?;
    }
    for (name, item) in pattern.list.iter().zip(items.list) {
        let name = unquoted(name.text.as_slice()).to_vec(alloc)?;
        let value = item.text;
        set.push(Definition { name, value })?;
    }
    Ok(count <= given)
}

/// Returns whether the word `pattern` is next, or one that is near to it, which is reported.
fn is_at_pattern(words: &mut Words) -> Result<bool, AllocError> {
    words.stream.look()?;
    let Some(token) = &words.stream.ahead else {
        return Ok(false);
    };
    if token.kind != Kind::Word || token.is_word("pattern") {
        return Ok(token.kind == Kind::Word);
    }
    let (place, text) = (token.place, token.bytes().to_vec(words.stream.alloc)?);
    let is_near = nearest(words.stream.alloc, text.as_slice(), PATTERN)?.is_some();
    if is_near {
        let remedy = b"' begins no set; did you mean pattern?";
        words.report(place, &[b"'", text.as_slice(), remedy])?;
    }
    Ok(is_near)
}

/// Takes `pattern { .. }` if it is next.
fn take_pattern(words: &mut Words) -> Result<Option<Items>, AllocError> {
    if !is_at_pattern(words)? {
        return Ok(None);
    }
    words.take()?;
    expect_items(words)
}

/// Reads the sets of a file's statement behind its opening bracket, up to its closing one.
fn read_sets(
    words: &mut Words,
    globals: &[Definition],
    group: &mut Group,
) -> Result<(), AllocError> {
    let alloc = words.stream.alloc;
    let pattern = take_pattern(words)?;
    for _ in 0..u64::MAX {
        words.start();
        if words.is_at(b',')? {
            words.take()?;
        } else if words.stream.ahead.is_none() || words.is_at(b'}')? {
            words.expect(b'}')?;
            break;
        } else {
            let Some(items) = expect_items(words)? else {
                return skip_to_heading(words);
            };
            let mut set = Vec::new(alloc);
            extend(alloc, &mut set, globals)?;
            let is_whole = match &pattern {
                Some(pattern) => define_by(words, pattern, items, &mut set)?,
                None => define(words, &items, &mut set)?,
            };
            if is_whole {
                group.sets.push(set)?;
            } else {
                words.lacks_records = true;
            }
        }
    }
    Ok(())
}

/// Reads `NAME { .. }` of a file's statement.
fn read_group(
    words: &mut Words,
    globals: &[Definition],
    groups: &mut Vec<Group>,
) -> Result<(), AllocError> {
    let alloc = words.stream.alloc;
    let Some(mut template) = words.expect_text(b"the template's name")? else {
        return skip_to_heading(words);
    };
    template.text = unquoted(template.text.as_slice()).to_vec(alloc)?;
    if !words.expect(b'{')? {
        return skip_to_heading(words);
    }
    let sets = Vec::new(alloc);
    let mut group = Group { template, sets };
    read_sets(words, globals, &mut group)?;
    groups.push(group)?;
    Ok(())
}

/// Reads a substitution file, which is open.
///
/// # Errors
///
/// [`AllocError`] if allocation fails.
pub fn read_groups(words: &mut Words) -> Result<Vec<Group>, AllocError> {
    let mut groups = Vec::new(words.stream.alloc);
    let mut globals = Vec::new(words.stream.alloc);
    for _ in 0..u64::MAX {
        words.start();
        let Some(token) = words.take()? else {
            break;
        };
        match begins_file(words, &token)? {
            None => skip_to_heading(words)?,
            Some(true) => read_group(words, globals.as_slice(), &mut groups)?,
            Some(false) => match expect_items(words)? {
                Some(items) => {
                    if !define(words, &items, &mut globals)? {
                        words.lacks_records = true;
                    }
                }
                None => skip_to_heading(words)?,
            },
        }
    }
    Ok(groups)
}
