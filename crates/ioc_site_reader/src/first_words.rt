//! What kind of file of a site a text is, by its first word.

/// Words that begin lines of other files of a site: substitution files, startup scripts and databases.
const SUBSTITUTIONS: [&[u8]; 2] = [b"file", b"global"];

const STARTUP: [&[u8]; 10] = [
    b"dbLoadDatabase",
    b"dbLoadRecords",
    b"dbLoadTemplate",
    b"drvAsynIPPortConfigure",
    b"drvAsynSerialPortConfigure",
    b"epicsEnvSet",
    b"iocInit",
    b"iocshLoad",
    b"require",
    b"cd",
];

const DATABASE: [&[u8]; 3] = [b"record", b"grecord", b"alias"];

/// A word, and where it stands in its text.
#[derive(Clone, Copy)]
pub struct FirstWord<'a> {
    pub text: &'a [u8],
    /// The line, from 1.
    pub line: u32,
    /// The byte of its line, from 1.
    pub column: u32,
}

/// Returns what is said behind a word that is a statement of another kind of file: of this one, which is a
/// substitution file or a database.
pub fn wrong_file(has_sets: bool, word: &[u8]) -> Option<&'static [u8]> {
    let remedy: &'static [u8] = if STARTUP.contains(&word) || word.starts_with(b"<") {
        b"' is a command of startup scripts; name the database files that this one loads"
    } else if !has_sets && SUBSTITUTIONS.contains(&word) {
        b"' is a statement of substitution files; give this file a name that ends in .substitutions"
    } else if has_sets && DATABASE.contains(&word) {
        b"' is a statement of databases; give this file a name that ends in .db"
    } else {
        return None;
    };
    Some(remedy)
}

/// A file that a startup script loads, and the macros with which it does.
#[derive(Clone, Copy)]
pub struct Loaded<'a> {
    pub file: &'a [u8],
    /// They are empty if there are none.
    pub macros: &'a [u8],
}

/// Returns what the first line `dbLoadRecords("FILE", "MACROS")` of a startup script loads.
pub fn first_loaded(text: &[u8]) -> Option<Loaded<'_>> {
    for line in text.split(|byte| *byte == b'\n') {
        if line.trim_ascii_start().starts_with(b"dbLoadRecords") {
            let mut parts = line.split(|byte| *byte == b'"');
            let _command = parts.next()?;
            let file = parts.next()?;
            let _comma = parts.next();
            let macros = parts.next().unwrap_or(&[]);
            return Some(Loaded { file, macros });
        }
    }
    None
}

/// Returns the length of the word at the front.
fn word_length(bytes: &[u8]) -> usize {
    for (at, byte) in bytes.iter().enumerate() {
        if byte.is_ascii_whitespace() || b"(){},\"".contains(byte) {
            return at;
        }
    }
    bytes.len()
}

/// Returns the word at the front of the first line that has one and is no comment.
pub fn first_word(text: &[u8]) -> Option<FirstWord<'_>> {
    let mut number = 0u32;
    for line in text.split(|byte| *byte == b'\n') {
        number = number.saturating_add(1);
        let solid = line.trim_ascii_start();
        let length = word_length(solid);
        if length > 0 && !solid.starts_with(b"#") {
            let before = line.len().saturating_sub(solid.len());
            return Some(FirstWord {
                text: solid.get(..length)?,
                line: number,
                column: u32::try_from(before).ok()?.saturating_add(1),
            });
        }
    }
    None
}
