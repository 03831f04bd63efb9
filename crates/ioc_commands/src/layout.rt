//! How a line is laid out: what is wrong with it before its words are looked at.
use crate::parts::cut_at;
use crate::quoted::Quoted;
use crate::verb::Dialect;
use std::fmt;

/// What is wrong with a line before its words are looked at.
#[derive(Clone, Copy)]
pub enum LayoutFault<'a> {
    /// The line has more bytes than a speaker's may have, which is this number.
    TooLong(usize),
    /// A byte order mark stands before the first word.
    ByteOrderMark,
    /// The line ends with a carriage return.
    CarriageReturn,
    /// The line is one of a database text.
    OfDatabase,
    /// A space stands before the first word.
    SpaceInFront,
    /// A tab stands before this word.
    Tab(Quoted<'a>),
    /// Two spaces stand before this word.
    TwoSpaces(Quoted<'a>),
}

// Returns whether a line is one of a database text.
fn is_of_database(line: &[u8]) -> bool {
    let text = line.trim_ascii_start();
    text.starts_with(b"record(")
        || text.starts_with(b"record (")
        || text.starts_with(b"grecord(")
        || text.starts_with(b"field(")
        || text.starts_with(b"alias(")
        || text == b"}".as_slice()
}

// Returns what stands behind a tab in a word, if there is one.
fn behind_tab(word: &[u8]) -> Option<LayoutFault<'_>> {
    match cut_at(word, b'\t') {
        (_, Some(rest)) => Some(LayoutFault::Tab(Quoted(cut_at(rest, b'\t').0))),
        (_, None) => None,
    }
}

// Returns what is wrong between the first two words of a line.
fn between_words(line: &[u8]) -> Option<LayoutFault<'_>> {
    let (verb, words) = cut_at(line, b' ');
    if let Some(fault) = behind_tab(verb) {
        return Some(fault);
    }
    match words? {
        [b' ', rest @ ..] => Some(LayoutFault::TwoSpaces(Quoted(cut_at(rest, b' ').0))),
        words => behind_tab(cut_at(words, b' ').0),
    }
}

impl<'a> LayoutFault<'a> {
    /// Returns what is wrong with a line before its words are looked at, if anything is.
    pub fn of(dialect: Dialect, line: &'a [u8]) -> Option<Self> {
        let most = dialect.most_bytes();
        if line.len() > most {
            return Some(LayoutFault::TooLong(most));
        }
        if is_of_database(line) {
            return Some(LayoutFault::OfDatabase);
        }
        match line {
            [0xEF, 0xBB, 0xBF, ..] => Some(LayoutFault::ByteOrderMark),
            [.., b'\r'] => Some(LayoutFault::CarriageReturn),
            [b' ', ..] => Some(LayoutFault::SpaceInFront),
            _ => between_words(line),
        }
    }
}

impl fmt::Display for LayoutFault<'_> {
    fn fmt<W: fmt::Write>(&self, f: &mut fmt::Formatter<W>) -> fmt::Result {
        match self {
            LayoutFault::TooLong(most) => write!(f, "a line has at most {most} bytes"),
            LayoutFault::ByteOrderMark => f.write_str("a byte order mark before the first word"),
            LayoutFault::CarriageReturn => {
                f.write_str("a carriage return at the end; a line feed alone ends a line")
            }
            LayoutFault::OfDatabase => {
                f.write_str("a line of a database text; are DB and SCRIPT exchanged?")
            }
            LayoutFault::SpaceInFront => f.write_str("a space before the first word"),
            LayoutFault::Tab(word) => write!(f, "tab before {word}; a space parts words"),
            LayoutFault::TwoSpaces(word) => {
                write!(f, "two spaces before {word}; one space parts words")
            }
        }
    }
}
