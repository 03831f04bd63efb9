//! Why a line asks for nothing.
use crate::help::Verbs;
use crate::layout::LayoutFault;
use crate::parts::cut_at;
use crate::quoted::Quoted;
use crate::table::FormsOf;
use crate::verb::{Dialect, Verb};
use ioc_values::number::decimal;
use std::fmt;

/// Why a line asks for nothing.
///
/// ```rust
/// // 'sets x' has a word too many.
/// let bad = BadLine::of(Dialect::Script, b"sets x");
/// ```
#[derive(Clone, Copy)]
pub enum BadLine<'a> {
    /// Its layout is wrong.
    Layout(LayoutFault<'a>),
    /// No command of this speaker begins with this word.
    NoCommand(Dialect, Quoted<'a>),
    /// The line expects a reply, but replies aren't compared.
    Untested,
    /// The command with this first word lacks another.
    Lacks(Verb),
    /// The command with this first word has more behind its last one.
    TooMuch(Verb, &'a [u8]),
    /// This word has no field.
    NoField(Quoted<'a>),
    /// This word is no number.
    NoNumber(Quoted<'a>),
    /// This text is no period.
    NoPeriod(Quoted<'a>),
    /// This word is no answer of a device.
    NoAnswer(Quoted<'a>),
}

// The periods of SCAN.
const PERIODS: &str = "10 second, 5 second, 2 second, 1 second, .5 second, .2 second, .1 second";

// What is wrong behind the last word of a command.
fn behind_last<'a>(verb: Verb, rest: Option<&'a [u8]>) -> BadLine<'a> {
    match rest {
        Some(rest) => BadLine::TooMuch(verb, rest),
        None => BadLine::Lacks(verb),
    }
}

// What is wrong with a number, or behind it.
fn with_number<'a>(verb: Verb, word: &'a [u8], rest: Option<&'a [u8]>) -> BadLine<'a> {
    match decimal(word) {
        Some(_) => behind_last(verb, rest),
        None => BadLine::NoNumber(Quoted(word)),
    }
}

// What is wrong with a field, or behind it.
fn with_field<'a>(verb: Verb, word: &'a [u8], rest: Option<&'a [u8]>) -> BadLine<'a> {
    match cut_at(word, b'.') {
        (_, Some(_)) => behind_last(verb, rest),
        (_, None) => BadLine::NoField(Quoted(word)),
    }
}

// What is wrong with the words of `next` behind the record's name.
fn with_answer<'a>(verb: Verb, words: Option<&'a [u8]>) -> BadLine<'a> {
    let Some(words) = words else {
        return BadLine::Lacks(verb);
    };
    let (word, rest) = cut_at(words, b' ');
    match word {
        b"fault" | b"later" => behind_last(verb, rest),
        _ => BadLine::NoAnswer(Quoted(word)),
    }
}

// What is wrong with the words of `done` or `fault` behind the record's name.
fn with_wait<'a>(verb: Verb, words: Option<&'a [u8]>) -> BadLine<'a> {
    match words {
        Some(words) if verb == Verb::Done => {
            let (word, rest) = cut_at(words, b' ');
            with_number(verb, word, rest)
        }
        Some(words) => BadLine::NoNumber(Quoted(words)),
        None => BadLine::Lacks(verb),
    }
}

// What is wrong with the words of a command.
fn by_verb<'a>(verb: Verb, words: &'a [u8]) -> BadLine<'a> {
    let (word, rest) = cut_at(words, b' ');
    match verb {
        Verb::Put
        | Verb::Get
        | Verb::Link
        | Verb::Notify
        | Verb::Dbpf
        | Verb::Dbgf
        | Verb::PutPlaced
        | Verb::NotifyPlaced => with_field(verb, word, rest),
        Verb::At | Verb::Cancel | Verb::Tick => with_number(verb, word, rest),
        Verb::Scan => BadLine::NoPeriod(Quoted(words)),
        Verb::Sets
        | Verb::Tally
        | Verb::Checkpoint
        | Verb::Records
        | Verb::Status
        | Verb::Help
        | Verb::Exit => BadLine::TooMuch(verb, words),
        _ if word.is_empty() => BadLine::Lacks(verb),
        Verb::Next => with_answer(verb, rest),
        Verb::Done | Verb::Fault => with_wait(verb, rest),
        _ => behind_last(verb, rest),
    }
}

impl<'a> BadLine<'a> {
    /// Returns why a line asks for nothing.
    pub fn of(dialect: Dialect, line: &'a [u8]) -> Self {
        if let Some(fault) = LayoutFault::of(dialect, line) {
            return BadLine::Layout(fault);
        }
        let (word, words) = cut_at(line, b' ');
        match (Verb::from_word(word), words) {
            (Some(verb), None) if dialect.knows(verb) => BadLine::Lacks(verb),
            (Some(verb), Some(words)) if dialect.knows(verb) => by_verb(verb, words),
            _ if word == b"expect".as_slice() => BadLine::Untested,
            _ => BadLine::NoCommand(dialect, Quoted(word)),
        }
    }
}

impl fmt::Display for BadLine<'_> {
    fn fmt<W: fmt::Write>(&self, f: &mut fmt::Formatter<W>) -> fmt::Result {
        match self {
            BadLine::Layout(fault) => fault.fmt(f),
            BadLine::NoCommand(dialect, word) => {
                write!(f, "no command {word}; there are: {}", Verbs(*dialect))
            }
            BadLine::Untested => f.write_str("expect is a command with --test alone"),
            BadLine::Lacks(verb) => {
                let forms = FormsOf(*verb);
                write!(f, "a word is missing; the line has the form: {forms}")
            }
            BadLine::TooMuch(verb, []) => {
                write!(
                    f,
                    "a space at the end; the line has the form: {}",
                    FormsOf(*verb)
                )
            }
            BadLine::TooMuch(verb, rest) => {
                let rest = Quoted(rest);
                write!(
                    f,
                    "{rest} is too much; the line has the form: {}",
                    FormsOf(*verb)
                )
            }
            BadLine::NoField(word) => {
                write!(f, "{word} has no field; a field is written as REC.VAL")
            }
            BadLine::NoNumber(word) => {
                write!(f, "{word} is no number of decimal digits below 2^64")
            }
            BadLine::NoPeriod(word) => write!(f, "{word} is no period; there are: {PERIODS}"),
            BadLine::NoAnswer(word) => write!(f, "{word} is none of done, fault and later"),
        }
    }
}
