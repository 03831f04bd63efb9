//! Expressions of calc records.
use ioc_calc::{CalcFault, CalcFaultKind, LeftOut, compile};
use ioc_site::{Place, Word};
use ioc_site_records::{FieldOf, Report};
use ioc_spelling::nearest;
use std::alloc::{AllocError, Global};
use std::fmt;

/// The words of an expression, but for its inputs and for numbers.
const WORDS: [&str; 16] = [
    "ABS", "AND", "CEIL", "FINITE", "FLOOR", "ISINF", "ISNAN", "MAX", "MIN", "NINT", "NOT", "OR",
    "SQR", "SQRT", "VAL", "XOR",
];

/// What is wrong with an expression, and the byte, counted from 0, at which it stands.
#[derive(Drop)]
pub struct ExpressionFault {
    pub byte: usize,
    pub text: String,
}

// What may have been meant where an expression can't go on.
#[derive(Clone, Copy)]
enum Continuation {
    Nothing,
    Word(&'static str),
    /// `A?B:C`
    Choice,
    /// A letter from A to L.
    Input,
    /// `)` at the end.
    Bracket,
    /// `:` and a value at the end.
    Colon,
}

impl fmt::Display for Continuation {
    fn fmt<W: fmt::Write>(&self, f: &mut fmt::Formatter<W>) -> fmt::Result {
        match self {
            Continuation::Nothing => Ok(()),
            Continuation::Word(word) => write!(f, "; did you mean {word}?"),
            Continuation::Choice => f.write_str("; write A?B:C"),
            Continuation::Input => f.write_str("; inputs are A to L"),
            Continuation::Bracket => f.write_str("; put ')' at its end"),
            Continuation::Colon => f.write_str("; put ':' and a value at its end"),
        }
    }
}

// Returns how many letters and digits the text begins with.
fn leading_count(text: &[u8]) -> usize {
    let mut count = 0usize;
    for b in text {
        if !b.is_ascii_alphanumeric() {
            return count;
        }
        count = count.saturating_add(1);
    }
    count
}

// Returns how many letters and digits the text ends with.
fn trailing_count(text: &[u8]) -> usize {
    let mut count = 0usize;
    for b in text {
        count = if b.is_ascii_alphanumeric() {
            count.saturating_add(1)
        } else {
            0
        };
    }
    count
}

// Returns the word at a byte of an expression, and where it begins.
fn word_at(text: &[u8], byte: usize) -> (usize, &[u8]) {
    let before = text.get(..byte).unwrap_or(text);
    let first = before.len().saturating_sub(trailing_count(before));
    let rest = text.get(first..).unwrap_or(&[]);
    (first, rest.get(..leading_count(rest)).unwrap_or(rest))
}

// Returns how often the byte is in the text.
fn count_of(sign: u8, text: &[u8]) -> usize {
    let mut count = 0usize;
    for byte in text {
        if *byte == sign {
            count = count.saturating_add(1);
        }
    }
    count
}

// Returns what is missing at the end of an expression.
fn missing_in(text: &[u8]) -> Continuation {
    if count_of(b')', text) < count_of(b'(', text) {
        Continuation::Bracket
    } else if count_of(b':', text) < count_of(b'?', text) {
        Continuation::Colon
    } else {
        Continuation::Nothing
    }
}

// Returns what may have been meant at this byte of an expression or before it, and where it begins.
fn meant(alloc: Global, text: &[u8], byte: usize) -> Result<(usize, Continuation), AllocError> {
    for first in [byte.saturating_sub(1), byte] {
        if text.get(first..).unwrap_or(&[]).starts_with(b"<>") {
            return Ok((first, Continuation::Word("#")));
        }
    }
    if byte >= text.len() {
        return Ok((byte, missing_in(text)));
    }
    let (first, word) = word_at(text, byte);
    let known: &'static [&'static str] = &WORDS;
    Ok(match word {
        [] => (byte, Continuation::Nothing),
        [b'M'..=b'Z' | b'm'..=b'z'] => (first, Continuation::Input),
        [b'I' | b'i', b'F' | b'f'] => (first, Continuation::Choice),
        _ => match nearest(alloc, word, known)? {
            Some(name) if name.as_bytes() != word => (first, Continuation::Word(name)),
            _ => (byte, Continuation::Nothing),
        },
    })
}

// Returns what is said of a function or a sign that is left out: what there is in its place.
fn replaced_by(word: LeftOut) -> &'static str {
    match word {
        LeftOut::Caret | LeftOut::Stars => {
            ", unless a whole number from 0 to 64 follows it; SQR gives the square root"
        }
        _ => "; a driver can compute it (docs/DRIVERS.md)",
    }
}

// Returns what is said of a word that is left out.
fn left_out(alloc: Global, word: LeftOut) -> Result<String, AllocError> {
    let (name, rest) = (word.name(), replaced_by(word));
    format!(in alloc; "{name} is known to EPICS and left out here{rest}")
}

/// Returns what is wrong with a text that is no expression.
///
/// # Errors
///
/// [`AllocError`] if allocation fails.
pub fn expression_fault(
    alloc: Global,
    text: &[u8],
    fault: CalcFault,
) -> Result<ExpressionFault, AllocError> {
    let (byte, hint) = meant(alloc, text, fault.byte)?;
    let (byte, text) = match fault.kind {
        CalcFaultKind::LeftOut(word) => (fault.byte, left_out(alloc, word)?),
        CalcFaultKind::Bad if text.is_empty() => {
            (byte, String::from_str(alloc, "there is no expression")?)
        }
        CalcFaultKind::Bad if text.len() > 79 => {
            (
                byte,
                String::from_str(alloc, "an expression has at most 79 bytes")?,
            )
        }
        CalcFaultKind::Bad => {
            let said = format!(in alloc; "the expression can't go on like this{hint}")?;
            (byte, said)
        }
    };
    Ok(ExpressionFault { byte, text })
}

// Returns the place of a byte of a word, if no macro stands before it.
fn place_in(word: &Word, byte: usize) -> Place {
    let before = byte.saturating_add(usize::from(word.quoted));
    let count = u32::try_from(before).unwrap_or(u32::MAX);
    Place {
        column: word.place.column.saturating_add(count),
        ..word.place
    }
}

/// Checks an expression, and returns whether it is allowed. What is wrong is reported.
///
/// # Errors
///
/// [`AllocError`] if allocation fails.
pub fn accepts_expression(
    owner: &FieldOf<'_>,
    word: &Word,
    report: &mut Report,
) -> Result<bool, AllocError> {
    let text = word.text.as_slice();
    let Err(refused) = compile(text) else {
        return Ok(true);
    };
    let fault = expression_fault(report.alloc, text, refused)?;
    let said = &fault.text;
    let text = format!(in report.alloc; "{owner}: {said}")?;
    report.error(place_in(word, fault.byte), text)?;
    Ok(false)
}
