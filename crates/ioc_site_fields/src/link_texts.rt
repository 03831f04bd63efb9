//! The texts of link fields.
use crate::names::{NameFault, name_fault};
use crate::values::Limits;
use ioc_fields::{CommonField, FieldNo, LinkRole, OwnField, RecordType};
use ioc_links::{Link, LinkKind, MAX_LINK_BYTES, parse};
use ioc_site::Word;
use ioc_site_records::{FieldOf, Instead, Meant, Report, Shown, left_out_link_word, link_words};
use ioc_spelling::nearest;
use ioc_values::number::is_number;
use ioc_values::trim::trim;
use ioc_values::{Kind, MAX_FIELD_NAME_BYTES, MAX_TEXT_BYTES, Range, double_of_text, of_number};
use std::alloc::{AllocError, Global};
use std::fmt;

/// Why a text is no link.
#[derive(Clone, Copy)]
pub enum LinkFault<'a> {
    /// It has this many bytes.
    Long(usize),
    Json,
    /// It is the address of a card, which begins with `#`.
    Address,
    /// It is a number with a point or an exponent, of this many bytes.
    LongNumber(usize),
    /// It looks like a number with a point or an exponent, and is none.
    NoNumber,
    /// It is a number of more than 64 bits.
    LargeNumber,
    /// It is `@` and nothing behind it.
    NoDevice,
    /// It names a device, and the field can't.
    Device,
    /// It names a record, and no record can have this name.
    Record(&'a [u8], NameFault),
    /// It names a field, and no field can have this name.
    Field(&'a [u8]),
    /// It has this word of EPICS behind the name, which is left out, and what does the same here.
    LeftOutWord(&'a [u8], &'static str),
    /// It has this word behind the name.
    Word(&'a [u8]),
}

impl fmt::Display for LinkFault<'_> {
    fn fmt<W: fmt::Write>(&self, f: &mut fmt::Formatter<W>) -> fmt::Result {
        match self {
            LinkFault::Long(count) => {
                write!(f, "has {count} bytes, and a link at most {MAX_LINK_BYTES}")
            }
            LinkFault::Json => f.write_str("is JSON, which is left out here"),
            LinkFault::Address => f.write_str(
                "is a hardware address, which is left out here; write @ and a text",
            ),
            LinkFault::LongNumber(count) => write!(
                f,
                "has {count} bytes, and a number with a point or an exponent at most {MAX_TEXT_BYTES}"
            ),
            LinkFault::NoNumber => f.write_str("is no number"),
            LinkFault::LargeNumber => f.write_str("is a number of more than 64 bits"),
            LinkFault::NoDevice => f.write_str("names no device; write a text behind the @"),
            LinkFault::Device => f.write_str("names a device, and only INP and OUT can"),
            LinkFault::Record(name, fault) => {
                write!(
                    f,
                    "names record '{}', which can't be: {fault}",
                    Shown(*name)
                )
            }
            LinkFault::Field(name) => write!(
                f,
                "names field '{}', and fields have at most 8 capital letters or digits",
                Shown(*name)
            ),
            LinkFault::LeftOutWord(word, instead) => {
                let (word, instead) = (Shown(*word), Instead(*instead));
                write!(f, "has the word {word}, which is left out here{instead}")
            }
            LinkFault::Word(word) => write!(
                f,
                "has the word '{}', which is no word of links",
                Shown(*word)
            ),
        }
    }
}

// Splits the bytes before the first blank.
fn split_word(text: &[u8]) -> (&[u8], &[u8]) {
    for (count, b) in text.iter().enumerate() {
        if *b == b' ' || *b == b'\t' {
            return text.split_at(count);
        }
    }
    (text, &[])
}

/// Splits a text before this sign, where it stands first, which is in neither part.
pub fn split_at_sign(text: &[u8], sign: u8) -> (&[u8], Option<&[u8]>) {
    for (count, b) in text.iter().enumerate() {
        if *b == sign {
            let (front, rest) = text.split_at(count);
            return (front, rest.get(1..));
        }
    }
    (text, None)
}

// Returns whether the text looks like a number with a point or an exponent.
fn is_fraction(text: &[u8]) -> bool {
    let mut has_digit = false;
    for b in text {
        if b.is_ascii_digit() {
            has_digit = true;
        } else if !matches!(*b, b'+' | b'-' | b'.' | b'e' | b'E') {
            return false;
        }
    }
    has_digit && matches!(text, [b'0'..=b'9' | b'+' | b'-' | b'.', ..])
}

// Returns whether the word is one that this project takes behind the name in a link.
fn is_link_word(word: &[u8]) -> bool {
    for known in link_words() {
        if known.as_bytes() == word {
            return true;
        }
    }
    false
}

// Returns the fault of the words behind the name.
fn words_fault(words: &[u8]) -> Option<LinkFault<'_>> {
    for word in words.split(|b| *b == b' ' || *b == b'\t') {
        if let Some(instead) = left_out_link_word(word) {
            return Some(LinkFault::LeftOutWord(word, instead));
        }
        if !word.is_empty() && !is_link_word(word) {
            return Some(LinkFault::Word(word));
        }
    }
    None
}

// Returns whether a field can have this name.
fn is_field_name(name: &[u8]) -> bool {
    for b in name {
        if !b.is_ascii_uppercase() && !b.is_ascii_digit() {
            return false;
        }
    }
    !name.is_empty() && name.len() <= MAX_FIELD_NAME_BYTES
}

// Returns the fault of a link to a record.
fn target_fault(text: &[u8]) -> Option<LinkFault<'_>> {
    let (word, rest) = split_word(text);
    let (name, field) = split_at_sign(word, b'.');
    if let Some(fault) = name_fault(name) {
        return Some(LinkFault::Record(name, fault));
    }
    match field {
        Some(field) if !is_field_name(field) => Some(LinkFault::Field(field)),
        _ => words_fault(rest),
    }
}

/// Returns why the text is no link in a field of this kind. The text is one that isn't allowed.
pub fn link_fault(kind: LinkKind, text: &[u8]) -> Option<LinkFault<'_>> {
    if text.len() > MAX_LINK_BYTES {
        return Some(LinkFault::Long(text.len()));
    }
    let text = trim(text, true);
    if is_number(text) {
        return Some(LinkFault::LargeNumber);
    }
    if is_fraction(text) {
        let is_long = text.len() > MAX_TEXT_BYTES;
        let fault = if is_long {
            LinkFault::LongNumber(text.len())
        } else {
            LinkFault::NoNumber
        };
        return Some(fault);
    }
    match text {
        [b'{' | b'[', ..] => Some(LinkFault::Json),
        [b'#', ..] => Some(LinkFault::Address),
        [b'@', ..] if kind == LinkKind::NoDevice => Some(LinkFault::Device),
        [b'@', ..] => Some(LinkFault::NoDevice),
        _ => target_fault(text),
    }
}

// Returns the word of a link that may have been meant, if the fault is an unknown one.
fn meant_by(alloc: Global, fault: &LinkFault<'_>) -> Result<Option<&'static str>, AllocError> {
    match fault {
        LinkFault::Word(word) => nearest(alloc, word, link_words()),
        _ => Ok(None),
    }
}

/// What a constant in a link field must be.
#[derive(Clone, Copy)]
pub enum ConstantKind {
    /// A whole number in this range.
    Whole(Range),
    /// A double that isn't infinite.
    Double,
}

/// Returns what a constant in the link field must be, or `None` if any constant is allowed, also one
/// with a point or an exponent.
pub fn constant_kind(record_type: RecordType, field: FieldNo) -> Option<ConstantKind> {
    match (record_type, field) {
        (RecordType::Ai, FieldNo::Own(OwnField::Inp))
        | (RecordType::Ao, FieldNo::Own(OwnField::Dol))
        | (_, FieldNo::Own(OwnField::InputLink(_))) => Some(ConstantKind::Double),
        _ => constant_range(record_type, field).map(ConstantKind::Whole),
    }
}

// Returns the range of a constant in the link field, if it must be a whole number.
fn constant_range(record_type: RecordType, field: FieldNo) -> Option<Range> {
    match (record_type, field) {
        (_, FieldNo::Common(CommonField::Sdis)) => Some(Range::Short),
        (RecordType::Longin, FieldNo::Own(OwnField::Inp))
        | (RecordType::Longout, FieldNo::Own(OwnField::Dol)) => Some(Range::Long),
        (RecordType::Int64in, FieldNo::Own(OwnField::Inp))
        | (RecordType::Int64out, FieldNo::Own(OwnField::Dol)) => Some(Range::Int64),
        (RecordType::Bi | RecordType::Mbbi, FieldNo::Own(OwnField::Inp)) => Some(Range::ULong),
        (RecordType::Bo | RecordType::Mbbo, FieldNo::Own(OwnField::Dol))
        | (RecordType::Fanout, FieldNo::Own(OwnField::Sell))
        | (RecordType::Sel, FieldNo::Own(OwnField::Nvl)) => Some(Range::UShort),
        _ => None,
    }
}

/// Why a link isn't allowed in a field whose constants must convert.
#[derive(Clone, Copy)]
enum ConstantFault {
    /// It is a constant with a point or an exponent.
    NotWhole,
    OutOfRange(Range),
    /// It is too large for a double.
    TooLarge,
}

// Returns the fault of a constant that must be of this kind. No other link has one.
fn constant_fault(kind: Option<ConstantKind>, link: &Link) -> Option<ConstantFault> {
    match (kind?, link) {
        (ConstantKind::Whole(_), Link::Real(_)) => Some(ConstantFault::NotWhole),
        (ConstantKind::Whole(range), Link::Constant(constant)) => {
            match of_number(Kind::Number(range), *constant) {
                Some(_) => None,
                None => Some(ConstantFault::OutOfRange(range)),
            }
        }
        (ConstantKind::Double, Link::Real(text)) => match double_of_text(text.as_slice()) {
            Some(_) => None,
            None => Some(ConstantFault::TooLarge),
        },
        _ => None,
    }
}

/// Checks the text of a link field, in which a constant must be of this kind, and returns whether it
/// is allowed. What is wrong is reported.
///
/// # Errors
///
/// [`AllocError`] if allocation fails.
pub fn accepts_link(
    owner: &FieldOf<'_>,
    role: LinkRole,
    kind: Option<ConstantKind>,
    word: &Word,
    report: &mut Report,
) -> Result<bool, AllocError> {
    let value = word.text.as_slice();
    let shown = Shown(trim(value, true));
    let text = match parse(role.link_kind(), value) {
        Ok(link) => match constant_fault(kind, &link) {
            None => return Ok(true),
            Some(ConstantFault::NotWhole) => {
                format!(in report.alloc; "{owner}: '{shown}' is no whole number; scale it")?
            }
            Some(ConstantFault::TooLarge) => {
                format!(in report.alloc; "{owner}: '{shown}' is too large for a double")?
            }
            Some(ConstantFault::OutOfRange(range)) => {
                let limits = Limits(range);
                format!(in report.alloc;
                    "{owner} takes a constant {limits}, and {shown} is out of range"
                )?
            }
        },
        Err(_) if report.begins_refused(trim(value, true)) => return Ok(false),
        Err(_) => match link_fault(role.link_kind(), value) {
            Some(fault) => {
                let meant = Meant(meant_by(report.alloc, &fault)?);
                format!(in report.alloc; "{owner}: '{shown}' {fault}{meant}")?
            }
            None => format!(in report.alloc; "{owner}: '{shown}' is no link")?,
        },
    };
    report.error(word.place, text)?;
    Ok(false)
}
