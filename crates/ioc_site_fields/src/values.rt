//! The values of fields that aren't links.
use crate::expressions::accepts_expression;
use crate::link_texts::{accepts_link, constant_kind, split_at_sign};
use ioc_fields::{CommonField, FieldKind, FieldNo, FieldSlot, OwnField, RecordType};
use ioc_menus::{Menu, choices};
use ioc_site::Word;
use ioc_site_records::{
    FieldOf, Instead, Listed, Meant, Report, Shown, SiteRecord, left_out_choice,
};
use ioc_spelling::nearest;
use ioc_values::number::is_number;
use ioc_values::trim::trim;
use ioc_values::{Kind, MAX_TEXT_BYTES, Range, Text, convert_text};
use std::alloc::AllocError;
use std::fmt;

/// The range of a number as it is shown.
#[derive(Clone, Copy)]
pub struct Limits(pub Range);

impl fmt::Display for Limits {
    fn fmt<W: fmt::Write>(&self, f: &mut fmt::Formatter<W>) -> fmt::Result {
        match self.0 {
            Range::Long => write!(f, "{} to {}", i32::MIN, i32::MAX),
            Range::ULong => write!(f, "0 to {}", u32::MAX),
            Range::Short => write!(f, "{} to {}", i16::MIN, i16::MAX),
            Range::UShort | Range::Enum => write!(f, "0 to {}", u16::MAX),
            Range::UChar => write!(f, "0 to {}", u8::MAX),
            Range::Int64 => write!(f, "{} to {}", i64::MIN, i64::MAX),
            Range::Zero => f.write_str("0 alone"),
            Range::Bits => f.write_str("0 to 32"),
            Range::Digits => f.write_str("0 to 15"),
        }
    }
}

// Checks the value of a number.
fn accepts_number(
    owner: &FieldOf<'_>,
    range: Range,
    word: &Word,
    report: &mut Report,
) -> Result<bool, AllocError> {
    let value = word.text.as_slice();
    if value.is_empty() || convert_text(value, Kind::Number(range)).is_ok() {
        return Ok(true);
    }
    let shown = Shown(value);
    let text = if is_number(trim(value, false)) {
        let limits = Limits(range);
        format!(in report.alloc; "{owner} takes {limits}, and {shown} is out of range")?
    } else {
        format!(in report.alloc; "{owner} takes a whole number, and '{shown}' is none")?
    };
    report.error(word.place, text)?;
    Ok(false)
}

// Checks the value of a double.
fn accepts_double(
    owner: &FieldOf<'_>,
    word: &Word,
    report: &mut Report,
) -> Result<bool, AllocError> {
    let value = word.text.as_slice();
    if value.is_empty() || convert_text(value, Kind::Double).is_ok() {
        return Ok(true);
    }
    let shown = Shown(value);
    let text = format!(in report.alloc;
        "{owner} takes a decimal, a hexadecimal whole number, nan or inf, and '{shown}' is none"
    )?;
    report.error(word.place, text)?;
    Ok(false)
}

// Checks the value of a menu.
fn accepts_choice(
    owner: &FieldOf<'_>,
    menu: Menu,
    word: &Word,
    report: &mut Report,
) -> Result<bool, AllocError> {
    let value = word.text.as_slice();
    let texts = choices(menu);
    if value.is_empty() || convert_text(value, Kind::Menu(texts)).is_ok() {
        return Ok(true);
    }
    let shown = Shown(value);
    let text = if let Some(instead) = left_out_choice(menu, value) {
        let instead = Instead(instead);
        format!(in report.alloc;
            "{owner} has '{shown}', which is known to EPICS and left out here{instead}"
        )?
    } else if let Some(choice) = nearest(report.alloc, value, texts)? {
        let meant = Meant(Some(choice));
        format!(in report.alloc; "{owner} has no choice '{shown}'{meant}")?
    } else {
        let listed = Listed(texts);
        format!(in report.alloc; "{owner} has no choice '{shown}'; its choices are {listed}")?
    };
    report.error(word.place, text)?;
    Ok(false)
}

// Returns the text of a state that stands in the record.
fn state_text(record: &SiteRecord<'_>, field: OwnField) -> Text {
    match record.value(FieldNo::Own(field)) {
        Some(word) => Text::cut(word.text.as_slice()),
        None => Text::new(),
    }
}

// Returns whether the value is a state of the record, of which two or sixteen have a text.
fn is_state(record: &SiteRecord<'_>, record_type: RecordType, value: &[u8]) -> bool {
    match record_type {
        RecordType::Bi | RecordType::Bo => {
            let texts = [
                state_text(record, OwnField::Znam),
                state_text(record, OwnField::Onam),
            ];
            convert_text(value, Kind::State(&texts)).is_ok()
        }
        _ => {
            let mut texts = [Text::new(); 16];
            for (number, text) in texts.iter_mut().enumerate() {
                if let Some(slot) = FieldSlot::from_index(number) {
                    *text = state_text(record, OwnField::StateText(slot));
                }
            }
            convert_text(value, Kind::State(&texts)).is_ok()
        }
    }
}

// Checks the value of a state.
fn accepts_state(
    record: &SiteRecord<'_>,
    record_type: RecordType,
    owner: &FieldOf<'_>,
    word: &Word,
    report: &mut Report,
) -> Result<bool, AllocError> {
    let value = word.text.as_slice();
    if value.is_empty() || is_state(record, record_type, value) {
        return Ok(true);
    }
    if record.has_unknown_field && !is_number(trim(value, false)) {
        return Ok(false);
    }
    let last = match record_type {
        RecordType::Bi | RecordType::Bo => 1,
        _ => 15,
    };
    let shown = Shown(value);
    let text = format!(in report.alloc;
        "{owner} takes 0 to {last} or a state whose text stands before it, and '{shown}' is neither"
    )?;
    report.error(word.place, text)?;
    Ok(false)
}

// Returns how many bytes EPICS Base and this project both keep of the text of the field.
fn kept_bytes(field: FieldNo) -> usize {
    match field {
        FieldNo::Own(OwnField::Egu) => 15,
        FieldNo::Own(OwnField::Znam | OwnField::Onam | OwnField::StateText(_)) => 25,
        FieldNo::Common(CommonField::Asg) => 28,
        _ => MAX_TEXT_BYTES,
    }
}

// Reports a text that is longer than what is kept of it.
fn check_length(owner: &FieldOf<'_>, word: &Word, report: &mut Report) -> Result<(), AllocError> {
    let (count, most) = (word.text.len(), kept_bytes(owner.field));
    if count <= most {
        return Ok(());
    }
    let text = if most == MAX_TEXT_BYTES {
        format!(in report.alloc; "{owner} has {count} bytes, and {most} are kept here")?
    } else {
        format!(in report.alloc; "{owner} has {count} bytes, and EPICS takes at most {most}")?
    };
    report.warning(word.place, text)
}

// Returns whether the value is JSON, which is written without quotes around it.
fn is_json(word: &Word) -> bool {
    !word.quoted && matches!(word.text.as_slice(), [b'{' | b'[', ..])
}

/// The end of a finding that names the constant of a JSON value, if it is one.
#[derive(Clone, Copy)]
struct Constant<'a>(Option<&'a [u8]>);

impl fmt::Display for Constant<'_> {
    fn fmt<W: fmt::Write>(&self, f: &mut fmt::Formatter<W>) -> fmt::Result {
        match self.0 {
            Some(constant) => write!(f, "; write {}", Shown(constant)),
            None => Ok(()),
        }
    }
}

// Returns the bytes without blanks and quotes around them.
fn bare(text: &[u8]) -> &[u8] {
    match text.trim_ascii() {
        [b'"', inner @ .., b'"'] => inner,
        [b'\'', inner @ .., b'\''] => inner,
        other => other,
    }
}

// Returns whether a JSON value is no list and no structure.
fn is_plain(value: &[u8]) -> bool {
    for byte in value {
        if matches!(*byte, b'{' | b'[' | b',' | b':') {
            return false;
        }
    }
    !value.is_empty()
}

// Returns the constant of a JSON value as `{const: 3}`.
fn json_constant(text: &[u8]) -> Option<&[u8]> {
    let inner = match text.trim_ascii() {
        [b'{', inner @ .., b'}'] => inner,
        _ => &[],
    };
    let (name, value) = split_at_sign(inner, b':');
    let constant = bare(value?);
    if bare(name) == b"const".as_slice() && is_plain(constant) {
        Some(constant)
    } else {
        None
    }
}

/// Checks the value of a field of this kind, and returns whether it is allowed. What is wrong is
/// reported, and so is a text that is too long.
///
/// # Errors
///
/// [`AllocError`] if allocation fails.
pub fn accepts(
    record: &SiteRecord<'_>,
    record_type: RecordType,
    field: (FieldNo, FieldKind),
    word: &Word,
    report: &mut Report,
) -> Result<bool, AllocError> {
    let (field, kind) = field;
    let owner = FieldOf {
        field,
        record: record.name.text.as_slice(),
    };
    if is_json(word) {
        let shown = Constant(json_constant(word.text.as_slice()));
        let text = format!(in report.alloc;
            "{owner} has a JSON value, which is left out here{shown}"
        )?;
        report.error(word.place, text)?;
        return Ok(false);
    }
    match kind {
        FieldKind::Number(range) => accepts_number(&owner, range, word, report),
        FieldKind::Double => accepts_double(&owner, word, report),
        FieldKind::Expression => accepts_expression(&owner, word, report),
        FieldKind::Menu(menu) => accepts_choice(&owner, menu, word, report),
        FieldKind::State => accepts_state(record, record_type, &owner, word, report),
        FieldKind::Link(role) => {
            let kind = constant_kind(record_type, field);
            accepts_link(&owner, role, kind, word, report)
        }
        FieldKind::Text => {
            check_length(&owner, word, report)?;
            Ok(true)
        }
    }
}
