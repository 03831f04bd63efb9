//! What expressions read and store, and what sets it.
use crate::links::Lead;
use ioc_calc::compile;
use ioc_fields::{FieldNo, FieldSlot, LinkRole, OwnField, RecordType};
use ioc_site::Word;
use ioc_site_records::{FieldOf, Report, Shown, Site, SiteRecord};
use std::alloc::AllocError;
use std::fmt;

/// How many letters an expression has.
const LETTERS: usize = 12;

/// The words of expressions that have a letter from A to L; each stands before those that it begins with.
const WORDS: [&[u8]; 17] = [
    b"ABS",
    b"AND",
    b"CEIL",
    b"D2R",
    b"FINITE",
    b"FLOOR",
    b"INFINITY",
    b"INF",
    b"ISINF",
    b"ISNAN",
    b"MAX",
    b"MIN",
    b"NAN",
    b"NINT",
    b"PI",
    b"R2D",
    b"VAL",
];

/// A letter from A to L, by its slot.
#[derive(Clone, Copy)]
struct Letter(FieldSlot);

impl Letter {
    // Returns the letter as a capital.
    fn capital(self) -> u8 {
        b"ABCDEFGHIJKLMNOP"
            .get(self.0.index())
            .copied()
            .unwrap_or(b'?')
    }

    // Returns the field that has its number.
    fn field(self) -> FieldNo {
        FieldNo::Own(OwnField::Letter(self.0))
    }

    // Returns the field that has its link.
    fn input(self) -> FieldNo {
        FieldNo::Own(OwnField::InputLink(self.0))
    }
}

impl fmt::Display for Letter {
    fn fmt<W: fmt::Write>(&self, f: &mut fmt::Formatter<W>) -> fmt::Result {
        f.write_char(char::from(self.capital()))
    }
}

/// How expressions use a letter.
#[derive(Clone, Copy)]
struct Uses {
    is_read: bool,
    is_stored: bool,
}

// Returns how many bytes the number at the front of an expression without fault has, up to the sign of its exponent.
fn number_length(text: &[u8]) -> usize {
    if let [b'0', b'x' | b'X', digits @ ..] = text {
        let more = digits.iter().take_while(|b| b.is_ascii_hexdigit()).count();
        return more.saturating_add(2);
    }
    let length = text
        .iter()
        .take_while(|b| b.is_ascii_digit() || **b == b'.')
        .count();
    match text.get(length) {
        Some(b'e' | b'E') => length.saturating_add(1),
        _ => length,
    }
}

// Returns how many bytes the token at the front of an expression without fault has; of signs, and of words without a
// letter from A to L, its first byte counts alone.
fn token_length(text: &[u8]) -> usize {
    match text {
        [b'0'..=b'9' | b'.', ..] => number_length(text),
        _ => {
            for word in WORDS {
                let front = text.get(..word.len()).unwrap_or(&[]);
                if front.eq_ignore_ascii_case(word) {
                    return word.len();
                }
            }
            1
        }
    }
}

// Returns whether the token is the letter, in either case.
fn is_letter(token: &[u8], letter: Letter) -> bool {
    match token {
        [byte] => byte.to_ascii_uppercase() == letter.capital(),
        _ => false,
    }
}

// Returns how an expression uses the letter. One with a fault is said to do both.
fn uses_in(text: &[u8], letter: Letter) -> Uses {
    let mut uses = Uses {
        is_read: false,
        is_stored: false,
    };
    if compile(text).is_err() {
        return Uses {
            is_read: true,
            is_stored: true,
        };
    }
    let mut rest = text;
    for _ in 0..text.len() {
        let length = token_length(rest);
        let (token, behind) = (rest.get(..length), rest.get(length..).unwrap_or(&[]));
        if is_letter(token.unwrap_or(&[]), letter) {
            if behind.trim_ascii_start().starts_with(b":=") {
                uses.is_stored = true;
            } else {
                uses.is_read = true;
            }
        }
        rest = behind;
    }
    uses
}

// Returns how the expressions of a record use the letter.
fn uses_of(record: &SiteRecord<'_>, letter: Letter) -> Uses {
    let mut all = Uses {
        is_read: false,
        is_stored: false,
    };
    for field in [OwnField::Calc, OwnField::Ocal] {
        if let Some(word) = record.value(FieldNo::Own(field)) {
            let uses = uses_in(word.text.as_slice(), letter);
            all.is_read = all.is_read || uses.is_read;
            all.is_stored = all.is_stored || uses.is_stored;
        }
    }
    all
}

// Returns whether a link leads to the field of the record.
fn leads_to(lead: &Lead<'_>, record: usize, field: FieldNo) -> bool {
    lead.to == record && lead.target == field
}

// Returns whether a link writes the field.
fn is_written(leads: &[Lead<'_>], record: usize, field: FieldNo) -> bool {
    for lead in leads {
        if leads_to(lead, record, field) && lead.role == LinkRole::Output {
            return true;
        }
    }
    false
}

// Returns whether a link reads the field.
fn is_read(leads: &[Lead<'_>], record: usize, field: FieldNo) -> bool {
    for lead in leads {
        if leads_to(lead, record, field) && lead.role != LinkRole::Output {
            return true;
        }
    }
    false
}

// Returns the text of a field, if there is one.
fn text_of<'a>(record: &SiteRecord<'a>, field: FieldNo) -> Option<&'a Word> {
    let word = record.value(field)?;
    if word.text.as_slice().trim_ascii().is_empty() {
        None
    } else {
        Some(word)
    }
}

/// A record with expressions, and its number.
#[derive(Clone, Copy)]
struct Calculating<'s, 'a> {
    number: usize,
    record: &'s SiteRecord<'a>,
    leads: &'s [Lead<'a>],
}

impl Calculating<'_, '_> {
    // Reports a letter that is read and that nothing sets.
    fn check_unset(&self, letter: Letter, report: &mut Report) -> Result<(), AllocError> {
        let calc = FieldNo::Own(OwnField::Calc);
        let Some(word) = self.record.value(calc) else {
            return Ok(());
        };
        let is_set = text_of(self.record, letter.field()).is_some()
            || text_of(self.record, letter.input()).is_some()
            || is_written(self.leads, self.number, letter.field());
        if is_set {
            return Ok(());
        }
        let shown = Shown(self.record.name.text.as_slice());
        let text = format!(in report.alloc;
            "record {shown} calculates with {letter}, which only a put sets: it has no INP{letter}"
        )?;
        report.warning(word.place, text)
    }

    // Reports an input that no expression uses.
    fn check_unread(&self, letter: Letter, report: &mut Report) -> Result<(), AllocError> {
        let Some(word) = text_of(self.record, letter.input()) else {
            return Ok(());
        };
        if is_read(self.leads, self.number, letter.field()) {
            return Ok(());
        }
        let owner = FieldOf {
            field: letter.input(),
            record: self.record.name.text.as_slice(),
        };
        let text = format!(in report.alloc;
            "{owner} is read, and no expression of it uses {letter}"
        )?;
        report.warning(word.place, text)
    }

    // Reports what is wrong with one letter.
    fn check(&self, letter: Letter, report: &mut Report) -> Result<(), AllocError> {
        let uses = uses_of(self.record, letter);
        if !uses.is_read {
            return self.check_unread(letter, report);
        }
        if uses.is_stored {
            return Ok(());
        }
        self.check_unset(letter, report)
    }
}

// Returns whether the type computes its VAL.
fn computes(record_type: Option<RecordType>) -> bool {
    matches!(
        record_type,
        Some(RecordType::Calc | RecordType::Calcout | RecordType::Sel)
    )
}

// Reports a link that writes VAL of a record whose processing computes VAL again.
fn check_overwritten(
    site: &Site<'_>,
    lead: &Lead<'_>,
    report: &mut Report,
) -> Result<(), AllocError> {
    let Some(record) = site.records.get(lead.to) else {
        return Ok(());
    };
    let is_lost = lead.role == LinkRole::Output
        && lead.flags.process_passive
        && lead.target == FieldNo::Own(OwnField::Val)
        && computes(record.record_type);
    let Some(from) = site.records.get(lead.from) else {
        return Ok(());
    };
    if !is_lost {
        return Ok(());
    }
    let owner = FieldOf {
        field: lead.field,
        record: from.name.text.as_slice(),
    };
    let shown = Shown(record.name.text.as_slice());
    let text = format!(in report.alloc;
        "{owner} writes VAL of {shown}, whose processing computes VAL again; write one of its inputs"
    )?;
    report.warning(lead.word.place, text)
}

/// Reports letters that nothing sets, inputs that no expression uses, and links that write a VAL that
/// processing computes again.
///
/// # Errors
///
/// [`AllocError`] if allocation fails.
pub fn check_calculations<'s, 'a>(
    site: &'s Site<'a>,
    leads: &'s [Lead<'a>],
    report: &mut Report,
) -> Result<(), AllocError> {
    for lead in leads {
        check_overwritten(site, lead, report)?;
    }
    for (number, record) in site.records.iter().enumerate() {
        let has_expressions = matches!(
            record.record_type,
            Some(RecordType::Calc | RecordType::Calcout)
        );
        if !has_expressions || record.is_faulty {
            continue;
        }
        let calculating = Calculating {
            number,
            record,
            leads,
        };
        for letter in (0..LETTERS).filter_map(FieldSlot::from_index) {
            calculating.check(Letter(letter), report)?;
        }
    }
    Ok(())
}
