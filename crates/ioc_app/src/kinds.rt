//! What programs ask about record types: the kinds of their fields, and the choices of menus.
use crate::caller::LineFault;
use ioc_commands::read_text;
use ioc_fields::field_list::fields;
use ioc_fields::{FieldKind, RecordType, field, kind_of, name_of, row_of};
use ioc_menus::{Menu, choices};
use ioc_values::number::decimal;
use ioc_values::{Input, IocError, Range, Value};
use std::alloc::{AllocError, Global};

// The menus with the names that EPICS has for them.
static MENUS: [(Menu, &str); 13] = [
    (Menu::Severity, "menuAlarmSevr"),
    (Menu::Status, "menuAlarmStat"),
    (Menu::Scan, "menuScan"),
    (Menu::Priority, "menuPriority"),
    (Menu::Pini, "menuPini"),
    (Menu::Omsl, "menuOmsl"),
    (Menu::Ivoa, "menuIvoa"),
    (Menu::Selm, "fanoutSELM"),
    (Menu::Linr, "menuConvert"),
    (Menu::Oif, "aoOIF"),
    (Menu::Oopt, "calcoutOOPT"),
    (Menu::Dopt, "calcoutDOPT"),
    (Menu::Selmode, "selSELM"),
];

// Returns the name of a menu.
fn menu_name(menu: Menu) -> &'static str {
    for (known, name) in &MENUS {
        if *known == menu {
            return name;
        }
    }
    ""
}

// Returns the menu with this name.
fn menu_named(name: &[u8]) -> Option<Menu> {
    for (menu, known) in &MENUS {
        if known.as_bytes() == name {
            return Some(*menu);
        }
    }
    None
}

// Returns the word for the numbers that a field holds.
fn number_word(range: Range) -> &'static str {
    match range {
        Range::Long => "long",
        Range::ULong => "ulong",
        Range::Short | Range::Zero => "short",
        Range::UShort | Range::Enum | Range::Bits | Range::Digits => "ushort",
        Range::UChar => "uchar",
        Range::Int64 => "int64",
    }
}

// Appends the words for what a field holds.
fn add_kind(said: &mut Vec<u8>, kind: FieldKind) -> Result<(), AllocError> {
    match kind {
        FieldKind::Number(range) => said.extend_from_slice(number_word(range).as_bytes()),
        FieldKind::Double => said.extend_from_slice(b"double"),
        FieldKind::Text => said.extend_from_slice(b"text"),
        FieldKind::Expression => said.extend_from_slice(b"expression"),
        FieldKind::State => said.extend_from_slice(b"states"),
        FieldKind::Link(_) => said.extend_from_slice(b"link"),
        FieldKind::Menu(menu) => {
            said.extend_from_slice(b"menu ")?;
            said.extend_from_slice(menu_name(menu).as_bytes())
        }
    }
}

/// Appends a line `- F KIND` for each field of a record type, with ` put` behind it if the field can
/// be put. Returns how many.
///
/// # Errors
///
/// [`AllocError`] if allocation fails.
pub fn add_kinds(said: &mut Vec<u8>, record_type: RecordType) -> Result<u64, AllocError> {
    let mut count = 0u64;
    for field in fields() {
        if let Some(row) = row_of(record_type, *field) {
            said.extend_from_slice(b"- ")?;
            said.extend_from_slice(name_of(*field).as_bytes())?;
            said.push(b' ')?;
            add_kind(said, row.kind)?;
            said.extend_from_slice(if row.can_put { b" put\n" } else { b"\n" })?;
            count = count.saturating_add(1);
        }
    }
    Ok(count)
}

/// Appends a line `- N TEXT` for each choice of the menu with this name, and returns how many; `None`
/// if there is no such menu.
///
/// # Errors
///
/// [`AllocError`] if allocation fails.
pub fn add_choices(
    alloc: Global,
    said: &mut Vec<u8>,
    name: &[u8],
) -> Result<Option<u64>, AllocError> {
    let Some(menu) = menu_named(name) else {
        return Ok(None);
    };
    let mut number = 0u64;
    for text in choices(menu) {
        let line = format!(in alloc; "- {number} {text}\n")?;
        said.extend_from_slice(line.as_bytes())?;
        number = number.saturating_add(1);
    }
    Ok(Some(number))
}

// Returns the choice or the state of a program's number.
fn choice_of(text: &[u8]) -> Result<Input, LineFault> {
    match decimal(text) {
        Some(number) if number < 65536 => Ok(Input::Value(Value::Enum(number as u16))),
        _ => Err(LineFault::Refused(IocError::BadValue)),
    }
}

/// Returns the value that a program puts into a field of this record type: for a menu or a state its
/// number, and else a text with escapes. Returns `None` if a backslash begins no escape.
///
/// # Errors
///
/// A refusal with [`IocError::BadValue`] if the text is no number of a choice or a state.
pub fn given_by(
    record_type: Option<RecordType>,
    name: &[u8],
    text: &[u8],
) -> Result<Option<Input>, LineFault> {
    if let Some(record_type) = record_type {
        if let Some(number) = field(record_type, name) {
            if let Some(FieldKind::Menu(_) | FieldKind::State) = kind_of(record_type, number) {
                return Ok(Some(choice_of(text)?));
            }
        }
    }
    match read_text(text) {
        Some(text) => Ok(Some(Input::from_text(text.as_slice()))),
        None => Ok(None),
    }
}
