//! When records are processed, and the devices of those that wait for interrupts.
use ioc_fields::{CommonField, FieldNo, OwnField, RecordType};
use ioc_links::{Link, LinkKind, parse};
use ioc_menus::{Menu, Omsl, Pini, Scan, choices};
use ioc_site_records::{
    FieldOf, Instead, Meant, Report, Shown, Site, SiteRecord, device_types, left_out_device_type,
};
use ioc_spelling::nearest;
use ioc_values::{Kind, Value, convert_text};
use std::alloc::AllocError;

/// Returns the number of the choice that the text sets in a field of this menu, or 0.
pub fn choice_in(record: &SiteRecord<'_>, field: FieldNo, menu: Menu) -> u16 {
    let Some(word) = record.value(field) else {
        return 0;
    };
    match convert_text(word.text.as_slice(), Kind::Menu(choices(menu))) {
        Ok(Value::Enum(number)) => number,
        _ => 0,
    }
}

/// Returns whether the SCAN of the record is Passive.
pub fn is_passive(record: &SiteRecord<'_>) -> bool {
    let field = FieldNo::Common(CommonField::Scan);
    choice_in(record, field, Menu::Scan) == Scan::Passive.number()
}

/// Returns whether the record is processed at the start.
pub fn is_processed_at_start(record: &SiteRecord<'_>) -> bool {
    let field = FieldNo::Common(CommonField::Pini);
    choice_in(record, field, Menu::Pini) == Pini::Yes.number()
}

/// Returns whether the output follows its DOL.
pub fn is_closed_loop(record: &SiteRecord<'_>) -> bool {
    let field = FieldNo::Own(OwnField::Omsl);
    choice_in(record, field, Menu::Omsl) == Omsl::ClosedLoop.number()
}

/// Returns the link in an own field of the record, if the text sets one.
pub fn own_link(record: &SiteRecord<'_>, field: OwnField) -> Option<Link> {
    let word = record.value(FieldNo::Own(field))?;
    parse(LinkKind::WithDevice, word.text.as_slice()).ok()
}

// Returns whether the record has a device link.
fn has_device(record: &SiteRecord<'_>) -> bool {
    is_device(own_link(record, OwnField::Inp)) || is_device(own_link(record, OwnField::Out))
}

// Returns whether a link that is there leads to a device.
fn is_device(link: Option<Link>) -> bool {
    matches!(link, Some(Link::Device(_)))
}

// Returns whether the type has a raw value.
fn has_raw_value(record_type: RecordType) -> bool {
    matches!(
        record_type,
        RecordType::Bi
            | RecordType::Bo
            | RecordType::Mbbi
            | RecordType::Mbbo
            | RecordType::Ai
            | RecordType::Ao
    )
}

// Returns whether device support of this name is the default, or has an effect here.
fn is_supported(record_type: RecordType, name: &[u8]) -> bool {
    match name {
        b"" | b"Soft Channel" => true,
        b"Raw Soft Channel" => has_raw_value(record_type),
        _ => false,
    }
}

// Reports a DTYP without effect. With a device link, DTYP names the device support of the site.
fn check_device_type(record: &SiteRecord<'_>, report: &mut Report) -> Result<(), AllocError> {
    let dtyp = record.value(FieldNo::Common(CommonField::Dtyp));
    let (Some(record_type), Some(word)) = (record.record_type, dtyp) else {
        return Ok(());
    };
    let name = word.text.as_slice();
    if is_supported(record_type, name) || has_device(record) {
        return Ok(());
    }
    let owner = FieldOf {
        field: FieldNo::Common(CommonField::Dtyp),
        record: record.name.text.as_slice(),
    };
    let shown = Shown(name);
    let text = if name == b"Raw Soft Channel".as_slice() {
        format!(in report.alloc; "{owner} is '{shown}', which has no effect here")?
    } else if let Some(instead) = left_out_device_type(name) {
        let instead = Instead(instead);
        format!(in report.alloc; "{owner} is '{shown}', which has no effect here{instead}")?
    } else {
        let meant = Meant(nearest(report.alloc, name, device_types())?);
        format!(in report.alloc; "{owner} is '{shown}', which is unknown{meant}")?
    };
    report.warning(word.place, text)
}

// Reports a record that waits for interrupts of a device that it doesn't have.
fn check_interrupts(record: &SiteRecord<'_>, report: &mut Report) -> Result<(), AllocError> {
    let field = FieldNo::Common(CommonField::Scan);
    let waits = choice_in(record, field, Menu::Scan) == Scan::IoIntr.number();
    let Some(word) = record.value(field) else {
        return Ok(());
    };
    if !waits || has_device(record) {
        return Ok(());
    }
    let owner = FieldOf {
        field,
        record: record.name.text.as_slice(),
    };
    let text = format!(in report.alloc; "{owner} is I/O Intr, and no device link is there")?;
    report.warning(word.place, text)
}

/// Reports what is odd about the devices of the records.
///
/// # Errors
///
/// [`AllocError`] if allocation fails.
pub fn check_devices(site: &Site<'_>, report: &mut Report) -> Result<(), AllocError> {
    for record in site.records.iter() {
        if !record.is_faulty {
            check_interrupts(record, report)?;
            check_device_type(record, report)?;
        }
    }
    Ok(())
}
