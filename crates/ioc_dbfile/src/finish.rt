//! The end of a load, which resolves links and puts constants.
ghost use Rattle.std.specs.Prelude.{◌≡◌, Some, IfOk, OnOk, map};
ghost use Rattle.rec_types.specs.Record.{record_rules};
ghost use Rattle.ioc_fields.specs.Table.{is_value_kind};
ghost use Rattle.ioc_dbfile.specs.Finished.{target_in, standing_of, leads_to, linked, linked_all, finished, by_place};
ghost use Rattle.ioc_dbfile.specs.Owners.{owner_of};
ghost use Rattle.ioc_dbfile.specs.OwnDevices.{owner_for, with_own_devices};

use crate::own_devices::{DeviceOwners, own_devices_of};
use crate::owners::owners_of;
use ioc_dbcommon::{FieldAddress, Lead, LinkBox, LinkField};
use ioc_fields::{FieldKind, FieldNo, RecordType, field, kind_of};
use ioc_links::{Link, Target};
use ioc_names::{Names, RecordNo};
use ioc_record::RecordKind;
use rec_types::Record;
use std::alloc::{AllocError, Global};

// What is known of all records when their links are resolved.
#[derive(Drop)]
struct Whole {
    types: Vec<RecordType>,
    owners: DeviceOwners,
}

// Returns whether a field of this kind has a value.
fn has_value(kind: Option<FieldKind>) -> bool
    ensures { result ≡ is_value_kind kind }
{
    !matches!(kind, Some(FieldKind::Link(_) | FieldKind::Expression))
}

/// Returns the field with this name, in a record of this type and number, as the target of a link,
/// or `None` if there is no such field or it has no value, being a link field itself or an expression.
pub fn target_field(number: RecordNo, record_type: RecordType, name: &[u8]) -> Option<FieldAddress>
    ensures { result ≡ target_in number name.now (Some record_type) }
{
    let field = field(record_type, name)?;
    if !has_value(kind_of(record_type, field)) {
        return None;
    }
    Some(FieldAddress { number, field })
}

/// Returns the field that a database link leads to, or `None` if the record or field doesn't exist
/// or the field has no value.
#[tactic(auto, unfolding(crate::specs::Finished::standing_of))]
fn standing_of(names: &Names, types: &[RecordType], target: &Target) -> Option<FieldAddress>
    ensures { result ≡ standing_of names.now types.now target.now }
{
    let number = names.find(target.record_name.as_slice())?;
    let record_type = types.get(number.index()).copied()?;
    target_field(number, record_type, target.field.as_slice())
}

/// Returns where a link of the record with this number leads, in a database with these names, types
/// of records and this rule of devices: to a field of a record, to the record's own device, or nowhere.
pub fn leads_to(
    names: &Names,
    types: &[RecordType],
    owners: &DeviceOwners,
    number: RecordNo,
    link: &Link,
) -> Lead
    ensures { result ≡ leads_to names.now types.now (owner_for owners.now number) number link.now }
{
    match link {
        Link::Database(target, _) => match standing_of(names, types, target) {
            Some(standing) => Lead::Field(standing),
            None => Lead::Nowhere,
        },
        Link::Device(text) => owners.lead(number, text),
        Link::Empty | Link::Constant(_) | Link::Real(_) => Lead::Nowhere,
    }
}

/// Resolves a link field.
#[tactic(auto, unfolding(crate::specs::Finished::linked))]
fn link_one(
    alloc: Global,
    names: &Names,
    whole: &Whole,
    number: RecordNo,
    field: FieldNo,
    item: &mut Record,
) -> Result<(), AllocError>
    ensures { OnOk result (item.new
        ≡ linked record_rules names.now whole.now.types.items (owner_for whole.now.owners number) number field item.old) }
{
    let Some(found) = item.link(field) else {
        return Ok(());
    };
    let link = found.get().link;
    let lead = leads_to(names, whole.types.as_slice(), &whole.owners, number, &link);
    let kept = LinkBox::new(alloc, LinkField { link, lead })?;
    item.set_link(field, kept);
    Ok(())
}

/// Resolves these link fields.
fn link_all(
    alloc: Global,
    names: &Names,
    whole: &Whole,
    number: RecordNo,
    fields: &[FieldNo],
    item: &mut Record,
) -> Result<(), AllocError>
    ensures { OnOk result (item.new
        ≡ linked_all record_rules names.now whole.now.types.items (owner_for whole.now.owners number) number fields.now item.old) }
{
    let mut rest = fields;
    while let [field, others @ ..] = rest {
        link_one(alloc, names, whole, number, *field, item)?;
        rest = others;
    }
    Ok(())
}

/// Finishes the load of a record.
#[tactic(auto, unfolding(crate::specs::Finished::finished))]
fn finish_record(
    alloc: Global,
    names: &Names,
    whole: &Whole,
    number: RecordNo,
    item: &mut Record,
) -> Result<(), AllocError>
    ensures { OnOk result (item.new
        ≡ finished record_rules names.now whole.now.types.items (owner_for whole.now.owners number) number item.old) }
{
    let fields = item.link_fields();
    link_all(alloc, names, whole, number, fields, item)?;
    item.load();
    Ok(())
}

/// Returns the types of these records.
///
/// # Errors
///
/// [`AllocError`] if allocation fails.
pub fn types_of(alloc: Global, records: &[Record]) -> Result<Vec<RecordType>, AllocError>
    ensures { IfOk result (λ v. v.items ≡ map record_rules.record_type records.now) }
{
    let mut types = Vec::new(alloc);
    let mut rest = records;
    while let [first, others @ ..] = rest {
        types.push(first.record_type())?;
        rest = others;
    }
    Ok(types)
}

/// Finishes the load of all records.
pub fn finish_all(alloc: Global, names: &Names, records: &mut [Record]) -> Result<(), AllocError>
    ensures { OnOk result (records.new
        ≡ by_place (finished record_rules names.now (map record_rules.record_type records.old) (owner_of record_rules records.old)) 0
        records.old) }
{
    let types = types_of(alloc, records)?;
    let first = owners_of(alloc, records)?;
    let whole = Whole {
        types,
        owners: DeviceOwners::First(first),
    };
    let mut number = 0;
    for item in records.iter_mut() {
        finish_record(alloc, names, &whole, RecordNo::new(number), item)?;
        number += 1;
    }
    Ok(())
}

// Resolves the links of a record once more, so that those which name its device lead there.
fn link_own(
    alloc: Global,
    names: &Names,
    whole: &Whole,
    number: RecordNo,
    item: &mut Record,
) -> Result<(), AllocError>
    ensures { OnOk result (item.new
        ≡ linked_all record_rules names.now whole.now.types.items (owner_for whole.now.owners number) number
        (record_rules.link_fields item.old) item.old) }
{
    let fields = item.link_fields();
    link_all(alloc, names, whole, number, fields, item)
}

/// Resolves the links of all records once more, so that each has a device of its own.
pub fn link_all_own(alloc: Global, names: &Names, records: &mut [Record]) -> Result<(), AllocError>
    ensures { OnOk result (records.new ≡ with_own_devices record_rules names.now records.old) }
{
    let types = types_of(alloc, records)?;
    let own = own_devices_of(alloc, records)?;
    let whole = Whole {
        types,
        owners: DeviceOwners::Own(own),
    };
    let mut number = 0;
    for item in records.iter_mut() {
        link_own(alloc, names, &whole, RecordNo::new(number), item)?;
        number += 1;
    }
    Ok(())
}
