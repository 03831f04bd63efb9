//! Where a link leads that is changed at run time.
ghost use Rattle.std.specs.Prelude.{◌≡◌};
ghost use Rattle.ioc_names.specs.NameTable.{number_of};
ghost use Rattle.rec_types.specs.Record.{record_rules};
ghost use Rattle.ioc_store.specs.OneMap.{world_of};
ghost use Rattle.ioc_dbfile.specs.OwnerTable.{owner_in};
ghost use Rattle.ioc_sim.specs.Leads.{target_among, leads_among};

use crate::scripted::Scripted;
use ioc_dbcommon::{FieldAddress, Lead};
use ioc_dbfile::{Owners, target_field};
use ioc_links::{Link, Target};
use ioc_names::{Names, RecordNo};
use ioc_record::RecordKind;
use ioc_store::{OneMap, Store};
use rec_types::Record;

// Returns the field that a database link leads to, if a record and a field with these names exist
// and a link can lead to the field.
fn target_among(
    names: &Names,
    map: &OneMap<Record, Scripted>,
    target: &Target,
) -> Option<FieldAddress>
    ensures { result ≡ target_among record_rules (world_of map.now) target.now.field (number_of names.now target.now.record_name) }
{
    let number = names.find(target.record_name.as_slice())?;
    if !map.has(number) {
        return None;
    }
    let record_type = map.record(number).record_type();
    target_field(number, record_type, target.field.as_slice())
}

/// Returns where a link of the record with this number leads: to a field of an existing record, to
/// the record's own device, or nowhere.
pub fn lead_among(
    names: &Names,
    map: &OneMap<Record, Scripted>,
    owners: &Owners,
    number: RecordNo,
    link: &Link,
) -> Lead
    ensures { result ≡ leads_among record_rules names.now (owner_in owners.now) (world_of map.now) number link.now }
{
    match link {
        Link::Database(target, _) => match target_among(names, map, target) {
            Some(field) => Lead::Field(field),
            None => Lead::Nowhere,
        },
        Link::Device(text) => owners.lead(number, text),
        Link::Empty | Link::Constant(_) | Link::Real(_) => Lead::Nowhere,
    }
}
