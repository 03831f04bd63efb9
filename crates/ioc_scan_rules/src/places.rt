//! Where a record is on the scan lists.
ghost use Rattle.std.specs.Prelude.{◌≡◌, false, None};
ghost use Rattle.ioc_scan_rules.specs.Places.{place_by, start_place, place_of};

use ioc_dbcommon::Scanning as ScanFields;
use ioc_links::MAX_DEVICE_BYTES;
use ioc_menus::{Pini, Scan};
use ioc_process::scanning::device_of;
use ioc_record::RecordKind;
use ioc_scan::{ListName, Placement};
use ioc_values::Short;

/// The occasion on which the records of a list are processed.
#[derive(Clone, Copy, PartialEq, Eq)]
pub enum Occasion {
    /// By SCAN.
    Scanning,
    /// Once at the start, by PINI.
    Starting,
}

/// Returns the place on a scan list of a record with these fields and this text of its device link,
/// which is empty if it has none. Application Developer's Guide, "Scanning Specification": scanAdd.
pub fn place_by(fields: &ScanFields, device: Short<MAX_DEVICE_BYTES>) -> Option<Placement>
    ensures { result ≡ place_by fields.now device }
{
    let device = if device.as_slice().is_empty() {
        None
    } else {
        Some(device)
    };
    let list = ListName::of(fields.scan, fields.event, device)?;
    Some(Placement {
        list,
        phase: fields.phase,
        priority: fields.priority,
    })
}

// Returns the place of a record on the list of those that are processed once at the start.
fn start_place(fields: &ScanFields) -> Option<Placement>
    ensures { result ≡ start_place fields.now fields.now.at_start }
{
    match fields.at_start {
        Pini::Yes => Some(Placement {
            list: ListName::Start,
            phase: fields.phase,
            priority: fields.priority,
        }),
        Pini::No => None,
    }
}

/// Returns the place of a record on a list for this occasion.
pub fn place_of<K: RecordKind>(item: &K, occasion: Occasion) -> Option<Placement>
    ensures { result ≡ place_of K.rules occasion item.now }
{
    let fields = &item.common().scanning;
    match occasion {
        Occasion::Scanning => place_by(fields, device_of(item)),
        Occasion::Starting => start_place(fields),
    }
}

// Returns whether a record may be on a list. Most records aren't, and a place is large.
pub(crate) fn may_be_listed<K: RecordKind>(item: &K, occasion: Occasion) -> bool
    ensures { result ≡ false → place_of K.rules occasion item.now ≡ None }
{
    let fields = &item.common().scanning;
    match occasion {
        Occasion::Scanning => fields.scan != Scan::Passive,
        Occasion::Starting => fields.at_start == Pini::Yes,
    }
}
