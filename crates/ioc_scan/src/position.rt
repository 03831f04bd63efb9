//! The positions of records on their lists.
ghost use Rattle.std.specs.Prelude.{◌≡◌};

use crate::list_name::{ListName, Placement};
use ioc_menus::Priority;
use ioc_names::RecordNo;

/// The position of a record among all records on lists, ordered by list, then by PHAS, then by the
/// order of adding.
#[derive(Clone, Copy, PartialEq, Eq, PartialOrd, Ord)]
pub struct Position {
    pub list: ListName,
    pub phase: i16,
    pub order: u64,
}

impl Position {
    ghost use Rattle.ioc_scan.specs.Positions.{position};

    /// Returns the position of a place, added with this order number.
    pub fn of(place: &Placement, order: u64) -> Self
        ensures { result ≡ position place.now order }
    {
        Position {
            list: place.list,
            phase: place.phase,
            order,
        }
    }
}

/// A record on a scan list.
#[derive(Clone, Copy, PartialEq, Eq)]
pub struct Listed {
    pub number: RecordNo,
    pub priority: Priority,
}

impl Listed {
    ghost use Rattle.ioc_scan.specs.Positions.{listed};

    /// Creates the list member for a record at this place.
    pub fn of(number: RecordNo, place: &Placement) -> Self
        ensures { result ≡ listed number place.now }
    {
        Listed {
            number,
            priority: place.priority,
        }
    }
}

/// The entry of a record in the scan lists.
#[derive(Clone, Copy, PartialEq, Eq)]
pub struct ListEntry {
    /// The highest number of the changes that were applied, or 0 before the first one.
    pub number: u64,
    /// The record's place, if it is on a list.
    pub place: Option<Placement>,
    /// The order number with which it was added there.
    pub order: u64,
}

impl ListEntry {
    ghost use Rattle.ioc_scan.specs.Positions.{new_entry};

    /// Creates the entry of a record before its first change. It is on no list.
    pub fn new() -> Self
        ensures { result ≡ new_entry }
    {
        ListEntry {
            number: 0,
            place: None,
            order: 0,
        }
    }
}
