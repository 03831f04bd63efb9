//! The scan list that a record is on.
ghost use Rattle.std.specs.Prelude.{◌≡◌};

use crate::period::{Period, period_of};
use crate::word::{Word, event_word, link_word};
use ioc_links::MAX_DEVICE_BYTES;
use ioc_menus::{Priority, Scan};
use ioc_values::{Short, Text};

/// A scan list.
#[derive(Clone, Copy, PartialEq, Eq, PartialOrd, Ord)]
pub enum ListName {
    /// The records that are processed with this period.
    Period(Period),
    /// The records that are processed when this event is posted.
    Event(Word),
    /// The records that are processed at an interrupt of the devices whose links begin with this
    /// word.
    Interrupt(Word),
    /// The records that are processed once when the engine starts: PINI.
    Start,
}

/// The place of a record: its list, PHAS, and PRIO.
#[derive(Clone, Copy, PartialEq, Eq)]
pub struct Placement {
    pub list: ListName,
    /// PHAS. Lower ones are processed first.
    pub phase: i16,
    pub priority: Priority,
}

impl ListName {
    ghost use Rattle.ioc_scan.specs.Lists.{list_of};

    /// Returns the list of a record with this SCAN and EVNT, and this text of its device link.
    /// Returns `None` if it is on no list: SCAN is Passive, or it is Event and EVNT names no event,
    /// or it is I/O Intr and the record has no device link.
    pub fn of(scan: Scan, event: Text, device: Option<Short<MAX_DEVICE_BYTES>>) -> Option<Self>
        ensures { result ≡ list_of scan event device }
    {
        match scan {
            Scan::Passive => None,
            Scan::Event => Some(ListName::Event(event_word(event)?)),
            Scan::IoIntr => Some(ListName::Interrupt(link_word(device?))),
            _ => Some(ListName::Period(period_of(scan)?)),
        }
    }
}
