//! The fields that every record has, and the operations on them.
ghost use Rattle.std.specs.Prelude.{◌≡◌, ◌<◌, ◌-◌, ◌^◌};
ghost use Rattle.ioc_dbcommon.specs.Steps.{raised, inherited, blocked, unblocked, shown, waiting, answered, disabled};
ghost use Rattle.ioc_dbcommon.specs.Steps.{with_put_mark, with_reprocess_mark, is_passive, disable_kind, constant_put};
ghost use Rattle.ioc_dbcommon.specs.Steps.{new_common};

use crate::body::InputKind;
use crate::condition::Condition;
use crate::disabling::Disabling;
use crate::link_box::LinkBox;
use crate::parts::short_in;
use crate::scanning::Scanning;
use ioc_alarms::Alarms;
use ioc_links::{Link, Mode};
use ioc_menus::{Scan, Severity, Status};
use ioc_notify::NotifyId;
use ioc_values::{Kind, Name, Range, Text, of_number};

/// The fields that every record has. Record Reference Manual, "Fields Common to All Record Types".
#[derive(Drop)]
pub struct Common {
    /// The record's name. NAME shows its first 39 bytes.
    pub name: Name,
    /// DESC.
    pub description: Text,
    /// ASG.
    pub access_group: Text,
    /// DTYP, UDF, UDFS and the alarms.
    pub condition: Condition,
    /// SCAN, PINI, PHAS, EVNT and PRIO.
    pub scanning: Scanning,
    /// DISV, DISA, DISS and DISP.
    pub disabling: Disabling,
    /// SDIS.
    pub disable_link: LinkBox,
    /// FLNK.
    pub forward_link: LinkBox,
    /// PROC: the value last put to it. A put to it processes the record.
    pub process: u8,
    /// LCNT: how many requests in a row found the record active, at most 255.
    pub lock_count: u8,
    /// PACT: the record is being processed, or waits for a completion.
    pub active: bool,
    /// PUTF: the record is being processed for a client's put.
    pub by_put: bool,
    /// RPRO: the record is to be reprocessed when it is done.
    pub reprocess: bool,
    /// TIME: the time stamp of the event in which the record last showed its alarm, in nanoseconds.
    pub time: u64,
    /// The number of the completion that the record waits for.
    pub pending: Option<u64>,
    /// The number that was last assigned to a completion. They are 1, 2, 3 and so on in each
    /// record.
    pub last_pending: u64,
    /// The number that was last assigned to a change of the record's scan list. They are 1, 2, 3
    /// and so on in each record.
    pub last_change: u64,
    /// The put with notification that the record is part of.
    pub notification: Option<NotifyId>,
}

/// Returns the kind of SDIS's value, which is a Short.
pub fn disable_kind() -> InputKind
    ensures { result ≡ disable_kind }
{
    InputKind::Number(Range::Short)
}

#[tactic(auto, unfolding(crate::specs::Steps::blocked))]
impl Common {
    /// Counts a request that found the record active. The eleventh in a row raises SCAN with
    /// INVALID. Application Developer's Guide, "dbProcess".
    pub fn block(&mut self)
        ensures { self.new ≡ blocked self.old }
    {
        if let Status::Scan = self.condition.alarms.status {
            return;
        }
        let before = self.lock_count;
        self.lock_count = before.saturating_add(1);
        if before < 10 {
            return;
        }
        if let Severity::Invalid = self.condition.alarms.severity {
            return;
        }
        self.condition.raise(Status::Scan, Severity::Invalid);
        self.condition.settle();
    }

    /// Resets the count, because a request found the record idle.
    pub fn unblock(&mut self)
        ensures { self.new ≡ unblocked self.old }
    {
        self.lock_count = 0;
    }

    /// Shows the alarm that the body raised, with the time stamp of the event. The record is active
    /// while its links are followed.
    pub fn show(&mut self, moment: u64)
        ensures { self.new ≡ shown moment self.old }
    {
        self.active = true;
        self.time = moment;
        self.condition.settle();
    }

    /// Shows DISABLE, unless the record shows it already, and clears the marks of a put and of
    /// reprocessing, because a request found the record disabled. Application Developer's Guide,
    /// "dbProcess".
    #[tactic(auto, unfolding(crate::specs::Steps::disabled))]
    pub fn disable(&mut self)
        ensures { self.new ≡ disabled self.old }
    {
        self.by_put = false;
        self.reprocess = false;
        if let Status::Disable = self.condition.alarms.status {
            return;
        }
        self.condition.alarms = Alarms {
            status: Status::Disable,
            severity: self.disabling.severity,
            new_status: Status::NoAlarm,
            new_severity: Severity::NoAlarm,
        };
    }

    /// Sets whether the record is being processed for a client's put.
    pub fn mark_put(&mut self, by_put: bool)
        ensures { self.new ≡ with_put_mark by_put self.old }
    {
        self.by_put = by_put;
    }

    /// Sets whether the record is marked for reprocessing.
    pub fn mark_reprocess(&mut self, reprocess: bool)
        ensures { self.new ≡ with_reprocess_mark reprocess self.old }
    {
        self.reprocess = reprocess;
    }

    /// Returns whether the record is passive, so that it is processed only if a client or another
    /// record asks for it.
    pub fn is_passive(&self) -> bool
        ensures { result ≡ is_passive self.now }
    {
        match self.scanning.scan {
            Scan::Passive => true,
            _ => false,
        }
    }

    /// Puts a constant SDIS into DISA, at the end of a load.
    #[tactic(auto, unfolding(crate::specs::Steps::constant_put, ioc_values::specs::Conversion::sort_of))]
    pub fn put_constant(&mut self)
        ensures { self.new ≡ constant_put self.old }
    {
        if let Link::Constant(constant) = self.disable_link.get().link {
            if let Some(value) = of_number(Kind::Number(Range::Short), constant) {
                self.disabling.input = short_in(value).unwrap_or(self.disabling.input);
            }
        }
    }

    /// Begins to wait for the answer of the record's device.
    pub fn wait(&mut self)
        requires { self.old.last_pending < 2 ^ 64 - 1 }
        ensures { self.new ≡ waiting self.old }
    {
        self.active = true;
        self.last_pending += 1;
        self.pending = Some(self.last_pending);
    }

    /// Ends the wait for the answer of the record's device.
    pub fn end_wait(&mut self)
        ensures { self.new ≡ answered self.old }
    {
        self.pending = None;
    }

    /// Creates the fields of a new record: its value is undefined, with UDFS INVALID, DISV is 1,
    /// and everything else is 0 or empty. Record Reference Manual, "Fields Common to All Record
    /// Types", column "Default".
    #[tactic(auto, unfolding(crate::specs::Steps::new_common))]
    pub fn new(name: Name) -> Self
        ensures { result ≡ new_common name }
    {
        Common {
            name,
            description: Text::new(),
            access_group: Text::new(),
            condition: Condition::new(),
            scanning: Scanning::new(),
            disabling: Disabling::new(),
            disable_link: LinkBox::empty(),
            forward_link: LinkBox::empty(),
            process: 0,
            lock_count: 0,
            active: false,
            by_put: false,
            reprocess: false,
            time: 0,
            pending: None,
            last_pending: 0,
            last_change: 0,
            notification: None,
        }
    }
}
