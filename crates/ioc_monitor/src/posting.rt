//! What a record posts.
ghost use Rattle.std.specs.Prelude.{◌≡◌, if◌then◌else◌, ◌&&◌, not, nat_eq};
ghost use Rattle.ioc_monitor.specs.Monitors.{is_beyond};

use crate::deadband::is_beyond;

/// What a record shows: its value as a whole number, and its alarm as the numbers of STAT and SEVR.
#[derive(Clone, Copy)]
pub struct Seen {
    pub value: i64,
    pub status: u16,
    pub severity: u16,
}

/// The deadbands of a record, in the units of its value.
#[derive(Clone, Copy)]
pub struct Deadbands {
    /// MDEL, that of the value.
    pub value: i64,
    /// ADEL, that of the value for archives.
    pub archive: i64,
}

/// What is posted: the value (DBE_VALUE), the value for archives (DBE_LOG), the alarm (DBE_ALARM).
#[derive(Clone, Copy)]
pub struct Mask {
    pub value: bool,
    pub log: bool,
    pub alarm: bool,
}

/// What a record has posted last: its value (MLST), its value for archives (ALST), and its alarm.
#[derive(Clone, Copy)]
pub struct Posted {
    pub value: i64,
    pub archived: i64,
    pub status: u16,
    pub severity: u16,
}

// Returns the value that is posted last once a value was posted, or not.
fn last_of(is_posted: bool, last: i64, now: i64) -> i64
    ensures { result ≡ if is_posted then now else last }
{
    if is_posted { now } else { last }
}

impl Posted {
    /// What is posted first: all that the record shows.
    pub fn first(now: &Seen) -> Self
        ensures value { (result.value ≡ now.now.value) × (result.archived ≡ now.now.value) }
        ensures alarm { (result.status ≡ now.now.status) × (result.severity ≡ now.now.severity) }
    {
        Posted {
            value: now.value,
            archived: now.value,
            status: now.status,
            severity: now.severity,
        }
    }

    /// Returns what a record posts that shows this now, and keeps what was posted.
    pub fn post(&mut self, bands: &Deadbands, now: &Seen) -> Mask
        ensures value { result.value ≡ is_beyond bands.now.value self.old.value now.now.value }
        ensures log { result.log ≡ is_beyond bands.now.archive self.old.archived now.now.value }
        ensures alarm { result.alarm ≡ not (nat_eq self.old.status now.now.status && nat_eq self.old.severity now.now.severity) }
        ensures posted { self.new.value ≡ if result.value then now.now.value else self.old.value }
        ensures archived { self.new.archived ≡ if result.log then now.now.value else self.old.archived }
        ensures shown { (self.new.status ≡ now.now.status) × (self.new.severity ≡ now.now.severity) }
    {
        let mask = Mask {
            value: is_beyond(bands.value, self.value, now.value),
            log: is_beyond(bands.archive, self.archived, now.value),
            alarm: !(self.status == now.status && self.severity == now.severity),
        };
        *self = Posted {
            value: last_of(mask.value, self.value, now.value),
            archived: last_of(mask.log, self.archived, now.value),
            status: now.status,
            severity: now.severity,
        };
        mask
    }
}
