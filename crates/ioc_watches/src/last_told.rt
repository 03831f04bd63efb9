//! What was told last of a watched field, and what is due by it.
ghost use Rattle.std.specs.Prelude.{◌≡◌};
ghost use Rattle.ioc_watches.specs.Due.{IsMask, KeepsNumbers, Tells, archive_by, band_of, is_processed, value_by};

use crate::observed::{Observed, Posts};
use crate::rule::Rule;
use ioc_monitor::{Deadbands, Mask, Posted};
use ioc_record::FieldText;

/// What was told last of a watched field.
#[derive(Clone, Copy)]
pub struct LastTold {
    /// The whole numbers that were told last by MDEL and by ADEL, and the alarm.
    pub posted: Posted,
    /// MLST and ALST when the record was looked at last.
    pub posts: Posts,
    pub content: FieldText,
    /// TIME when the record was looked at last.
    pub moment: FieldText,
}

// Returns the deadband by which a value is told. One below 0 lets each value through of a record that was
// processed, also one that hasn't changed, and none of another.
fn band_of(is_processed: bool, band: i64) -> i64
    ensures { result ≡ band_of is_processed band }
{
    if !is_processed && band < 0 { 0 } else { band }
}

impl LastTold {
    /// What is told first: all that was shown.
    pub fn first(now: &Observed) -> Self
        ensures told { Tells now.now result }
        ensures value { result.posted.value ≡ now.now.seen.value }
        ensures archived { result.posted.archived ≡ now.now.seen.value }
    {
        LastTold {
            posted: Posted::first(&now.seen),
            posts: now.posts,
            content: now.content,
            moment: now.moment,
        }
    }

    // Returns what is due of a field with this rule that shows this now. By whole numbers this is due.
    fn due(&self, rule: Rule, by_numbers: &Mask, now: &Observed) -> Mask
        ensures value { result.value ≡ value_by rule by_numbers.now.value self.now now.now }
        ensures log { result.log ≡ archive_by rule by_numbers.now.log self.now now.now }
        ensures alarm { result.alarm ≡ by_numbers.now.alarm }
    {
        match rule {
            Rule::Deadbands => Mask {
                value: by_numbers.value,
                log: by_numbers.log,
                alarm: by_numbers.alarm,
            },
            Rule::LastPosted => Mask {
                value: self.posts.value != now.posts.value,
                log: self.posts.archive != now.posts.archive,
                alarm: by_numbers.alarm,
            },
            Rule::Shown => Mask {
                value: self.content != now.content,
                log: self.content != now.content,
                alarm: by_numbers.alarm,
            },
        }
    }

    // Returns the deadbands by which the record is told now.
    fn bands(&self, now: &Observed) -> Deadbands
        ensures value { result.value ≡ band_of (is_processed self.now now.now) now.now.bands.value }
        ensures archive { result.archive ≡ band_of (is_processed self.now now.now) now.now.bands.archive }
    {
        let is_processed = self.moment != now.moment;
        Deadbands {
            value: band_of(is_processed, now.bands.value),
            archive: band_of(is_processed, now.bands.archive),
        }
    }

    /// Returns what is due of a field with this rule that shows this now, and keeps what was told.
    pub fn post(&mut self, rule: Rule, now: &Observed) -> Mask
        ensures due { IsMask rule self.old now.now result }
        ensures told { Tells now.now self.new }
        ensures numbers { KeepsNumbers self.old now.now self.new }
    {
        let bands = self.bands(now);
        let mut posted = self.posted;
        let by_numbers = posted.post(&bands, &now.seen);
        let mask = self.due(rule, &by_numbers, now);
        *self = LastTold {
            posted,
            ..LastTold::first(now)
        };
        mask
    }
}
