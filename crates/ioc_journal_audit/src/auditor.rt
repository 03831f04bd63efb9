//! The entries of a journal, made again one after another and compared.
ghost use Rattle.std.specs.Prelude.{◌≡◌, ◌≤◌, []};
ghost use Rattle.std.specs.FinMap.{len};
ghost use Rattle.std.specs.Vec.{vec_capacity};
ghost use Rattle.rec_types.specs.Record.{record_rules};
ghost use Rattle.ioc_process.specs.Rules.{IsSettled};
ghost use Rattle.ioc_journal_audit.specs.PlayedMap.{world_of};

use crate::counts::{DeskCounts, NumbersBegun, is_next, next_after, number_begun};
use crate::difference::Difference;
use crate::laws::calls_leave_sound;
use crate::played_map::PlayedMap;
use crate::redo::{Redone, redo};
use ioc_events::call_rules::rules_are_calls;
use ioc_events::event_rules::replays_lead_to_one;
use ioc_journal_file::{Line, Mark};
use ioc_store::{EventStore, Frame};
use rec_types::Record;
use std::alloc::{AllocError, Global};

/// A database on which the entries of a journal are made again, one after another.
#[derive(Drop)]
pub struct Auditor {
    map: PlayedMap<Record>,
    // Open frames of the current event, with room for all records.
    frames: Vec<Frame>,
    // The place of the last entry, if there was one.
    place: Option<u64>,
    desks: DeskCounts,
    // The puts with notification that entries have begun.
    begun: NumbersBegun,
    alloc: Global,
    ghost settled: { IsSettled record_rules (world_of map) },
    ghost empty: { frames.items ≡ [] },
    ghost room: { len (world_of map).records ≤ vec_capacity frames },
}

impl Auditor {
    ghost use Rattle.std.specs.Prelude.{IfOk};
    ghost use Rattle.ioc_dbfile.specs.FirstWorld.{first_world};
    ghost use Rattle.ioc_journal_audit.specs.Numbering.{run_start};
    ghost use Rattle.ioc_journal_audit.specs.Numbers.{AreBegun};
    ghost use Rattle.ioc_journal_audit.specs.Resuming.{world_with};
    ghost use Rattle.ioc_journal_audit.specs.Audit.{HasAudited, MakesAgain, Compares, IsNext, ChecksNext};

    /// Creates an auditor of these records, before any entry.
    ///
    /// # Errors
    ///
    /// [`AllocError`] if allocation fails.
    pub fn new(alloc: Global, records: Vec<Record>) -> Result<Self, AllocError>
        requires { IsSettled record_rules (first_world records.items) }
        ensures { IfOk result (λ a. HasAudited run_start (first_world records.items) [] a) }
    {
        let event = EventStore::new(alloc)?;
        let map = PlayedMap::new(alloc, records, event);
        let frames = map.frames(alloc)?;
        Ok(Auditor {
            map,
            frames,
            place: None,
            desks: DeskCounts::new(alloc),
            begun: NumbersBegun::new(alloc),
            alloc,
        })
    }

    /// Returns the records.
    pub fn map(&self) -> &PlayedMap<Record>
        ensures { result.now ≡ self.now.map }
    {
        &self.map
    }

    /// Creates an auditor of these records in this state of events, behind the entry at this place, if
    /// there is one, with these counts of calls.
    pub(crate) fn of(
        alloc: Global,
        records: Vec<Record>,
        event: EventStore,
        place: Option<u64>,
        desks: DeskCounts,
    ) -> Result<Self, AllocError>
        requires { IsSettled record_rules (first_world records.items) }
        ensures world { IfOk result (λ a. world_of a.map ≡ world_with records.items event.follow_ups.notifications.live.live
            event.follow_ups.notifications.waiting.waiting) }
        ensures place { IfOk result (λ a. a.place ≡ place) }
        ensures desks { IfOk result (λ a. a.desks ≡ desks) }
        ensures begun { IfOk result (λ a. AreBegun a.begun []) }
    {
        let map = PlayedMap::new(alloc, records, event);
        let frames = map.frames(alloc)?;
        Ok(Auditor {
            map,
            frames,
            place,
            desks,
            begun: NumbersBegun::new(alloc),
            alloc,
        })
    }

    // Makes the call of an entry again, with its answers.
    fn make_again(&mut self, line: Line) -> Result<Redone, AllocError>
        ensures { IfOk result (λ made. MakesAgain self.old line self.new made) }
    {
        calls_leave_sound();
        self.map.begin_at(line.mark.moment, line.answers);
        redo(self.alloc, &mut self.map, &mut self.frames, &line.call)
    }

    // Makes the call of an entry again, and returns how its reply or its answers differ, if they do.
    fn compare(&mut self, line: Line) -> Result<Option<Difference>, AllocError>
        ensures { IfOk result (Compares self.old line self.new) }
    {
        let mark = line.mark;
        let made = self.make_again(line)?;
        let is_all_played = self.map.is_all_played();
        if made.agrees && is_all_played {
            return Ok(None);
        }
        let entry = Line {
            mark,
            call: made.call,
            answers: self.map.played(self.alloc)?,
        };
        if made.agrees {
            return Ok(Some(Difference::Answers(entry)));
        }
        Ok(Some(Difference::Reply(entry)))
    }

    // Returns how the numbers of an entry differ from those of the next one, if they do, or that of the
    // put with notification that it begins from those of all before it.
    fn misnumbered(&self, mark: &Mark, begins: Option<u64>) -> Option<Difference>
        ensures { IsNext self.now mark.now begins result }
    {
        if !is_next(mark.place, self.place) {
            return Some(Difference::Place(next_after(self.place)));
        }
        let last = self.desks.last(mark.desk);
        if !is_next(mark.call, last) {
            return Some(Difference::DeskCall(next_after(last)));
        }
        match begins {
            Some(number) if self.begun.has(number) => Some(Difference::Notification(number)),
            _ => None,
        }
    }

    /// Makes the call of the next entry again, and compares its reply, the number of its answers,
    /// its place, its call number, and the number of the put with notification that it begins, which
    /// is another than those before. Returns how the entry differs, if it does; then the auditor is of
    /// no more use.
    ///
    /// # Errors
    ///
    /// [`AllocError`] if allocation fails.
    pub fn check(&mut self, line: Line) -> Result<Option<Difference>, AllocError>
        ensures { IfOk result (ChecksNext self.old line self.new) }
    {
        rules_are_calls::<Record>();
        replays_lead_to_one::<Record>();
        let mark = line.mark;
        let begins = number_begun(&line.call);
        if let Some(difference) = self.misnumbered(&mark, begins) {
            return Ok(Some(difference));
        }
        if let Some(difference) = self.compare(line)? {
            return Ok(Some(difference));
        }
        self.desks.count(mark.desk, mark.call)?;
        self.begun.add(begins)?;
        self.place = Some(mark.place);
        Ok(None)
    }
}
