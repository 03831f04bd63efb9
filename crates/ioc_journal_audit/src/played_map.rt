//! All records in one map, whose devices give the answers of a list.
ghost use Rattle.std.specs.Prelude.{◌≡◌, ◌≤◌, ◌==◌, [], IfOk};
ghost use Rattle.std.specs.FinMap.{len};
ghost use Rattle.std.specs.Vec.{vec_capacity};
ghost use Rattle.ioc_store.specs.Given.{Accords, listed, calls_of, answers_of};

use ioc_device::{Answer, Ask, Device};
use ioc_names::RecordNo;
use ioc_notify::NotifyId;
use ioc_record::RecordKind;
use ioc_store::{Call, EventStore, FollowUps, Frame, OneMap, Store};
use ioc_values::Value;
use std::alloc::{AllocError, Global};
use std::marker::Model;

/// The answers that the devices of an event give, in the order in which they are asked. Contracts
/// see this list. The map gives the answers out, so that by itself this device is faulty.
#[derive(Drop)]
pub struct Playing {
    answers: Vec<Answer>,
}

impl Model for Playing {
    ghost use Rattle.std.specs.Prelude.{List};
    ghost use Rattle.ioc_device.specs.declared.Answer.{Answer};

    ghost Value = { List Answer };

    ghost view = { λ p. p.answers.items };
}

impl Device for Playing {
    ghost gives = { λ before _ _ _ after. after ≡ before };

    fn read(&mut self, _moment: u64) -> Answer {
        Answer::Fault
    }

    fn write(&mut self, _value: Value, _moment: u64) -> Answer {
        Answer::Fault
    }
}

impl Playing {
    ghost use Rattle.std.specs.Prelude.{length, slice_get, unwrap_or};
    ghost use Rattle.ioc_device.specs.declared.Answer.TheVariants.{Fault};

    /// Creates the list of these answers.
    pub fn new(answers: Vec<Answer>) -> Self
        ensures { result ≡ answers.items }
    {
        Playing { answers }
    }

    /// Returns the number of answers.
    pub fn len(&self) -> usize
        ensures { result ≡ length self.now }
    {
        self.answers.len()
    }

    // Returns the answer at a place, or a fault past the end.
    fn at(&self, place: usize) -> Answer
        ensures { result ≡ unwrap_or (slice_get self.now place) Fault }
    {
        match self.answers.get(place) {
            Some(answer) => *answer,
            None => Answer::Fault,
        }
    }
}

/// The records of a database, each at its number. Whichever devices are asked in an event, they
/// give the answers of a list, one after another, and faults past its end.
#[derive(Drop)]
pub struct PlayedMap<K> {
    map: OneMap<K, Playing>,
    playing: Playing,
    ghost played: { Accords (calls_of map.event.calls) (listed playing) },
}

impl<K: RecordKind> PlayedMap<K> {
    ghost use Rattle.ioc_journal_audit.specs.PlayedMap.{world_of};
    ghost use Rattle.ioc_store.specs.OneMap.{numbered};
    ghost use Rattle.ioc_store.specs.World.{begun_at};
    ghost use Rattle.std.specs.Prelude.{length};

    /// Creates a map of these records, numbered from 0 on. No event has begun.
    pub fn new(alloc: Global, records: Vec<K>, event: EventStore) -> Self
        ensures records { (world_of result).records ≡ numbered records.items }
        ensures fresh { world_of result ≡ begun_at 0 (world_of result) }
        ensures live { (world_of result).live ≡ event.follow_ups.notifications.live.live }
        ensures waiting { (world_of result).waiting ≡ event.follow_ups.notifications.waiting.waiting }
    {
        let map = OneMap::new(records, Vec::new(alloc), event);
        PlayedMap {
            map,
            playing: Playing::new(Vec::new(alloc)),
        }
    }

    /// Returns an empty list of open frames with room for all records.
    ///
    /// # Errors
    ///
    /// [`AllocError`] if allocation fails.
    pub fn frames(&self, alloc: Global) -> Result<Vec<Frame>, AllocError>
        ensures empty { IfOk result (λ f. f.items ≡ []) }
        ensures room { IfOk result (λ f. len (world_of self.now).records ≤ vec_capacity f) }
    {
        self.map.frames(alloc)
    }

    /// Returns the records, each at its number.
    pub fn records(&self) -> &[K]
        ensures { numbered result.now ≡ (world_of self.now).records }
    {
        self.map.records.as_slice()
    }

    /// Begins an event with this time stamp, in nanoseconds since 1970-01-01 00:00 UTC, in which
    /// devices give these answers.
    pub fn begin_at(&mut self, moment: u64, answers: Vec<Answer>)
        ensures world { world_of self.new ≡ begun_at moment (world_of self.old) }
        ensures playing { self.new.playing ≡ answers.items }
    {
        self.map.begin_at(moment);
        self.playing = Playing::new(answers);
    }

    /// Returns whether as many answers were given in the event as the list has.
    pub fn is_all_played(&self) -> bool
        ensures { result ≡ (length (world_of self.now).calls == length self.now.playing) }
    {
        self.map.asked() == self.playing.len()
    }

    /// Returns the answers that were given in the event, in order.
    ///
    /// # Errors
    ///
    /// [`AllocError`] if allocation fails.
    pub fn played(&self, alloc: Global) -> Result<Vec<Answer>, AllocError>
        ensures { IfOk result (λ answers. answers.items ≡ answers_of (world_of self.now).calls) }
    {
        let mut answers = Vec::with_capacity(alloc, self.map.event.calls.len())?;
        self.map.event.calls.copy_answers(&mut answers);
        Ok(answers)
    }
}

impl<K: RecordKind> Store for PlayedMap<K> {
    type Record = K;

    type Device = Playing;

    ghost use Rattle.ioc_journal_audit.specs.PlayedMap.{world_of, given_of, with_record, with_follow_ups};
    ghost use Rattle.ioc_journal_audit.specs.PlayedMapLaws.{with_record-world, with_record-given, calls-given, moment-given};
    ghost use Rattle.ioc_journal_audit.specs.PlayedMapLaws.{with_follow_ups-world, with_follow_ups-given};

    ghost world = { world_of };

    ghost given = { given_of };

    ghost with_record = { with_record };

    ghost with_follow_ups = { with_follow_ups };

    ghost with_record_world = { with_record-world };

    ghost with_record_given = { with_record-given };

    ghost calls_given = { calls-given };

    ghost moment_given = { moment-given };

    ghost with_follow_ups_world = { with_follow_ups-world };

    ghost with_follow_ups_given = { with_follow_ups-given };

    fn has(&self, number: RecordNo) -> bool {
        self.map.has(number)
    }

    fn record(&self, number: RecordNo) -> &K {
        self.map.record(number)
    }

    fn record_mut(&mut self, number: RecordNo) -> &mut K {
        self.map.record_mut(number)
    }

    #[tactic(auto, unfolding(ioc_store::specs::World::called))]
    fn ask(&mut self, number: RecordNo, ask: Ask) -> Answer {
        let answer = self.playing.at(self.map.event.calls.len());
        let call = Call::new(number, ask, answer);
        self.map.event.calls.push(&call);
        call.answer
    }

    fn cancel(&mut self, notification: NotifyId) {
        self.map.cancel(notification);
    }

    fn event(&self) -> &EventStore {
        self.map.event()
    }

    fn follow_ups_mut(&mut self) -> &mut FollowUps {
        self.map.follow_ups_mut()
    }
}
