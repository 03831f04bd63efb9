//! All records in one map, with each step of their processing traced.
ghost use Rattle.std.specs.Prelude.{◌≡◌};

use crate::lines::{
    Line, ShownAlarm, add_answer, add_ask, add_finished, add_got, add_value, begin_line, word_of,
};
use crate::trace_log::TraceLog;
use ioc_dbcommon::{Got, StandingLink};
use ioc_device::{Answer, Ask, Device};
use ioc_fields::{FieldNo, OwnField, RecordType, name_of};
use ioc_ledger::Outcome;
use ioc_names::RecordNo;
use ioc_notify::NotifyId;
use ioc_record::RecordKind;
use ioc_store::{EventStore, FollowUps, OneMap, Store, TraceStep};
use ioc_values::{Finished, Name, Value};
use std::alloc::{AllocError, Global};
use std::mem;

/// A map whose events are traced.
#[derive(Drop)]
pub struct TracedMap<K, D> {
    map: OneMap<K, D>,
    log: TraceLog,
}

impl<K: RecordKind, D: Device> TracedMap<K, D> {
    /// A map without records, whose events are traced to this log.
    ///
    /// # Errors
    ///
    /// [`AllocError`] if allocation fails.
    pub fn new(alloc: Global, log: &TraceLog) -> Result<Self, AllocError>
    where
        K: Drop,
    {
        let event = EventStore::new(alloc)?;
        let log = log.share()?;
        Ok(TracedMap {
            map: OneMap::new(Vec::new(alloc), Vec::new(alloc), event),
            log,
        })
    }

    /// Exchanges the map with another one.
    pub fn swap(&mut self, map: &mut OneMap<K, D>)
        ensures here { self.new.map ≡ map.old }
        ensures there { map.new ≡ self.old.map }
    {
        mem::swap(&mut self.map, map);
    }

    // Returns the name of a record; empty if there is no such record.
    fn name(&self, number: RecordNo) -> Name {
        match self.map.records.get(number.index()) {
            Some(record) => record.common().name,
            None => Name::new(),
        }
    }

    // Begins a line of what a record does.
    fn line(&self, number: RecordNo) -> Line {
        begin_line(self.log.depth(), &self.name(number))
    }

    // Traces a few words of a record.
    fn tell(&self, number: RecordNo, words: &[u8]) {
        let mut line = self.line(number);
        line.extend_cut(words);
        self.log.add(&line);
    }

    // Returns the alarm that a record shows.
    fn shown_alarm(&self, number: RecordNo) -> Option<ShownAlarm> {
        let record = self.map.records.get(number.index())?;
        Some(ShownAlarm::now(&record.common().condition.alarms))
    }

    // Opens a request of a record.
    fn open(&self, number: RecordNo) {
        if let Some(alarm) = self.shown_alarm(number) {
            self.log.open(alarm);
        }
    }

    // Traces a change of the alarm that a record shows, if it is one.
    fn tell_alarm(&self, number: RecordNo, before: ShownAlarm, after: ShownAlarm) {
        if before != after {
            let mut line = self.line(number);
            before.add_change(&mut line, after);
            self.log.add(&line);
        }
    }

    // Traces a change of the alarm that the record of the innermost open request shows.
    fn tell_new_alarm(&self, number: RecordNo) {
        if let (Some(before), Some(after)) = (self.log.innermost(), self.shown_alarm(number)) {
            self.tell_alarm(number, before, after);
        }
    }

    // Traces the end of a request. What a request does to the alarm of a record that it doesn't
    // process is traced too.
    fn end(&self, number: RecordNo, outcome: Outcome) {
        if !matches!(outcome, Outcome::Processed) {
            self.tell_new_alarm(number);
        }
        self.log.close();
        self.tell(number, word_of(outcome));
    }

    // Traces that a record shows the alarm that it has raised.
    fn show_alarm(&self, number: RecordNo) {
        if let Some(record) = self.map.records.get(number.index()) {
            let alarms = &record.common().condition.alarms;
            self.tell_alarm(number, ShownAlarm::now(alarms), ShownAlarm::raised(alarms));
        }
    }

    // Traces the value of a record whose body computes it from several inputs.
    fn tell_computed(&self, number: RecordNo) {
        if let Some(value) = self.computed(number) {
            let mut line = self.line(number);
            line.extend_cut(b"VAL is ");
            add_value(&mut line, &value);
            self.log.add(&line);
        }
    }

    // Returns the value of a record that computes it from several inputs, if it is one.
    fn computed(&self, number: RecordNo) -> Option<Value> {
        let record = self.map.records.get(number.index())?;
        match record.record_type() {
            RecordType::Calc | RecordType::Calcout | RecordType::Sel => {
                record.get(FieldNo::Own(OwnField::Val))
            }
            _ => None,
        }
    }

    // Begins a line of what a record does through a link.
    fn link_line(&self, number: RecordNo, does: &[u8], link: &StandingLink) -> Line {
        let mut line = self.line(number);
        line.extend_cut(does);
        line.extend_cut(self.name(link.number).as_slice());
        line.extend_cut(b".");
        line.extend_cut(name_of(link.field).as_bytes());
        line.extend_cut(b": ");
        line
    }

    fn tell_read(&self, reader: RecordNo, link: &StandingLink, got: &Got) {
        let mut line = self.link_line(reader, b"reads ", link);
        add_got(&mut line, got);
        self.log.add(&line);
    }

    fn tell_written(&self, writer: RecordNo, link: &StandingLink, value: &Value, is_stored: bool) {
        let mut line = self.link_line(writer, b"writes ", link);
        add_value(&mut line, value);
        if !is_stored {
            line.extend_cut(b" (refused)");
        }
        self.log.add(&line);
    }

    fn tell_finished(&self, number: RecordNo, finished: &Finished) {
        let mut line = self.line(number);
        line.extend_cut(b"late answer: ");
        add_finished(&mut line, finished);
        self.log.add(&line);
    }

    // Traces a call of a device.
    fn tell_call(&self, number: RecordNo, ask: &Ask, answer: &Answer) {
        let mut line = self.line(number);
        add_ask(&mut line, ask);
        line.extend_cut(b": ");
        add_answer(&mut line, ask, answer);
        self.log.add(&line);
    }
}

impl<K: RecordKind, D: Device> Store for TracedMap<K, D> {
    type Record = K;

    type Device = D;

    ghost use Rattle.ioc_trace.specs.TracedMap.{world_of, given_of, with_record, with_follow_ups};
    ghost use Rattle.ioc_trace.specs.TracedMapLaws.{with_record-world, with_record-given, calls-given, moment-given};
    ghost use Rattle.ioc_trace.specs.TracedMapLaws.{with_follow_ups-world, with_follow_ups-given};

    ghost world = { world_of };

    ghost given = { given_of };

    ghost with_record = { with_record };

    ghost with_follow_ups = { with_follow_ups };

    ghost with_record_world = { with_record-world };

    ghost with_record_given = { with_record-given };

    ghost calls_given = { calls-given };

    ghost moment_given = { moment-given };

    ghost with_follow_ups_world = { with_follow_ups-world };

    ghost with_follow_ups_given = { with_follow_ups-given };

    fn has(&self, number: RecordNo) -> bool {
        self.map.has(number)
    }

    fn record(&self, number: RecordNo) -> &K {
        self.map.record(number)
    }

    fn record_mut(&mut self, number: RecordNo) -> &mut K {
        self.map.record_mut(number)
    }

    /// Asks the device, and traces what it was asked and what it has answered.
    fn ask(&mut self, number: RecordNo, ask: Ask) -> Answer {
        let answer = self.map.ask(number, ask);
        self.tell_call(number, &ask, &answer);
        answer
    }

    fn cancel(&mut self, notification: NotifyId) {
        self.map.cancel(notification);
    }

    fn event(&self) -> &EventStore {
        self.map.event()
    }

    fn follow_ups_mut(&mut self) -> &mut FollowUps {
        self.map.follow_ups_mut()
    }

    /// Traces a step.
    fn trace(&self, step: &TraceStep<'_>) {
        match step {
            TraceStep::Requested(number) => {
                self.tell(*number, b"request");
                self.open(*number);
            }
            TraceStep::Ended(number, outcome) => self.end(*number, *outcome),
            TraceStep::Completes(number, finished) => {
                self.tell_finished(*number, finished);
                self.open(*number);
            }
            TraceStep::Completed(number) => {
                self.log.close();
                self.tell(*number, b"completed");
            }
            TraceStep::Read { reader, link, got } => self.tell_read(*reader, link, got),
            TraceStep::Written {
                writer,
                link,
                value,
                is_stored,
            } => self.tell_written(*writer, link, value, *is_stored),
            TraceStep::ShowsAlarm(number) => {
                self.tell_computed(*number);
                self.show_alarm(*number);
            }
        }
    }
}
