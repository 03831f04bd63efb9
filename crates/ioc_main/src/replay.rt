//! A loaded database and the operations of scripts on it.
ghost use Rattle.std.specs.Prelude.{◌≡◌, ◌≤◌, ◌+◌, ◌∷◌, ◌++◌, [], length, codes, IfOk, OnOk};
ghost use Rattle.rec_types.specs.Record.{record_rules};
ghost use Rattle.ioc_record.specs.Values.{text_of};
ghost use Rattle.ioc_process.specs.Rules.{IsSettled};
ghost use Rattle.ioc_dbfile.specs.FirstWorld.{first_world};
ghost use Rattle.ioc_sim.specs.Machine.{first_machine, queued_on};
ghost use Rattle.ioc_sim.specs.SeenMachine.{machine_of};
ghost use Rattle.ioc_commands.specs.Commands.{Process, Put, Next-done, Done, Scan, Event, Interrupt, Link};
ghost use Rattle.ioc_commands.specs.Commands.{At, Tally as Tally-command, Notify, Cancel, Sets};
ghost use Rattle.ioc_main.specs.Replay.{given_value, record_named, channel, got, answers_next, were_completed, replied, counted};
ghost use Rattle.ioc_main.specs.Replies.{text_words};
ghost use Rattle.ioc_main.specs.Doing.{effect_on, FoundOrRefused, Does};

use crate::fields::{channel, record, relink};
use crate::session::Replies;
use crate::sets::say_sets;
use crate::{count_line, say_refusal, say_reply, tally_line};
use ioc_device::Answer;
use ioc_fields::FieldNo;
use ioc_names::Names;
use ioc_notify::NotifyId;
use ioc_record::add_text;
use ioc_scan::{ListName, Period};
use ioc_scan_rules::{event_list, interrupt_list};
use ioc_sim::Machine;
use ioc_store::Store;
use ioc_trace::TraceLog;
use ioc_values::{Finished, Input, IocError, Text, Value};
use rec_types::Record;
use std::alloc::{AllocError, Global};

/// A loaded database on which a script works.
#[derive(Drop)]
pub struct Replay {
    pub(crate) names: Names,
    pub(crate) machine: Machine,
    pub(crate) alloc: Global,
}

// Returns the value of a text, which is its first 39 bytes.
fn given_value(text: &[u8]) -> Value
    ensures { result ≡ given_value text.now }
{
    Value::Text(Text::cut(text))
}

// Appends the line with the text of a field.
fn say_shown(replies: &mut Replies, item: &Record, field: FieldNo)
    requires { length replies.old + 256 ≤ 4096 }
    ensures { replies.new ≡ replies.old ++ (codes "= " ++ text_of record_rules item.now field) ++ 10 ∷ [] }
{
    replies.extend(b"= ");
    add_text(replies, item, field);
    replies.push(b'\n');
}

// Returns what a line names, or appends the line of the refusal if it isn't there.
#[inline(always)]
fn or_refuse<T: Drop>(found: Result<T, IocError>, replies: &mut Replies) -> Option<T>
    requires { length replies.old + 256 ≤ 4096 }
    ensures { FoundOrRefused found result replies.old replies.new }
{
    match found {
        Ok(found) => Some(found),
        Err(refused) => {
            say_refusal(replies, refused);
            None
        }
    }
}

#[tactic(auto, unfolding(crate::specs::Replay::carried_out))]
impl Replay {
    /// Creates a database of these names and records, whose events are traced to the log, if there
    /// is one. All memory that events need is reserved here, but for the lines of the log; of the
    /// lines of a script, only those that queue an answer, walk a scan list or move a record to
    /// another allocate.
    ///
    /// # Errors
    ///
    /// [`AllocError`] if allocation fails.
    pub fn new(
        alloc: Global,
        names: Names,
        records: Vec<Record>,
        log: Option<&TraceLog>,
    ) -> Result<Self, AllocError>
        requires { IsSettled record_rules (first_world records.items) }
        ensures names { IfOk result (λ r. r.names ≡ names) }
        ensures machine { IfOk result (λ r. machine_of r.machine ≡ first_machine record_rules records.items) }
    {
        let machine = Machine::new(alloc, records, log)?;
        Ok(Replay {
            names,
            machine,
            alloc,
        })
    }

    // Each of the following functions carries out a command and appends its reply. None is inlined,
    // so that the locals of one command aren't cleared for the others.
    #[inline(never)]
    pub(crate) fn process(&mut self, name: &[u8], replies: &mut Replies) -> Result<(), AllocError>
        requires { length replies.old + 256 ≤ 4096 }
        ensures { Does (effect_on self.old (Process name.now)) result self.old self.new replies.old replies.new }
    {
        let Some(number) = or_refuse(record(&self.names, name), replies) else {
            return Ok(());
        };
        say_reply(replies, &self.machine.process(number)?);
        Ok(())
    }

    // Appends the text of the field directly to the replies. There is no event, because a get
    // changes nothing.
    #[inline(never)]
    #[tactic(auto, using(crate::proofs::Getting::shown_there))]
    pub(crate) fn get(&self, record_name: &[u8], field_name: &[u8], replies: &mut Replies)
        requires { length replies.old + 256 ≤ 4096 }
        ensures { replies.new
            ≡ replies.old
            ++ text_words (got record_rules self.now.names (machine_of self.now.machine)
            (channel record_rules self.now.names (machine_of self.now.machine).world record_name.now field_name.now))
            ++ 10 ∷ [] }
    {
        match channel(&self.names, &self.machine, record_name, field_name) {
            Ok((number, field)) => say_shown(replies, self.machine.map().record(number), field),
            Err(refused) => say_refusal(replies, refused),
        }
    }

    #[inline(never)]
    pub(crate) fn put(
        &mut self,
        record_name: &[u8],
        field_name: &[u8],
        text: &[u8],
        replies: &mut Replies,
    ) -> Result<(), AllocError>
        requires { length replies.old + 256 ≤ 4096 }
        ensures { Does (effect_on self.old (Put record_name.now field_name.now text.now)) result self.old self.new
            replies.old replies.new }
    {
        let found = channel(&self.names, &self.machine, record_name, field_name);
        let Some((number, field)) = or_refuse(found, replies) else {
            return Ok(());
        };
        say_reply(replies, &self.machine.put(number, field, text)?);
        Ok(())
    }

    #[inline(never)]
    pub(crate) fn queue(
        &mut self,
        name: &[u8],
        answer: Answer,
        replies: &mut Replies,
    ) -> Result<(), AllocError>
        requires { length replies.old + 256 ≤ 4096 }
        ensures { Does (replied (answers_next record_rules self.old.names (machine_of self.old.machine) answer
            (record_named self.old.names name.now))) result self.old self.new replies.old replies.new }
    {
        let Some(number) = or_refuse(record(&self.names, name), replies) else {
            return Ok(());
        };
        say_reply(replies, &self.machine.queue(number, answer)?);
        Ok(())
    }

    #[inline(never)]
    pub(crate) fn queue_done(
        &mut self,
        name: &[u8],
        text: &[u8],
        replies: &mut Replies,
    ) -> Result<(), AllocError>
        requires { length replies.old + 256 ≤ 4096 }
        ensures { Does (effect_on self.old (Next-done name.now text.now)) result self.old self.new replies.old replies.new }
    {
        self.queue(name, Answer::Done(given_value(text)), replies)
    }

    #[inline(never)]
    pub(crate) fn complete(
        &mut self,
        name: &[u8],
        wait: u64,
        finished: Finished,
        replies: &mut Replies,
    ) -> Result<(), AllocError>
        requires { length replies.old + 256 ≤ 4096 }
        ensures { Does (replied (were_completed record_rules self.old.names (machine_of self.old.machine) wait finished
            (record_named self.old.names name.now))) result self.old self.new replies.old replies.new }
    {
        let Some(number) = or_refuse(record(&self.names, name), replies) else {
            return Ok(());
        };
        say_reply(replies, &self.machine.complete(number, wait, finished)?);
        Ok(())
    }

    #[inline(never)]
    pub(crate) fn complete_done(
        &mut self,
        name: &[u8],
        wait: u64,
        text: &[u8],
        replies: &mut Replies,
    ) -> Result<(), AllocError>
        requires { length replies.old + 256 ≤ 4096 }
        ensures { Does (effect_on self.old (Done name.now wait text.now)) result self.old self.new replies.old replies.new }
    {
        self.complete(name, wait, Finished::Done(given_value(text)), replies)
    }

    #[inline(never)]
    fn call(&mut self, list: Option<ListName>, replies: &mut Replies) -> Result<(), AllocError>
        requires { length replies.old + 256 ≤ 4096 }
        ensures { Does (counted (queued_on (machine_of self.old.machine) list)) result self.old self.new replies.old replies.new }
    {
        let count = self.machine.call(list)?;
        replies.extend(count_line(count).as_slice());
        Ok(())
    }

    #[inline(never)]
    pub(crate) fn scan(&mut self, period: &Period, replies: &mut Replies) -> Result<(), AllocError>
        requires { length replies.old + 256 ≤ 4096 }
        ensures { Does (effect_on self.old (Scan period.now)) result self.old self.new replies.old replies.new }
    {
        let count = self.machine.scan(&ListName::Period(*period))?;
        replies.extend(count_line(count).as_slice());
        Ok(())
    }

    #[inline(never)]
    pub(crate) fn post(&mut self, name: &[u8], replies: &mut Replies) -> Result<(), AllocError>
        requires { length replies.old + 256 ≤ 4096 }
        ensures { Does (effect_on self.old (Event name.now)) result self.old self.new replies.old replies.new }
    {
        self.call(event_list(Text::cut(name)), replies)
    }

    #[inline(never)]
    pub(crate) fn interrupt(&mut self, word: &[u8], replies: &mut Replies) -> Result<(), AllocError>
        requires { length replies.old + 256 ≤ 4096 }
        ensures { Does (effect_on self.old (Interrupt word.now)) result self.old self.new replies.old replies.new }
    {
        self.call(interrupt_list(word), replies)
    }

    #[inline(never)]
    pub(crate) fn link(
        &mut self,
        record_name: &[u8],
        field_name: &[u8],
        text: &[u8],
        replies: &mut Replies,
    ) -> Result<(), AllocError>
        requires { length replies.old + 256 ≤ 4096 }
        ensures { Does (effect_on self.old (Link record_name.now field_name.now text.now)) result self.old self.new
            replies.old replies.new }
    {
        let found = channel(&self.names, &self.machine, record_name, field_name);
        let Some((number, field)) = or_refuse(found, replies) else {
            return Ok(());
        };
        let told = relink(&self.names, &mut self.machine, number, field, text)?;
        say_reply(replies, &told);
        Ok(())
    }

    #[inline(never)]
    pub(crate) fn begin_at(&mut self, moment: u64, replies: &mut Replies)
        requires { length replies.old + 256 ≤ 4096 }
        ensures names { self.new.names ≡ self.old.names }
        ensures machine { machine_of self.new.machine ≡ (effect_on self.old (At moment)).machine }
        ensures said { replies.new ≡ replies.old ++ (effect_on self.old (At moment)).said }
    {
        self.machine.set_moment(moment);
        replies.extend(b"ok\n");
    }

    #[inline(never)]
    pub(crate) fn tally(&self, replies: &mut Replies)
        requires { length replies.old + 256 ≤ 4096 }
        ensures { replies.new ≡ replies.old ++ (effect_on self.now Tally-command).said }
    {
        replies.extend(tally_line(self.machine.tally(), self.machine.dropped()).as_slice());
    }

    #[inline(never)]
    pub(crate) fn notify(
        &mut self,
        record_name: &[u8],
        field_name: &[u8],
        text: &[u8],
        replies: &mut Replies,
    ) -> Result<(), AllocError>
        requires { length replies.old + 256 ≤ 4096 }
        ensures { Does (effect_on self.old (Notify record_name.now field_name.now text.now)) result self.old self.new
            replies.old replies.new }
    {
        let found = channel(&self.names, &self.machine, record_name, field_name);
        let Some((number, field)) = or_refuse(found, replies) else {
            return Ok(());
        };
        let told = self.machine.notify(number, field, Input::from_text(text))?;
        say_reply(replies, &told);
        Ok(())
    }

    #[inline(never)]
    pub(crate) fn cancel(&mut self, number: u64, replies: &mut Replies) -> Result<(), AllocError>
        requires { length replies.old + 256 ≤ 4096 }
        ensures { Does (effect_on self.old (Cancel number)) result self.old self.new replies.old replies.new }
    {
        say_reply(replies, &self.machine.cancel(NotifyId::new(number))?);
        Ok(())
    }

    // The reply may be too long for the lines of other replies.
    #[inline(never)]
    pub(crate) fn sets(&self, more: &mut Vec<u8>) -> Result<(), AllocError>
        requires { more.old.items ≡ [] }
        ensures { OnOk result (more.new.items ≡ (effect_on self.now Sets).said) }
    {
        say_sets(self.alloc, &self.machine, more)
    }
}
