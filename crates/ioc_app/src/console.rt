//! The console, which answers lines.
use crate::caller::{Caller, LineFault};
use crate::fault::RunFault;
use crate::kinds::{add_choices, add_kinds, given_by};
use crate::reading::Wanted;
use crate::streams::{LineWriter, Streams};
use crate::task::Task;
use ioc_commands::{BadLine, Command, Dialect, Help, Request, Tagged, read_text};
use ioc_engine::{
    Clock, Database, Desk, Device, Engine, EngineName, Finished, Input, IocError, NotifyId, Reply,
    Text, Value,
};
use ioc_fields::field_list::fields;
use ioc_fields::{RecordType, field, row_of};
use ioc_listing::{
    RecordList, add_count, add_field, add_named, add_placed, add_reply, add_shown, add_tagged,
};
use ioc_main::{PROMPT, PendingOutput, ScriptFault, Session, ended_line, run_script};
use ioc_watches::{Watch, WatchWord, rule_of};
use std::alloc::{AllocError, Global};
use std::io::{Read, Write};
use std::sync::Wait;

/// A console: answers the lines of an input, one after another, until the input ends or a line ends
/// it.
#[derive(Drop)]
pub struct Console<I: Read + Drop, E: Write + Drop> {
    input: I,
    answerer: Answerer<E>,
}

// Answers the lines of a console.
#[derive(Drop)]
struct Answerer<E: Write + Drop> {
    // Whether the run has a clock of its own.
    dialect: Dialect,
    // Where the number of the line of each refusal is written.
    errors: E,
    // If there is a prompt, numbers of lines aren't written, and a line that asks for nothing is
    // explained behind its reply.
    has_prompt: bool,
    // Whether the line has a tag. Then neither is done.
    is_tagged: bool,
    records: RecordList,
    // The number of the line, from 1 on, and that of the last tick.
    line: u64,
    tick: u64,
    // How many asks of devices were answered.
    answered: u64,
    // How many puts with notification were begun, and how many have ended or were canceled. Each ends by a
    // line: whatever is part of one awaits a device, so no worker and no tick ends one.
    puts_begun: u64,
    puts_over: u64,
}

// What is said to a line: its reply, and the lines that come behind it without a tag.
#[derive(Drop)]
struct Answer {
    reply: Vec<u8>,
    behind: Vec<u8>,
}

impl Answer {
    fn clear(&mut self) {
        self.reply.clear();
        self.behind.clear();
    }
}

// What is to be done after a line.
#[derive(Clone, Copy)]
enum Then {
    More,
    End,
}

// A console at work: its calls, and what the run writes.
#[derive(Drop)]
struct Talk<
    'a,
    's,
    E: Write + Drop,
    B: EngineName<D>,
    D: Device,
    C: Clock + Drop,
    W: Write + Drop,
    J: Write + Drop,
    R: Wait,
> {
    answerer: &'a mut Answerer<E>,
    caller: Caller<'a, B, D, C, R>,
    streams: &'a Streams<'s, W, J>,
    // What is said to the line.
    answer: Answer,
    has_ended: bool,
    fault: Option<RunFault>,
}

impl<I: Read + Drop, E: Write + Drop> Console<I, E> {
    /// Creates a console for an engine of this database. If it has a prompt, it is for a user; if
    /// not, it writes the number of the line of each refusal to `errors`.
    ///
    /// # Errors
    ///
    /// [`AllocError`] if allocation fails.
    pub fn new(
        alloc: Global,
        database: &Database,
        input: I,
        errors: E,
        has_prompt: bool,
    ) -> Result<Self, AllocError> {
        Ok(Console {
            input,
            answerer: Answerer {
                dialect: Dialect::Console,
                errors,
                has_prompt,
                is_tagged: false,
                records: RecordList::new(alloc, database)?,
                line: 0,
                tick: 0,
                answered: 0,
                puts_begun: 0,
                puts_over: 0,
            },
        })
    }

    /// The same console beside a clock, so that no line walks ticks.
    pub fn with_clock(mut self) -> Self {
        self.answerer.dialect = Dialect::Live;
        self
    }
}

impl<E: Write + Drop> Answerer<E> {
    // Writes the number of the line and what was wrong with it. If it can't be written, nothing
    // else changes.
    fn tell(&mut self, alloc: Global, words: &str) -> Result<(), AllocError> {
        if self.has_prompt || self.is_tagged {
            return Ok(());
        }
        let number = self.line;
        let text = format!(in alloc; "line {number}: {words}\n")?;
        let _written = self.errors.write_all(text.as_bytes());
        Ok(())
    }

    // Appends the line of a refusal, and tells the number of its line.
    fn refuse(
        &mut self,
        alloc: Global,
        refused: IocError,
        said: &mut Vec<u8>,
    ) -> Result<(), AllocError> {
        add_reply(said, &Reply::Refused(refused))?;
        self.tell(alloc, refused.words())
    }

    // Appends the reply to a line that is none of the console, and at a prompt what is wrong with it.
    fn say_bad(
        &mut self,
        alloc: Global,
        line: &[u8],
        said: &mut Vec<u8>,
    ) -> Result<(), AllocError> {
        said.extend_from_slice(b"bad\n")?;
        if self.has_prompt && !self.is_tagged {
            let why = format!(in alloc; "{}\n", BadLine::of(self.dialect, line))?;
            said.extend_from_slice(why.as_bytes())?;
        }
        self.tell(alloc, "bad")
    }

    // Appends the reply to a call of a program, with the call's place in the journal.
    fn say_placed(
        &mut self,
        alloc: Global,
        answered: (Reply, u64),
        said: &mut Vec<u8>,
    ) -> Result<(), AllocError> {
        let (reply, place) = answered;
        add_placed(alloc, said, &reply, place)?;
        match reply {
            Reply::Refused(refused) => self.tell(alloc, refused.words()),
            _ => Ok(()),
        }
    }

    // Walks the periods of so many ticks.
    fn walk<
        B: EngineName<D>,
        D: Device,
        C: Clock + Drop,
        W: Write + Drop,
        J: Write + Drop,
        R: Wait,
    >(
        &mut self,
        caller: &mut Caller<'_, B, D, C, R>,
        count: u64,
        streams: &Streams<'_, W, J>,
    ) -> Result<u64, LineFault> {
        let mut requested = 0u64;
        for _ in 0..count {
            self.tick = self.tick.saturating_add(1);
            requested = requested.saturating_add(caller.tick(self.tick)?);
            caller.write_new(streams)?;
        }
        Ok(requested)
    }

    // Appends a line for each count of the run, and how many there are.
    fn add_status<W: Write + Drop, J: Write + Drop, R: Wait>(
        &self,
        rt: &R,
        alloc: Global,
        streams: &Streams<'_, W, J>,
        said: &mut Vec<u8>,
    ) -> Result<(), AllocError> {
        let counts = streams.counts(rt);
        let pace = counts.pace;
        add_named(alloc, said, "ticks", self.tick.saturating_add(pace.ticks))?;
        add_named(alloc, said, "ticks_missed", pace.missed)?;
        add_named(alloc, said, "late_us", pace.late / 1_000)?;
        add_named(alloc, said, "watches", counts.watches)?;
        let open = counts.told.saturating_sub(self.answered);
        add_named(alloc, said, "asks_open", open)?;
        let live = self.puts_begun.saturating_sub(self.puts_over);
        add_named(alloc, said, "puts_live", live)?;
        let mut count = 6;
        if let Some((entries, in_memory)) = counts.entries {
            add_named(alloc, said, "entries", entries)?;
            add_named(alloc, said, "entries_in_memory", in_memory)?;
            count += 2;
        }
        if let Some((saves, failed)) = counts.saves {
            add_named(alloc, said, "saves", saves)?;
            add_named(alloc, said, "saves_failed", failed)?;
            count += 2;
        }
        add_count(said, count)
    }

    // Answers for the device of a record, and appends the reply.
    fn do_finished<B: EngineName<D>, D: Device, C: Clock + Drop, R: Wait>(
        &mut self,
        caller: &mut Caller<'_, B, D, C, R>,
        line: &[u8],
        command: &Command<'_>,
        answer: &mut Answer,
    ) -> Result<(), LineFault> {
        let (record, wait, finished) = match *command {
            Command::Done(record, wait, text) => match read_text(text) {
                Some(text) => (
                    record,
                    wait,
                    Finished::Done(Value::Text(Text::cut(text.as_slice()))),
                ),
                None => return Ok(self.say_bad(caller.alloc, line, &mut answer.reply)?),
            },
            Command::Fault(record, wait) => (record, wait, Finished::Fault),
            _ => return Ok(self.say_bad(caller.alloc, line, &mut answer.reply)?),
        };
        let reply = caller.complete(record, wait, finished)?;
        if let Reply::Plain = reply {
            self.answered = self.answered.saturating_add(1);
        }
        self.say(caller, reply, answer)
    }

    // Appends a line for each field of a record, and returns how many fields it has.
    fn add_fields<B: EngineName<D>, D: Device, C: Clock + Drop, R: Wait>(
        &mut self,
        caller: &mut Caller<'_, B, D, C, R>,
        name: &[u8],
        said: &mut Vec<u8>,
    ) -> Result<u64, LineFault> {
        let number = caller.engine.record(name)?;
        let Some(record_type) = self.records.record_type(number) else {
            return Err(LineFault::Refused(IocError::NoRecord));
        };
        let mut count = 0u64;
        for field in fields() {
            if row_of(record_type, *field).is_some() {
                let text = caller.get_field(name, *field)?;
                add_field(said, *field, text.as_slice())?;
                count = count.saturating_add(1);
            }
        }
        Ok(count)
    }
}

// Makes the call that a line of a script asks for, if its answer is a reply.
fn reply_to<B: EngineName<D>, D: Device, C: Clock + Drop, R: Wait>(
    caller: &mut Caller<'_, B, D, C, R>,
    command: &Command<'_>,
) -> Result<Option<Reply>, LineFault> {
    let reply = match *command {
        Command::Process(record) => caller.process(record)?,
        Command::Put(record, field, text) => caller.put(record, field, text)?,
        Command::Notify(record, field, text) => caller.notify(record, field, text)?,
        Command::Cancel(number) => caller.cancel(number)?,
        Command::Link(record, field, text) => caller.link(record, field, text)?,
        _ => return Ok(None),
    };
    Ok(Some(reply))
}

// Makes the call that a line of a script asks for, if its answer is a count.
fn count_for<B: EngineName<D>, D: Device, C: Clock + Drop, R: Wait>(
    caller: &mut Caller<'_, B, D, C, R>,
    command: &Command<'_>,
) -> Result<Option<u64>, LineFault> {
    let count = match *command {
        Command::Event(name) => caller.post(name)?,
        Command::Interrupt(word) => caller.interrupt(word)?,
        Command::Scan(period) => caller.scan(period)?,
        _ => return Ok(None),
    };
    Ok(Some(count))
}

// Makes the put of a program with this value, if a line asks for one. Returns the reply and the place
// of the call.
fn placed_by<B: EngineName<D>, D: Device, C: Clock + Drop, R: Wait>(
    caller: &mut Caller<'_, B, D, C, R>,
    request: &Request<'_>,
    given: Input,
) -> Result<Option<(Reply, u64)>, LineFault> {
    match *request {
        Request::PutPlaced(record, field, _) => Ok(Some(caller.put_placed(record, field, given)?)),
        Request::NotifyPlaced(record, field, _) => {
            Ok(Some(caller.notify_placed(record, field, given)?))
        }
        _ => Ok(None),
    }
}

impl<E: Write + Drop> Answerer<E> {
    // Counts the puts with notification that the last call has begun or ended, and appends a line for each
    // that has ended.
    fn add_ended<B: EngineName<D>, D: Device, C: Clock + Drop, R: Wait>(
        &mut self,
        caller: &Caller<'_, B, D, C, R>,
        reply: &Reply,
        behind: &mut Vec<u8>,
    ) -> Result<(), AllocError> {
        if let Reply::Notify(_) = reply {
            self.puts_begun = self.puts_begun.saturating_add(1);
        }
        let ended = caller.desk.ended();
        self.puts_over = self.puts_over.saturating_add(ended.len() as u64);
        for number in ended {
            behind.extend_from_slice(ended_line(*number).as_slice())?;
        }
        Ok(())
    }

    // Appends the line of a reply and one for each put with notification that has ended by its call, or
    // returns the refusal.
    fn say<B: EngineName<D>, D: Device, C: Clock + Drop, R: Wait>(
        &mut self,
        caller: &Caller<'_, B, D, C, R>,
        reply: Reply,
        answer: &mut Answer,
    ) -> Result<(), LineFault> {
        if let Reply::Refused(refused) = reply {
            return Err(LineFault::from(refused));
        }
        add_reply(&mut answer.reply, &reply)?;
        Ok(self.add_ended(caller, &reply, &mut answer.behind)?)
    }

    // Does what a line of a script asks for, and appends its reply.
    fn do_script<B: EngineName<D>, D: Device, C: Clock + Drop, R: Wait>(
        &mut self,
        caller: &mut Caller<'_, B, D, C, R>,
        line: &[u8],
        command: &Command<'_>,
        answer: &mut Answer,
    ) -> Result<(), LineFault> {
        match *command {
            Command::Silent => return Ok(()),
            Command::Get(record, field) => {
                let text = caller.get(record, field)?;
                return Ok(add_shown(&mut answer.reply, text.as_slice())?);
            }
            Command::Sets => {
                let sets = caller.engine.parts(caller.rt, caller.desk)?;
                return Ok(self.records.add_sets(&mut answer.reply, sets.as_slice())?);
            }
            Command::Done(_, _, _) | Command::Fault(_, _) => {
                return self.do_finished(caller, line, command, answer);
            }
            _ => {}
        }
        if let Some(reply) = reply_to(caller, command)? {
            if let (Command::Cancel(_), Reply::Plain) = (command, &reply) {
                self.puts_over = self.puts_over.saturating_add(1);
            }
            return self.say(caller, reply, answer);
        }
        match count_for(caller, command)? {
            Some(count) => Ok(add_count(&mut answer.reply, count)?),
            None => Ok(self.say_bad(caller.alloc, line, &mut answer.reply)?),
        }
    }

    // Makes the put of a program, and appends its reply.
    fn do_placed<B: EngineName<D>, D: Device, C: Clock + Drop, R: Wait>(
        &mut self,
        caller: &mut Caller<'_, B, D, C, R>,
        line: &[u8],
        request: &Request<'_>,
        answer: &mut Answer,
    ) -> Result<(), LineFault> {
        let (Request::PutPlaced(record, field, text) | Request::NotifyPlaced(record, field, text)) =
            *request
        else {
            return Ok(());
        };
        let number = caller.engine.record(record)?;
        let Some(given) = given_by(self.records.record_type(number), field, text)? else {
            return Ok(self.say_bad(caller.alloc, line, &mut answer.reply)?);
        };
        let Some(answered) = placed_by(caller, request, given)? else {
            return Ok(());
        };
        let reply = answered.0;
        self.say_placed(caller.alloc, answered, &mut answer.reply)?;
        Ok(self.add_ended(caller, &reply, &mut answer.behind)?)
    }

    // Appends the names of the records that a type, a pattern, or both stand for.
    fn list(
        &mut self,
        alloc: Global,
        line: &[u8],
        word: &[u8],
        pattern: Option<&[u8]>,
        said: &mut Vec<u8>,
    ) -> Result<(), AllocError> {
        let count = match (RecordType::from_name(word), pattern) {
            (None, None) => self.records.add_names(said, None, word)?,
            (None, Some(_)) => return self.say_bad(alloc, line, said),
            (wanted, pattern) => self
                .records
                .add_names(said, wanted, pattern.unwrap_or(b"*"))?,
        };
        add_count(said, count)
    }

    // Appends the line of fields of a record, all of one moment.
    fn read<B: EngineName<D>, D: Device, C: Clock + Drop, R: Wait>(
        &mut self,
        caller: &mut Caller<'_, B, D, C, R>,
        name: &[u8],
        words: &[u8],
        said: &mut Vec<u8>,
    ) -> Result<(), LineFault> {
        let number = caller.engine.record(name)?;
        let Some(record_type) = self.records.record_type(number) else {
            return Err(LineFault::Refused(IocError::NoRecord));
        };
        let wanted = Wanted::of(caller.alloc, record_type, words)?;
        let shown = caller.look(name, wanted.fields.as_slice())?;
        Ok(wanted.add_line(said, shown.as_slice())?)
    }

    // Watches the field that a word names. The line of what it is now is written at once.
    fn watch<
        B: EngineName<D>,
        D: Device,
        C: Clock + Drop,
        W: Write + Drop,
        J: Write + Drop,
        R: Wait,
    >(
        &self,
        caller: &mut Caller<'_, B, D, C, R>,
        word: &[u8],
        streams: &Streams<'_, W, J>,
    ) -> Result<(), LineFault> {
        let parts = WatchWord::of(word);
        let number = caller.engine.record(parts.record)?;
        let Some(record_type) = self.records.record_type(number) else {
            return Err(LineFault::Refused(IocError::NoRecord));
        };
        let Some(field) = field(record_type, parts.field) else {
            return Err(LineFault::Refused(IocError::NoField));
        };
        let rule = rule_of(record_type, field);
        let watch = Watch::new(caller.alloc, word, field, parts.is_number, rule)?;
        caller.watch(streams, number, watch)
    }

    // Does what a line of watches asks for, and appends its reply.
    fn do_watch<
        B: EngineName<D>,
        D: Device,
        C: Clock + Drop,
        W: Write + Drop,
        J: Write + Drop,
        R: Wait,
    >(
        &self,
        caller: &mut Caller<'_, B, D, C, R>,
        request: &Request<'_>,
        said: &mut Vec<u8>,
        streams: &Streams<'_, W, J>,
    ) -> Result<(), LineFault> {
        match *request {
            Request::Watch(word) => self.watch(caller, word, streams)?,
            Request::Unwatch(word) => caller.unwatch(streams, word)?,
            _ => {}
        }
        Ok(add_reply(said, &Reply::Plain)?)
    }

    // Appends what programs ask about records, record types and menus.
    fn describe(
        &mut self,
        alloc: Global,
        request: &Request<'_>,
        said: &mut Vec<u8>,
    ) -> Result<(), LineFault> {
        let count = match *request {
            Request::Fields(name) => match RecordType::from_name(name) {
                Some(record_type) => add_kinds(said, record_type)?,
                None => return Err(LineFault::Refused(IocError::BadValue)),
            },
            Request::Choices(name) => match add_choices(alloc, said, name)? {
                Some(count) => count,
                None => return Err(LineFault::Refused(IocError::BadValue)),
            },
            _ => self.records.add_types(said)?,
        };
        Ok(add_count(said, count)?)
    }

    // Appends a line for each command, and `ok`.
    fn help(&self, alloc: Global, said: &mut Vec<u8>) -> Result<(), AllocError> {
        let help = format!(in alloc; "{}", Help(self.dialect))?;
        said.extend_from_slice(help.as_bytes())?;
        add_reply(said, &Reply::Plain)
    }

    // Does what a line asks for, appends its reply, and returns whether the console goes on.
    fn carry_out<
        B: EngineName<D>,
        D: Device,
        C: Clock + Drop,
        W: Write + Drop,
        J: Write + Drop,
        R: Wait,
    >(
        &mut self,
        caller: &mut Caller<'_, B, D, C, R>,
        line: &[u8],
        answer: &mut Answer,
        streams: &Streams<'_, W, J>,
    ) -> Result<Then, LineFault> {
        let request = Request::from_line(self.dialect, line);
        match request {
            Request::Command(command) => self.do_script(caller, line, &command, answer)?,
            Request::Tick(count) => {
                add_count(&mut answer.reply, self.walk(caller, count, streams)?)?
            }
            Request::Checkpoint => {
                streams.checkpoint(caller.rt, caller.engine, caller.desk)?;
                add_reply(&mut answer.reply, &Reply::Plain)?;
            }
            Request::List(word, pattern) => {
                self.list(caller.alloc, line, word, pattern, &mut answer.reply)?
            }
            Request::Show(name) => {
                let count = self.add_fields(caller, name, &mut answer.reply)?;
                add_count(&mut answer.reply, count)?;
            }
            Request::PutPlaced(_, _, _) | Request::NotifyPlaced(_, _, _) => {
                self.do_placed(caller, line, &request, answer)?
            }
            Request::Read(name, words) => { self.read(caller, name, words, &mut answer.reply)? }
            Request::Records | Request::Fields(_) | Request::Choices(_) => {
                self.describe(caller.alloc, &request, &mut answer.reply)?
            }
            Request::Watch(_) | Request::Unwatch(_) => {
                self.do_watch(caller, &request, &mut answer.reply, streams)?
            }
            Request::Status => {
                self.add_status(caller.rt, caller.alloc, streams, &mut answer.reply)?
            }
            Request::Help => self.help(caller.alloc, &mut answer.reply)?,
            Request::Exit => return Ok(Then::End),
        }
        Ok(Then::More)
    }

    // Answers a line without its tag, and returns whether the console goes on.
    fn answer_untagged<
        B: EngineName<D>,
        D: Device,
        C: Clock + Drop,
        W: Write + Drop,
        J: Write + Drop,
        R: Wait,
    >(
        &mut self,
        caller: &mut Caller<'_, B, D, C, R>,
        line: &[u8],
        answer: &mut Answer,
        streams: &Streams<'_, W, J>,
    ) -> Result<Then, RunFault> {
        match self.carry_out(caller, line, answer, streams) {
            Ok(then) => Ok(then),
            Err(LineFault::Refused(refused)) => {
                self.refuse(caller.alloc, refused, &mut answer.reply)?;
                Ok(Then::More)
            }
            Err(LineFault::Run(fault)) => Err(fault),
        }
    }

    // Answers a line with this tag. A line for which nothing is said is answered `ok`.
    fn answer_tagged<
        B: EngineName<D>,
        D: Device,
        C: Clock + Drop,
        W: Write + Drop,
        J: Write + Drop,
        R: Wait,
    >(
        &mut self,
        caller: &mut Caller<'_, B, D, C, R>,
        tag: &[u8],
        line: &[u8],
        answer: &mut Answer,
        streams: &Streams<'_, W, J>,
    ) -> Result<Then, RunFault> {
        self.is_tagged = true;
        let answered = self.answer_untagged(caller, line, answer, streams);
        self.is_tagged = false;
        let then = answered?;
        if answer.reply.is_empty() && matches!(then, Then::More) {
            add_reply(&mut answer.reply, &Reply::Plain)?;
        }
        let mut tagged = Vec::new(caller.alloc);
        add_tagged(&mut tagged, tag, answer.reply.as_slice())?;
        answer.reply = tagged;
        Ok(then)
    }

    // Answers a line, and returns whether the console goes on.
    fn answer<
        B: EngineName<D>,
        D: Device,
        C: Clock + Drop,
        W: Write + Drop,
        J: Write + Drop,
        R: Wait,
    >(
        &mut self,
        caller: &mut Caller<'_, B, D, C, R>,
        line: &[u8],
        answer: &mut Answer,
        streams: &Streams<'_, W, J>,
    ) -> Result<Then, RunFault> {
        self.line = self.line.saturating_add(1);
        match Tagged::of(line) {
            Tagged::Plain(line) => self.answer_untagged(caller, line, answer, streams),
            Tagged::Tag(tag, line) => self.answer_tagged(caller, tag, line, answer, streams),
            Tagged::Malformed => {
                self.say_bad(caller.alloc, line, &mut answer.reply)?;
                Ok(Then::More)
            }
        }
    }
}

impl<I: Read + Drop, E: Write + Drop> Task for Console<I, E> {
    fn work<
        B: EngineName<D>,
        D: Device,
        C: Clock + Drop,
        W: Write + Drop,
        J: Write + Drop,
        R: Wait,
    >(
        &mut self,
        rt: &R,
        alloc: Global,
        engine: &Engine<B, D, C>,
        desk: &mut Desk<B, D>,
        streams: &Streams<'_, W, J>,
    ) -> Result<(), RunFault> {
        let Console { input, answerer } = self;
        if converse(rt, alloc, engine, desk, answerer, &*streams, input)? {
            streams.write(rt, b"\n")?;
        }
        Ok(())
    }

    fn is_endless(&self) -> bool {
        true
    }

    fn has_clock(&self) -> bool {
        self.answerer.dialect == Dialect::Live
    }
}

// Answers the lines of an input, and returns whether a prompt stands behind the last reply.
fn converse<
    'a,
    I: Read + Drop,
    E: Write + Drop,
    B: EngineName<D>,
    D: Device,
    C: Clock + Drop,
    W: Write + Drop,
    J: Write + Drop,
    R: Wait,
>(
    rt: &'a R,
    alloc: Global,
    engine: &'a Engine<B, D, C>,
    desk: &'a mut Desk<B, D>,
    answerer: &'a mut Answerer<E>,
    streams: &'a Streams<'_, W, J>,
    input: &mut I,
) -> Result<bool, RunFault> {
    let has_prompt = answerer.has_prompt;
    let caller = Caller {
        rt,
        alloc,
        engine,
        desk,
    };
    let mut out = LineWriter::new(rt, streams);
    let mut talk = Talk {
        answerer,
        caller,
        streams,
        answer: Answer {
            reply: Vec::new(alloc),
            behind: Vec::new(alloc),
        },
        has_ended: false,
        fault: None,
    };
    let ran = run_script(alloc, &mut talk, input, &mut out);
    let is_prompted = has_prompt && !talk.has_ended;
    ended(talk.fault, ran, out.fault)?;
    Ok(is_prompted)
}

// Returns why a console ended early, if it has: by a fault of its calls or its journal, or by one of
// its lines, whose last write failed for this reason.
fn ended(
    fault: Option<RunFault>,
    ran: Result<(), ScriptFault>,
    unwritten: Option<RunFault>,
) -> Result<(), RunFault> {
    if let Some(fault) = fault {
        return Err(fault);
    }
    match ran {
        Ok(()) => Ok(()),
        Err(ScriptFault::Read(reason)) => Err(RunFault::Read(reason)),
        Err(ScriptFault::Write) => Err(unwritten.unwrap_or(RunFault::Memory)),
        Err(ScriptFault::Memory) => Err(RunFault::Memory),
    }
}

impl<
    E: Write + Drop,
    B: EngineName<D>,
    D: Device,
    C: Clock + Drop,
    W: Write + Drop,
    J: Write + Drop,
    R: Wait,
> Session for Talk<'_, '_, E, B, D, C, W, J, R> {
    ghost use Rattle.std.specs.Prelude.{[]};
    ghost use Rattle.std.proofs.Common.{refl};

    ghost transcript = { λ _ _. [] };

    ghost is_determined = { λ _. ⊥ };

    ghost no_lines = { λ _. refl };

    ghost long_lines = { λ _ _ _ _ _. refl };

    /// Answers a line. After a fault of its call no more lines are answered.
    fn answer(&mut self, line: &[u8], said: &mut PendingOutput) -> Result<(), AllocError> {
        self.answer.clear();
        let caller = &mut self.caller;
        match self
            .answerer
            .answer(caller, line, &mut self.answer, self.streams)
        {
            Ok(Then::More) => {}
            Ok(Then::End) => self.has_ended = true,
            Err(fault) => {
                self.fault = Some(fault);
                self.has_ended = true;
                return Ok(());
            }
        }
        let Answer { reply, behind } = &mut self.answer;
        reply.extend_from_slice(behind.as_slice())?;
        said.add(reply.as_slice())
    }

    /// Writes the entries of the journal that the pending replies tell of, and those before them, and
    /// what devices outside are asked in them.
    fn may_write(&mut self) -> bool {
        if let Some(RunFault::Journal(_)) = self.fault {
            return false;
        }
        match self.caller.write_new(self.streams) {
            Ok(()) => true,
            Err(fault) => {
                self.fault = Some(fault);
                self.has_ended = true;
                false
            }
        }
    }

    fn before_read(&mut self) -> Option<&'static [u8]> {
        if self.answerer.has_prompt {
            Some(PROMPT)
        } else {
            None
        }
    }

    fn has_ended(&self) -> bool {
        self.has_ended
    }
}
