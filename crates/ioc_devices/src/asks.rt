//! Devices outside the program, and what they are asked.
ghost use Rattle.std.specs.Prelude.{◌≡◌, [], IfOk, OnOk};
ghost use Rattle.ioc_devices.specs.Devices.{asks_by, outside_gives};
ghost use Rattle.ioc_devices.specs.Asking.{TakesAll, Adds, IsValueText, IsAskText, IsAskLine, Tells, TellsAll};

use ioc_commands::add_escaped_text;
use ioc_dbfile::{Database, DeviceName, device_named};
use ioc_device::{Answer, Ask, Device};
use ioc_names::RecordNo;
use ioc_record::RecordKind;
use ioc_shared_queues::{QueueLane, SharedQueue};
use ioc_values::{Name, Value, exact_double_text};
use itoa::Buffer;
use std::alloc::{AllocError, Global};
use std::sync::Wait;
use std::sync::atomic::{AtomicBool, Ordering};
use std::thread::Parker;

// How many asks of a device can wait to be told, and of all devices at least.
const ASKS_OF_A_DEVICE: usize = 2;

const LEAST_ASKS: usize = 4_096;

/// A record whose device is outside.
#[derive(Clone, Copy)]
pub struct OutsideRecord {
    pub number: RecordNo,
    pub name: Name,
    /// What follows the `@` of its link.
    pub text: DeviceName,
}

/// What a device outside is asked, with the number of the wait that its answer ends.
#[derive(Clone, Copy)]
pub struct Asked {
    pub device: usize,
    pub wait: u64,
    pub ask: Ask,
}

/// What devices outside are asked and nobody has told them yet.
///
/// ```rust
/// let asks = Asks::new(alloc, &database)?;
/// let devices = asks.devices(rt, alloc)?;
/// ```
#[derive(Drop)]
pub struct Asks {
    pub records: Vec<OutsideRecord>,
    pub queue: SharedQueue<Asked>,
    // Ends the sleep of the thread that tells of the asks.
    alarm: Parker,
    // Whether that thread is to end.
    is_over: AtomicBool,
}

/// A device outside the program: it answers later, and what it is asked is put on a queue. If the
/// queue is full, it answers a fault.
#[derive(Drop)]
pub struct OutsideDevice<'a, R: Wait> {
    rt: &'a R,
    asks: &'a Asks,
    number: usize,
    // The number of its last wait.
    wait: u64,
}

impl<R: Wait> OutsideDevice<'_, R> {
    // Puts what the device is asked on the queue, by this lane of it.
    fn put_by(&mut self, lane: &mut QueueLane<Asked>, ask: Ask) -> Answer
        requires { lane.old.of ≡ self.old.asks.now.queue.id }
        ensures gives { asks_by self.old.number self.old.wait lane.old.seen ask result self.new.wait lane.new.seen }
    {
        let Some(wait) = self.wait.checked_add(1) else {
            return Answer::Fault;
        };
        let asked = Asked {
            device: self.number,
            wait,
            ask,
        };
        let put = self.asks.queue.put(self.rt, lane, asked);
        if put.is_err() {
            return Answer::Fault;
        }
        self.wait = wait;
        self.asks.alarm.unpark();
        Answer::Later
    }

    // Puts what the device is asked on the queue.
    fn put_down(&mut self, ask: Ask) -> Answer
        ensures { outside_gives self.old.wait result self.new.wait }
    {
        let mut lane = self.asks.queue.lane();
        self.put_by(&mut lane, ask)
    }
}

impl<R: Wait> Device for OutsideDevice<'_, R> {
    ghost gives = { λ old _ _ answer new. outside_gives old.wait answer new.wait };

    fn read(&mut self, _moment: u64) -> Answer {
        self.put_down(Ask::Read)
    }

    fn write(&mut self, value: Value, _moment: u64) -> Answer {
        self.put_down(Ask::Write(value))
    }
}

/// Appends a value as programs read it: the number of a state or a choice, a double with all its
/// digits, or a text with escapes.
///
/// # Errors
///
/// [`AllocError`] if allocation fails; a part may have been appended then.
pub fn add_value(out: &mut Vec<u8>, value: Value) -> Result<(), AllocError>
    ensures { OnOk result (Adds (IsValueText value) out.old.items out.new.items) }
{
    match &value {
        Value::Text(text) => add_escaped_text(out, text.as_slice()),
        Value::Double(number) => out.extend_from_slice(exact_double_text(*number).as_slice()),
        _ => match value.number() {
            Some(number) => out.extend_from_slice(Buffer::new().format(number).as_bytes()),
            None => Ok(()),
        },
    }
}

// Appends what a device with this text is asked to do.
fn add_ask(out: &mut Vec<u8>, text: &DeviceName, ask: &Ask) -> Result<(), AllocError>
    ensures { OnOk result (Adds (IsAskText text.now ask.now) out.old.items out.new.items) }
{
    match *ask {
        Ask::Read => {
            out.extend_from_slice(b" read ")?;
            add_escaped_text(out, text.as_slice())
        }
        Ask::Write(value) => {
            out.extend_from_slice(b" write ")?;
            add_escaped_text(out, text.as_slice())?;
            out.push(b'\t')?;
            add_value(out, value)
        }
    }
}

// Appends the line that tells the device of a record what it is asked.
fn add_line_of(out: &mut Vec<u8>, outside: &OutsideRecord, asked: &Asked) -> Result<(), AllocError>
    ensures { OnOk result (Adds (IsAskLine outside.now asked.now) out.old.items out.new.items) }
{
    out.extend_from_slice(b"? ")?;
    out.extend_from_slice(outside.name.as_slice())?;
    out.push(b' ')?;
    out.extend_from_slice(Buffer::new().format(asked.wait).as_bytes())?;
    add_ask(out, &outside.text, &asked.ask)?;
    out.push(b'\n')?;
    Ok(())
}

/// By which what devices were asked is taken, to be told.
///
/// ```rust
/// let mut teller = asks.teller();
/// let all = teller.take(rt, alloc)?;
/// asks.add_lines(&mut lines, &all)?;
/// ```
#[derive(Drop)]
pub struct AskTeller<'a> {
    asks: &'a Asks,
    lane: QueueLane<Asked>,
    ghost of: { lane.of ≡ asks.now.queue.id },
}

impl AskTeller<'_> {
    /// Takes what devices were asked and nobody has told them yet, in the order in which they were asked.
    ///
    /// # Errors
    ///
    /// [`AllocError`] if allocation fails. What was taken before is lost then.
    #[tactic(auto, using(crate::proofs::Takings::takes_one_more))]
    pub fn take<R: Wait>(&mut self, rt: &R, alloc: Global) -> Result<Vec<Asked>, AllocError>
        ensures { IfOk result (λ taken. TakesAll self.old.lane.seen taken.items self.new.lane.seen) }
    {
        let mut taken = Vec::new(alloc);
        for _ in 0..self.asks.queue.capacity() {
            let Some(asked) = self.asks.queue.take(rt, &mut self.lane) else {
                break;
            };
            taken.push(asked)?;
        }
        Ok(taken)
    }
}

impl Asks {
    /// Creates the list of the devices of a database that are outside: one for each record with a device
    /// link, also where several records have the same text behind the `@`.
    ///
    /// # Errors
    ///
    /// [`AllocError`] if allocation fails.
    pub fn new(alloc: Global, database: &Database) -> Result<Self, AllocError> {
        let mut records = Vec::new(alloc);
        for (index, item) in database.records.iter().enumerate() {
            if let Some(text) = device_named(item) {
                records.push(OutsideRecord {
                    number: RecordNo::new(index),
                    name: item.common().name,
                    text,
                })?;
            }
        }
        Asks::of(alloc, records)
    }

    /// Creates the list of a database without devices outside.
    ///
    /// # Errors
    ///
    /// [`AllocError`] if allocation fails.
    pub fn none(alloc: Global) -> Result<Self, AllocError> {
        Asks::of(alloc, Vec::new(alloc))
    }

    // Creates the list of these records.
    fn of(alloc: Global, records: Vec<OutsideRecord>) -> Result<Self, AllocError> {
        let most = records
            .len()
            .saturating_mul(ASKS_OF_A_DEVICE)
            .max(LEAST_ASKS);
        Ok(Asks {
            records,
            queue: SharedQueue::new(alloc, most)?,
            alarm: Parker::new(),
            is_over: AtomicBool::new(false),
        })
    }

    /// Returns the devices, each with the number of its record.
    ///
    /// # Errors
    ///
    /// [`AllocError`] if allocation fails.
    pub fn devices<'a, R: Wait>(
        &'a self,
        rt: &'a R,
        alloc: Global,
    ) -> Result<Vec<(RecordNo, OutsideDevice<'a, R>)>, AllocError> {
        let mut devices = Vec::with_capacity(alloc, self.records.len())?;
        for number in 0..self.records.len() {
            let device = self.device(rt, number);
            if devices.push((self.records[number].number, device)).is_err() {
                return Err(AllocError);
            }
        }
        Ok(devices)
    }

    // Returns the device with this number.
    fn device<'a, R: Wait>(&'a self, rt: &'a R, number: usize) -> OutsideDevice<'a, R>
        ensures number { result.number ≡ number }
        ensures new { result.wait ≡ 0 }
    {
        OutsideDevice {
            rt,
            asks: self,
            number,
            wait: 0,
        }
    }

    /// Returns by what the asks are taken. It has taken none yet.
    pub fn teller(&self) -> AskTeller<'_>
        ensures { result.lane.seen ≡ [] }
    {
        AskTeller {
            asks: self,
            lane: self.queue.lane(),
        }
    }

    /// Returns the record whose device was asked.
    pub fn record(&self, asked: &Asked) -> Option<RecordNo> {
        match self.records.get(asked.device) {
            Some(outside) => Some(outside.number),
            None => None,
        }
    }

    // Appends the line that tells a device what it is asked: `? REC N read TEXT`, or
    // `? REC N write TEXT` and the value behind a tab.
    fn add_line(&self, out: &mut Vec<u8>, asked: &Asked) -> Result<(), AllocError>
        ensures { OnOk result (Tells self.now.records.items asked.now out.old.items out.new.items) }
    {
        match self.records.get(asked.device) {
            Some(outside) => add_line_of(out, outside, asked),
            None => Ok(()),
        }
    }

    /// Appends the line of each of these asks, in order.
    ///
    /// # Errors
    ///
    /// [`AllocError`] if allocation fails; a part may have been appended then.
    pub fn add_lines(&self, out: &mut Vec<u8>, all: &[Asked]) -> Result<(), AllocError>
        ensures { OnOk result (TellsAll self.now.records.items all.now out.old.items out.new.items) }
    {
        let mut rest = all;
        while let [asked, others @ ..] = rest {
            self.add_line(out, asked)?;
            rest = others;
        }
        Ok(())
    }

    /// Returns what a thread sleeps on that tells of the asks. Each new ask wakes it.
    pub fn alarm(&self) -> &Parker {
        &self.alarm
    }

    /// Returns whether that thread is to end.
    pub fn is_over(&self) -> bool {
        self.is_over.load(Ordering::SeqCst)
    }

    /// Has that thread end.
    pub fn end(&self) {
        self.is_over.store(true, Ordering::SeqCst);
        self.alarm.unpark();
    }
}
