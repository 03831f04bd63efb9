//! The calls of a console.
use crate::fault::RunFault;
use crate::streams::Streams;
use crate::task::tick;
use ioc_engine::{
    Channel, Clock, Desk, Device, Engine, EngineName, FieldSeen, FieldText, Finished, Input,
    IocError, NotifyId, Reply,
};
use ioc_fields::{FieldNo, name_of};
use ioc_names::RecordNo;
use ioc_scan::Period;
use ioc_scan::period::choice_of;
use ioc_values::ByteBuffer;
use ioc_watches::{Watch, WatchWord};
use std::alloc::{AllocError, Global};
use std::io::Write;
use std::sync::Wait;

/// Why a line isn't done.
#[derive(Clone, Copy, Debug, PartialEq, Eq)]
pub enum LineFault {
    /// The call was refused.
    Refused(IocError),
    /// The run ends.
    Run(RunFault),
}

/// Converts the error of a call. If allocation has failed, the run ends.
impl From<IocError> for LineFault {
    fn from(refused: IocError) -> LineFault {
        match refused {
            IocError::NoMemory => LineFault::Run(RunFault::Memory),
            other => LineFault::Refused(other),
        }
    }
}

impl From<AllocError> for LineFault {
    fn from(_e: AllocError) -> LineFault {
        LineFault::Run(RunFault::Memory)
    }
}

impl From<RunFault> for LineFault {
    fn from(fault: RunFault) -> LineFault {
        LineFault::Run(fault)
    }
}

/// A desk of an engine, with what its calls need.
#[derive(Drop)]
pub struct Caller<'e, B: EngineName<D>, D: Device, C: Drop, R> {
    pub rt: &'e R,
    pub alloc: Global,
    pub engine: &'e Engine<B, D, C>,
    pub desk: &'e mut Desk<B, D>,
}

// The text of a channel. A name that is too long for any record stays too long when it is cut.
fn channel_text(record: &[u8], field: &[u8]) -> ByteBuffer<1025> {
    let mut text = ByteBuffer::new();
    text.extend_cut(record);
    text.extend_cut(b".");
    text.extend_cut(field);
    text
}

impl<'e, B: EngineName<D>, D: Device, C: Clock + Drop, R: Wait> Caller<'e, B, D, C, R> {
    // Finds a field of a record by their names.
    fn channel(&self, record: &[u8], field: &[u8]) -> Result<Channel, IocError> {
        self.engine.channel(channel_text(record, field).as_slice())
    }

    /// Returns the text of a field.
    ///
    /// # Errors
    ///
    /// As [`Engine::channel`] and [`Engine::get`].
    pub fn get(&mut self, record: &[u8], field: &[u8]) -> Result<FieldText, LineFault> {
        let channel = self.channel(record, field)?;
        let (text, _receipt) = self.engine.get(self.rt, self.desk, channel)?;
        Ok(text)
    }

    /// Returns the text of a field of a record whose type has it.
    ///
    /// # Errors
    ///
    /// As [`Caller::get`].
    pub fn get_field(&mut self, record: &[u8], field: FieldNo) -> Result<FieldText, LineFault> {
        self.get(record, name_of(field).as_bytes())
    }

    /// Looks at fields of a record, all at one moment. That is no call.
    ///
    /// # Errors
    ///
    /// As [`Engine::record`] and [`Engine::look`].
    pub fn look(&mut self, record: &[u8], fields: &[FieldNo]) -> Result<Vec<FieldSeen>, LineFault> {
        let number = self.engine.record(record)?;
        Ok(self.engine.look(self.rt, self.desk, number, fields)?)
    }

    /// Puts a text into a field.
    ///
    /// # Errors
    ///
    /// As [`Engine::channel`] and [`Engine::put`].
    pub fn put(&mut self, record: &[u8], field: &[u8], text: &[u8]) -> Result<Reply, LineFault> {
        let channel = self.channel(record, field)?;
        let given = Input::from_text(text);
        let (reply, _receipt) = self.engine.put(self.rt, self.desk, channel, given)?;
        Ok(reply)
    }

    /// Puts a value into a field. Returns the reply, and the place of the call in the journal.
    ///
    /// # Errors
    ///
    /// As [`Engine::channel`] and [`Engine::put`].
    pub fn put_placed(
        &mut self,
        record: &[u8],
        field: &[u8],
        given: Input,
    ) -> Result<(Reply, u64), LineFault> {
        let channel = self.channel(record, field)?;
        let (reply, receipt) = self.engine.put(self.rt, self.desk, channel, given)?;
        Ok((reply, receipt.place()))
    }

    /// Puts a value into a field with notification. Returns the reply, and the place of the call in
    /// the journal.
    ///
    /// # Errors
    ///
    /// As [`Engine::channel`] and [`Engine::put_notify`].
    pub fn notify_placed(
        &mut self,
        record: &[u8],
        field: &[u8],
        given: Input,
    ) -> Result<(Reply, u64), LineFault> {
        let channel = self.channel(record, field)?;
        let (reply, receipt) = self.engine.put_notify(self.rt, self.desk, channel, given)?;
        Ok((reply, receipt.place()))
    }

    /// Puts a text into a field with notification.
    ///
    /// # Errors
    ///
    /// As [`Engine::channel`] and [`Engine::put_notify`].
    pub fn notify(&mut self, record: &[u8], field: &[u8], text: &[u8]) -> Result<Reply, LineFault> {
        let channel = self.channel(record, field)?;
        let given = Input::from_text(text);
        let (reply, _receipt) = self.engine.put_notify(self.rt, self.desk, channel, given)?;
        Ok(reply)
    }

    /// Writes what is new, which replies may tell of.
    ///
    /// # Errors
    ///
    /// As [`Streams::write_new`].
    pub fn write_new<W: Write + Drop, J: Write + Drop>(
        &mut self,
        streams: &Streams<'_, W, J>,
    ) -> Result<(), RunFault> {
        streams.write_new(self.rt, self.alloc, self.engine, self.desk)
    }

    /// Watches a field of a record from now on, and writes the line of what it is now.
    ///
    /// # Errors
    ///
    /// As [`Streams::watch`].
    pub fn watch<W: Write + Drop, J: Write + Drop>(
        &mut self,
        streams: &Streams<'_, W, J>,
        number: RecordNo,
        watch: Watch,
    ) -> Result<(), LineFault> {
        streams.watch(self.rt, self.alloc, self.engine, self.desk, number, watch)
    }

    /// Watches a field no more, which this word watches.
    ///
    /// # Errors
    ///
    /// A refusal with [`IocError::NoField`] if the word watches nothing.
    pub fn unwatch<W: Write + Drop, J: Write + Drop>(
        &self,
        streams: &Streams<'_, W, J>,
        word: &[u8],
    ) -> Result<(), LineFault> {
        match self.engine.record(WatchWord::of(word).record) {
            Ok(number) => streams.unwatch(self.rt, self.engine, number, word),
            Err(_) => Err(LineFault::Refused(IocError::NoField)),
        }
    }

    /// Completes a record with the late answer of its device.
    ///
    /// # Errors
    ///
    /// As [`Engine::record`] and [`Engine::complete`].
    pub fn complete(
        &mut self,
        record: &[u8],
        wait: u64,
        finished: Finished,
    ) -> Result<Reply, LineFault> {
        let number = self.engine.record(record)?;
        let (reply, _receipt) = self
            .engine
            .complete(self.rt, self.desk, number, wait, finished)?;
        Ok(reply)
    }

    /// Cancels a put with notification.
    ///
    /// # Errors
    ///
    /// As [`Engine::cancel`].
    pub fn cancel(&mut self, number: u64) -> Result<Reply, LineFault> {
        let number = NotifyId::new(number);
        let (reply, _receipt) = self.engine.cancel(self.rt, self.desk, number)?;
        Ok(reply)
    }

    /// Requests a record.
    ///
    /// # Errors
    ///
    /// As [`Engine::record`] and [`Engine::process`].
    pub fn process(&mut self, record: &[u8]) -> Result<Reply, LineFault> {
        let number = self.engine.record(record)?;
        let (reply, _receipt) = self.engine.process(self.rt, self.desk, number)?;
        Ok(reply)
    }

    /// Changes a link of a record.
    ///
    /// # Errors
    ///
    /// As [`Engine::channel`] and [`Engine::set_link`].
    pub fn link(&mut self, record: &[u8], field: &[u8], text: &[u8]) -> Result<Reply, LineFault> {
        let channel = self.channel(record, field)?;
        let (reply, _receipt) = self.engine.set_link(self.rt, self.desk, channel, text)?;
        match reply {
            Ok(()) => Ok(Reply::Plain),
            Err(refused) => Ok(Reply::Refused(refused)),
        }
    }

    /// Posts an event, and returns how many requests were put on the callback queues.
    ///
    /// # Errors
    ///
    /// As [`Engine::post_event`].
    pub fn post(&mut self, name: &[u8]) -> Result<u64, LineFault> {
        let (count, _receipt) = self.engine.post_event(self.rt, self.desk, name)?;
        Ok(count)
    }

    /// Tells of an interrupt of devices, and returns how many requests were put on the callback
    /// queues.
    ///
    /// # Errors
    ///
    /// As [`Engine::io_interrupt`].
    pub fn interrupt(&mut self, word: &[u8]) -> Result<u64, LineFault> {
        let (count, _receipt) = self.engine.io_interrupt(self.rt, self.desk, word)?;
        Ok(count)
    }

    /// Scans a period once, and returns how many records were requested.
    ///
    /// # Errors
    ///
    /// As [`Engine::scan`].
    pub fn scan(&mut self, period: Period) -> Result<u64, LineFault> {
        let Some(choice) = choice_of(period) else {
            return Err(LineFault::Refused(IocError::BadValue));
        };
        let count = self.engine.scan(self.rt, self.desk, choice)?;
        Ok(count as u64)
    }

    /// Walks the periods of the tick with this number, and returns how many records were requested.
    ///
    /// # Errors
    ///
    /// As [`tick`].
    pub fn tick(&mut self, number: u64) -> Result<u64, LineFault> {
        Ok(tick(self.rt, self.alloc, self.engine, self.desk, number)?)
    }
}
