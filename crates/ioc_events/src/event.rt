//! Events of a database, calls, and history entries.
ghost use Rattle.std.specs.Prelude.{◌≡◌, IfOk};

use crate::reply::Reply;
use ioc_dbcommon::LinkField;
use ioc_device::Answer;
use ioc_fields::FieldNo;
use ioc_links::MAX_DEVICE_BYTES;
use ioc_names::RecordNo;
use ioc_notify::NotifyId;
use ioc_record::FieldText;
use ioc_values::{Finished, Input, IocError, Short, Text};
use std::alloc::{AllocError, Global};
use std::marker::Model;

/// What is done to the records of a database, with the arguments of its caller.
#[derive(Clone, Copy, PartialEq, Eq)]
pub enum Event {
    /// Requests a record. The reply is a refusal, `NoRecord`, if there is no such record.
    Process {
        record: RecordNo,
    },
    /// Puts a value into a field. The record is processed if the field is PROC, or if the field is
    /// process-passive and the record is passive; an active record is marked for reprocessing
    /// instead. The reply is a refusal, `NoRecord`, `NoField`, `NoMod`, `PutDisabled` or `BadValue`
    /// in this order, if there is no such record or field, the field can't be put, DISP forbids it,
    /// or the value doesn't convert.
    Put {
        record: RecordNo,
        field: FieldNo,
        value: Input,
    },
    /// Completes the wait with this number of a record whose device has answered later: the record
    /// resumes with what the device returned. Of what the device of an output returns, only a fault
    /// matters. The reply is a refusal, `NoRecord` or `Stale` in this order, if there is no such
    /// record, or if it doesn't await the completion with this number.
    Complete {
        record: RecordNo,
        wait: u64,
        finished: Finished,
    },
    /// Puts a value into a field as `Put` does, with a notification: it passes to the records that
    /// are processed for the put, and ends with the last of them. If the record is active, is part
    /// of a put with notification or has one waiting, the put waits; it is tested and its value
    /// converted immediately. The caller assigns each number to one put. The reply is a refusal:
    /// those of `Put`, and then `QueueFull`, if 256 are live or one with this number is live.
    Notify {
        record: RecordNo,
        notification: NotifyId,
        field: FieldNo,
        value: Input,
    },
    /// Cancels a put with notification: no record is part of it any more, it no longer waits, and it
    /// doesn't end. The reply is a refusal, `Stale`, if it isn't live.
    Cancel {
        notification: NotifyId,
    },
}

/// A call, as a journal keeps it: each kind with the reply that it can have.
#[derive(Clone, Copy)]
pub enum Call {
    /// An event and its reply.
    Event(Event, Reply),
    /// A get of the text of a field.
    Get(RecordNo, FieldNo, Result<FieldText, IocError>),
    /// The question whether a put with notification is live.
    IsLive(NotifyId, bool),
    /// A change of the link of a link field.
    Link(RecordNo, FieldNo, LinkField, Result<(), IocError>),
    /// A posted event with this name, and the number of requests that were begun for it. It changes
    /// no record.
    Post(Text, u64),
    /// An interrupt of the devices whose links begin with this word, and the number of requests that
    /// were begun for it. It changes no record.
    Interrupt(Short<MAX_DEVICE_BYTES>, u64),
}

/// The answers of devices in an event, in order. Contracts see it as their list.
#[derive(Drop)]
pub struct KeptAnswers {
    answers: Vec<Answer>,
}

impl Model for KeptAnswers {
    ghost use Rattle.std.specs.Prelude.{List};
    ghost use Rattle.ioc_device.specs.declared.Answer.{Answer};

    ghost Value = { List Answer };

    ghost view = { λ a. a.answers.items };
}

impl KeptAnswers {
    /// Wraps these answers.
    pub fn new(answers: Vec<Answer>) -> Self
        ensures { result ≡ answers.items }
    {
        KeptAnswers { answers }
    }

    /// Returns the answers.
    pub fn as_slice(&self) -> &[Answer]
        ensures { result.now ≡ self.now }
    {
        self.answers.as_slice()
    }

    /// Copies the answers.
    ///
    /// # Errors
    ///
    /// [`AllocError`] if allocation fails.
    pub fn copy(&self, alloc: Global) -> Result<Self, AllocError>
        ensures { IfOk result (λ copy. copy ≡ self.now) }
    {
        let mut answers = Vec::new(alloc);
        answers.extend_from_slice(self.answers.as_slice())?;
        Ok(KeptAnswers { answers })
    }
}

/// An entry of a history: a call, its time stamp, and the answers of devices in it.
#[derive(Drop)]
pub struct Entry {
    /// The time stamp, in nanoseconds since 1970-01-01 00:00 UTC.
    pub moment: u64,
    pub call: Call,
    pub answers: KeptAnswers,
}

impl Entry {
    /// Copies the entry.
    ///
    /// # Errors
    ///
    /// [`AllocError`] if allocation fails.
    pub fn copy(&self, alloc: Global) -> Result<Self, AllocError>
        ensures { IfOk result (λ copy. copy ≡ self.now) }
    {
        let answers = self.answers.copy(alloc)?;
        Ok(Entry {
            moment: self.moment,
            call: self.call,
            answers,
        })
    }
}

/// An event with its time stamp, the answers of devices in it, and its reply.
#[derive(Drop)]
pub struct EventEntry {
    /// The time stamp, in nanoseconds since 1970-01-01 00:00 UTC.
    pub moment: u64,
    pub event: Event,
    pub answers: KeptAnswers,
    pub reply: Reply,
}
