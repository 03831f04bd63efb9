//! The device calls of an event.
ghost use Rattle.std.specs.Prelude.{◌≡◌, ◌+◌, ◌<◌, ◌≤◌, ◌++◌, [], ◌∷◌, length, drop, vec_len, vec_capacity, IfOk};

use crate::call::Call;
use ioc_device::{Answer, Ask};
use ioc_names::RecordNo;
use ioc_values::Value;
use std::alloc::{AllocError, Global};

/// A list of at most 256 device calls, allocated in full when it is created.
#[derive(Drop)]
pub struct Calls {
    calls: Vec<Call>,
    count: usize,
    ghost in_range: { count ≤ 256 },
    ghost whole: { length calls.items ≡ 256 },
}

impl Calls {
    ghost use Rattle.ioc_store.specs.Given.{calls_of, answers_of, later_among};

    /// Creates an empty list.
    ///
    /// # Errors
    ///
    /// [`AllocError`] if allocation fails.
    pub fn new(alloc: Global) -> Result<Self, AllocError>
        ensures { IfOk result (λ s. calls_of s ≡ []) }
    {
        let value = Value::Long(0);
        let filler = Call {
            target: RecordNo::new(0),
            ask: Ask::Read,
            answer: Answer::Done(value),
        };
        let calls = Vec::from_elem(alloc, filler, 256)?;
        Ok(Calls { calls, count: 0 })
    }

    /// Removes all calls.
    pub fn clear(&mut self)
        ensures { calls_of self.new ≡ [] }
    {
        self.count = 0;
    }

    /// Appends a call.
    pub fn push(&mut self, call: &Call)
        requires { length (calls_of self.old) < 256 }
        ensures { calls_of self.new ≡ calls_of self.old ++ call.now ∷ [] }
    {
        self.calls[self.count] = *call;
        self.count += 1;
    }

    /// Returns the number of calls.
    pub fn len(&self) -> usize
        ensures { result ≡ length (calls_of self.now) }
    {
        self.count
    }

    /// Returns how many of the calls from `start` on are answered later.
    pub fn later_from(&self, start: usize) -> usize
        ensures { result ≡ later_among (drop start (calls_of self.now)) }
    {
        self.calls[..self.count]
            .iter()
            .skip(start)
            .filter(|call| call.is_later())
            .count()
    }

    /// Appends the answers of all calls, in order, to `to`, which must have room for them.
    pub fn copy_answers(&self, to: &mut Vec<Answer>)
        requires { vec_len to.old + length (calls_of self.now) ≤ vec_capacity to.old }
        ensures { to.new.items ≡ to.old.items ++ answers_of (calls_of self.now) }
    {
        for call in &self.calls[..self.count] {
            to.push_reserved(call.answer);
        }
    }
}
