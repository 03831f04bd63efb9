//! Device calls.
ghost use Rattle.std.specs.Prelude.{◌≡◌};
ghost use Rattle.ioc_store.specs.Given.{comes_later};

use ioc_device::{Answer, Ask};
use ioc_names::RecordNo;

/// A call of a record's device.
#[derive(Clone, Copy, PartialEq, Eq)]
pub struct Call {
    /// The record whose device was called.
    pub target: RecordNo,
    pub ask: Ask,
    pub answer: Answer,
}

impl Call {
    pub fn new(target: RecordNo, ask: Ask, answer: Answer) -> Self
        ensures { result ≡ record { target = target; ask = ask; answer = answer } }
    {
        Call {
            target,
            ask,
            answer,
        }
    }

    /// Returns whether the device answers later.
    pub fn is_later(&self) -> bool
        ensures { result ≡ comes_later self.now.answer }
    {
        match self.answer {
            Answer::Later => true,
            Answer::Done(_) | Answer::Fault => false,
        }
    }
}
