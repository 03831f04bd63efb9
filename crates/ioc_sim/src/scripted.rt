//! Devices whose answers come from a script.
ghost use Rattle.std.specs.Prelude.{◌≡◌, [], ◌∷◌, ◌++◌, drop, OnOk};
ghost use Rattle.ioc_sim.specs.Machine.{first_answer};

use ioc_device::{Answer, Device};
use ioc_values::Value;
use std::alloc::{AllocError, Global};
use std::collections::VecDeque;
use std::marker::Model;

/// A device whose answers a script queues. Contracts see these answers, in order. If none is
/// queued, the answer is asynchronous.
#[derive(Drop)]
pub struct Scripted {
    answers: VecDeque<Answer>,
}

impl Model for Scripted {
    ghost use Rattle.std.specs.Prelude.{List};
    ghost use Rattle.ioc_device.specs.declared.Answer.{Answer};

    ghost Value = { List Answer };

    ghost view = { λ s. s.answers.items };
}

// Appends an item, unless allocation fails.
fn push_last<T>(items: &mut VecDeque<T>, item: T) -> Result<(), AllocError>
where
    T: Drop,
    ensures { OnOk result (items.new.items ≡ items.old.items ++ item ∷ []) }
{
    items.reserve(1)?;
    items.push_back_reserved(item);
    Ok(())
}

impl Scripted {
    /// Creates a device without queued answers.
    pub fn new(alloc: Global) -> Self
        ensures { result ≡ [] }
    {
        Scripted {
            answers: VecDeque::new(alloc),
        }
    }

    /// Queues an answer behind those that are queued.
    ///
    /// # Errors
    ///
    /// [`AllocError`] if allocation fails.
    pub fn queue(&mut self, answer: Answer) -> Result<(), AllocError>
        ensures { OnOk result (self.new ≡ self.old ++ answer ∷ []) }
    {
        // Each variant is named, because the prover has to know where its type is declared.
        match answer {
            Answer::Done(value) => push_last(&mut self.answers, Answer::Done(value)),
            Answer::Fault => push_last(&mut self.answers, Answer::Fault),
            Answer::Later => push_last(&mut self.answers, Answer::Later),
        }
    }

    fn next(&mut self) -> Answer
        ensures answer { result ≡ first_answer self.old }
        ensures left { self.new ≡ drop 1 self.old }
    {
        match self.answers.pop_front() {
            Some(answer) => answer,
            None => Answer::Later,
        }
    }
}

impl Device for Scripted {
    ghost use Rattle.ioc_sim.specs.Machine.{TakesAnswer};

    ghost gives = { TakesAnswer };

    fn read(&mut self, _moment: u64) -> Answer {
        self.next()
    }

    fn write(&mut self, _value: Value, _moment: u64) -> Answer {
        self.next()
    }
}
