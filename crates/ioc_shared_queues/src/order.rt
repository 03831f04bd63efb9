//! The rule of one shared queue: items are taken in the order in which they were put.
ghost use Rattle.std.specs.Prelude.{[]};

use crossbeam_queue::protocol::{Lesson, Outcome, Protocol};
use crossbeam_queue::{Pass, RuledArrayQueue};
use std::collections::LinkedList;

/// What is done to a queue. No value of it is made.
pub enum Change<T> {
    Put(T),
    Taken(T),
}

/// A change as a lane sees it, and whether it was the lane's own. No value of it is made.
pub struct SeenChange<T> {
    pub own: bool,
    pub change: Change<T>,
}

/// All that was done to a queue up to a lane's last put or taking, in order. No value of it is
/// made.
pub type Seen<T> = LinkedList<SeenChange<T>>;

pub struct Ordered;

impl<T> Protocol<T, Seen<T>> for Ordered {
    ghost use Rattle.std.specs.Prelude.{[]};
    ghost use Rattle.ioc_shared_queues.specs.Order.{InOrder};

    ghost holds = { InOrder };

    ghost first = { [] };
}

pub struct PutsItem;

impl<T> Outcome<T, Seen<T>> for PutsItem {
    ghost use Rattle.ioc_shared_queues.specs.Seen.{Puts};

    ghost then = { Puts };
}

impl<T> Lesson<T, Seen<T>> for PutsItem {
    ghost use Rattle.ioc_shared_queues.specs.Seen.{Left};

    ghost fact = { Left };
}

pub struct TakesItem;

impl<T> Outcome<T, Seen<T>> for TakesItem {
    ghost use Rattle.ioc_shared_queues.specs.Seen.{Takes};

    ghost then = { Takes };
}

impl<T> Lesson<T, Seen<T>> for TakesItem {
    ghost use Rattle.ioc_shared_queues.specs.Seen.{Left};

    ghost fact = { Left };
}

pub type OrderedQueue<T> = RuledArrayQueue<T, Seen<T>, Ordered>;

pub type QueuePass<T> = Pass<T, Seen<T>>;
