//! The workers that sleep, and who wakes them.
ghost use Rattle.std.specs.Prelude.{◌≤◌};
ghost use Rattle.std.specs.Vec.{vec_len, vec_capacity};

use crossbeam_utils::sync::{Parker, Unparker};
use std::alloc::{AllocError, Global};
use std::sync::atomic::Ordering::SeqCst;
use std::sync::atomic::{AtomicBool, AtomicUsize};
use std::sync::{Mutex, Wait};

/// The list of the workers that sleep, and whether the queues were closed.
///
/// A worker enters the list before it looks at the queues for the last time, and sleeps only if it
/// found nothing. So whoever puts an item after that look finds the worker on the list. Whoever
/// wakes a worker takes it off the list first, so each item wakes a worker of its own.
#[derive(Drop)]
pub struct IdleWorkers {
    list: Mutex<SleepList>,
    // The length of the list, for those that look without its lock.
    asleep: AtomicUsize,
    closed: AtomicBool,
}

/// By which one worker sleeps. One thread at a time has it.
#[derive(Drop)]
pub struct Sleeper {
    number: usize,
    parker: Parker,
}

// What wakes the worker of this number.
#[derive(Drop)]
struct Sleeping {
    number: usize,
    unparker: Unparker,
}

// Those that sleep, the last one last, and the number of workers that were made. All of them have
// room on the list.
#[derive(Drop)]
struct SleepList {
    sleeping: Vec<Sleeping>,
    workers: usize,
    ghost room: { (vec_len sleeping ≤ workers) × (workers ≤ vec_capacity sleeping) },
}

impl SleepList {
    // Makes room for one more worker, and returns its number.
    fn add_worker(&mut self) -> Result<usize, AllocError> {
        let number = self.workers;
        let wanted = number.saturating_add(1);
        self.sleeping.reserve(wanted - self.sleeping.len())?;
        self.workers = wanted;
        Ok(number)
    }

    // Adds a worker that isn't on the list, in the room that was made for it. Returns whether it
    // could.
    fn add(&mut self, sleeper: &Sleeper) -> bool {
        let number = sleeper.number;
        match sleeper.parker.unparker().clone() {
            Ok(unparker) if self.sleeping.len() < self.workers => {
                self.sleeping.push_reserved(Sleeping { number, unparker });
                true
            }
            _ => false,
        }
    }

    // Removes a worker. Returns false if it isn't on the list.
    fn remove(&mut self, sleeper: &Sleeper) -> bool {
        let number = sleeper.number;
        let place = self.sleeping.iter().position(|s| s.number == number);
        match place {
            Some(place) => {
                self.sleeping.remove(place);
                true
            }
            None => false,
        }
    }

    // Removes the last one.
    fn pop(&mut self) -> Option<Sleeping> {
        self.sleeping.pop()
    }

    // Wakes and removes all.
    fn wake_all(&mut self) {
        for sleeping in self.sleeping.iter() {
            sleeping.unparker.unpark();
        }
        self.sleeping.clear();
    }
}

impl IdleWorkers {
    /// Creates an empty list, of queues that are open.
    pub fn new(alloc: Global) -> IdleWorkers {
        IdleWorkers {
            list: Mutex::new(SleepList {
                sleeping: Vec::new(alloc),
                workers: 0,
            }),
            asleep: AtomicUsize::new(0),
            closed: AtomicBool::new(false),
        }
    }

    /// Makes room for one more worker, and returns what it sleeps by.
    ///
    /// # Errors
    ///
    /// [`AllocError`] if allocation fails.
    pub fn sleeper<R: Wait>(&self, rt: &R, alloc: Global) -> Result<Sleeper, AllocError> {
        let parker = Parker::new(alloc)?;
        let number = self.list.lock(rt).add_worker()?;
        Ok(Sleeper { number, parker })
    }

    /// Wakes the worker that fell asleep last, if any sleeps. This takes no lock if none does.
    #[inline(always)]
    pub fn wake_one<R: Wait>(&self, rt: &R) {
        if self.asleep.load(SeqCst) != 0 {
            self.take_off_one(rt);
        }
    }

    #[inline(never)]
    fn take_off_one<R: Wait>(&self, rt: &R) {
        let taken = self.take_last(rt);
        if let Some(sleeping) = taken {
            sleeping.unparker.unpark();
        }
    }

    // Takes the worker that fell asleep last off the list.
    fn take_last<R: Wait>(&self, rt: &R) -> Option<Sleeping> {
        let mut list = self.list.lock(rt);
        let taken = list.pop();
        self.asleep.store(list.sleeping.len(), SeqCst);
        taken
    }

    /// Tells the workers to end once they find all queues empty, and wakes all that sleep.
    pub fn close<R: Wait>(&self, rt: &R) {
        self.closed.store(true, SeqCst);
        let mut list = self.list.lock(rt);
        list.wake_all();
        self.asleep.store(0, SeqCst);
    }

    /// Returns whether the queues were closed.
    pub fn is_closed(&self) -> bool {
        self.closed.load(SeqCst)
    }

    /// Returns the number of workers that sleep, or look at the queues once more before they do.
    pub fn asleep(&self) -> usize {
        self.asleep.load(SeqCst)
    }

    // Puts a worker on the list. It looks at the queues once more before it sleeps. One that could
    // not be put there will wake at once.
    pub(crate) fn lie_down<R: Wait>(&self, rt: &R, sleeper: &Sleeper) {
        let mut list = self.list.lock(rt);
        if !list.add(sleeper) {
            sleeper.parker.unparker().unpark();
        }
        self.asleep.store(list.sleeping.len(), SeqCst);
    }

    // Takes a worker off the list, unless somebody has done so to wake it. Returns whether somebody
    // has.
    pub(crate) fn get_up<R: Wait>(&self, rt: &R, sleeper: &Sleeper) -> bool {
        let mut list = self.list.lock(rt);
        let removed = list.remove(sleeper);
        self.asleep.store(list.sleeping.len(), SeqCst);
        !removed
    }
}

impl Sleeper {
    // Sleeps until somebody wakes this worker. It may wake for an item that it has served before.
    pub(crate) fn sleep<R: Wait>(&self, rt: &R) {
        self.parker.park(rt);
    }
}
