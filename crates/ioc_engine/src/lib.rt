//! The engine of an EPICS IOC as a library: the records of a database text, which many threads
//! read, put and process at once.
//!
//! A program loads a database ([`load`]), makes a [`Seed`] of it with its devices, and starts an
//! [`Engine`]. Each thread opens a [`Desk`] and makes its calls with it. Each call is answered with
//! a [`Reply`] and a [`Receipt`], the place of the call in one journal of all calls. Records that
//! links connect are in one lock set with a lock of its own. A get, a put or a request takes the
//! lock of its record's set and of no other set, unless calls make checkpoints ([`Limits`]): a call
//! may make one before it begins, which takes all sets.
//!
//! Records are scanned: [`Engine::start`] requests those with PINI, a thread of the program calls
//! [`Engine::scan`] once in each period, and [`Engine::post_event`] and [`Engine::io_interrupt`] put
//! requests on callback queues, which threads serve by [`Engine::work`]. The engine starts no thread
//! and has no timer.
//!
//! EPICS Application Developer's Guide, "Runtime Database Access" and "Database Locking, Scanning,
//! and Processing".
#![tactic(auto)]

mod binding;
pub mod channel;
mod checkpoint;
pub mod clock;
mod copies;
pub mod desk;
pub mod engine;
mod engine_lookup;
pub mod engine_name;
pub mod lending;
mod link_changes;
mod looking;
mod lookup;
mod notifications;
pub mod numbered;
mod parts;
pub mod report;
mod scanning;
pub mod seed;
mod starting;
pub mod type_laws;
mod watching;

pub use channel::Channel;
pub use clock::{CountingClock, SystemClock};
pub use desk::Desk;
pub use engine::Engine;
pub use engine_name::EngineName;
pub use ioc_dbfile::{Database, Macros, load};
pub use ioc_device::{Answer, Ask, Device};
pub use ioc_engine_core::{Clock, FieldSeen, FixedClock};
pub use ioc_events::{Call, Entry, Event, KeptAnswers, Reply};
pub use ioc_journal::{Excerpt, JournalBase, JournalEntry, KeptFrom, TicketTally};
pub use ioc_journaled_set::{NoMoreWatched, NowWatched, RecordCopies};
pub use ioc_ledger::{Outcome, Tally};
pub use ioc_menus::Scan;
pub use ioc_names::RecordNo;
pub use ioc_notify::{NotifyId, Waiting};
pub use ioc_record::FieldText;
pub use ioc_values::{BadDbKind, DbFault, Finished, Input, IocError, LoadError, Text, Value};
pub use lending::{EngineWork, with_engine};
pub use numbered::{Numbered, numbers_stay, with_numbers};
pub use rec_types::Record;
pub use report::{Report, StoppedRecord};
pub use seed::Seed;
pub use starting::Started;

/// The name of a device: what follows the `@` in a link. It has 119 bytes at most, as in a link,
/// and [`DeviceName::cut`] leaves the rest off. Two names are the same if they have the same bytes.
///
/// ```rust
/// let mut devices = Vec::new(alloc);
/// // The device of the record with the link `@tank`.
/// devices.push((DeviceName::cut(b"tank"), Tank(12)))?;
/// ```
pub use ioc_dbfile::DeviceName;

/// The limits of an engine. `history` is the number of events that a lock set keeps in memory, from
/// 1 to 64; fewer take less memory and more time. `journal` is the number of calls that the engine
/// can take from one checkpoint to the next, from 1 to 4,194,304; [`Limits::default`] allows 100,000. If fewer places than
/// `checkpoint_at` are free, a call makes a checkpoint before it begins, so that the journal has
/// places again: by default, and with [`Limits::of`], a quarter of `journal`. If the call is refused
/// then, the checkpoint was made nevertheless. Places are counted only after a call that found at
/// most one at hand, so `checkpoint_at` should be at least the number of desks. A call that finds no
/// place waits for a checkpoint, or has its error, but for a link change, which is refused with
/// [`IocError::JournalFull`]. If `checkpoint_at` is 0, checkpoints are made only by
/// [`Engine::checkpoint`] and [`Engine::checkpoint_from`], and each call beyond the limit is refused
/// so. [`Engine::start`] refuses limits out of their ranges with
/// [`IocError::BadValue`].
///
/// ```rust
/// // A call makes a checkpoint first if fewer than 250,000 places are free.
/// let limits = Limits::of(1_000_000);
/// let Started { engine, .. } = Engine::<B, _, _>::start(rt, alloc, seed, CountingClock::new(), limits)?;
/// ```
pub use ioc_journal::Limits;

/// The trace of a call in the journal of an engine. [`Engine::learn`] lets a desk's next call come
/// after it, and [`Report::entry`] has the call's entry once the engine has stopped.
pub type Receipt<B> = ioc_journal::Receipt<Record, B>;
