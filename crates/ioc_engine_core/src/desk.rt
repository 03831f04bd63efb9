//! Desks.
use ioc_device::Device;
use ioc_journal::DeskAccount;
use ioc_journaled_set::SetsName;
use ioc_notify::NotifyId;
use ioc_record::RecordKind;
use ioc_scan::Listed;
use ioc_set::EventBuffers;
use std::alloc::Global;

/// A caller of an engine, with the memory that its calls need. It makes one call after another:
/// each of its calls comes later in the journal than those before. A thread opens a desk of its own.
#[derive(Drop)]
pub struct Desk<K: RecordKind, B: SetsName<K, D>, D: Device> {
    pub account: DeskAccount<K, B>,
    pub buffers: EventBuffers<K, D>,
    pub alloc: Global,
    /// The number of records that the last call moved to another lock set.
    pub moved: usize,
    /// The records of the list of the last event that was posted.
    pub walked: Vec<Listed>,
    /// The records of the last scan.
    pub scanned: Vec<Listed>,
}

impl<K: RecordKind, B: SetsName<K, D>, D: Device> Desk<K, B, D> {
    ghost use Rattle.std.specs.Prelude.{◌≡◌, []};

    /// Creates a desk with this account, and buffers of its own.
    pub fn new(alloc: Global, account: DeskAccount<K, B>, buffers: EventBuffers<K, D>) -> Self
        ensures account { result.account ≡ account }
        ensures buffers { result.buffers ≡ buffers }
    {
        Desk {
            account,
            buffers,
            alloc,
            moved: 0,
            walked: Vec::new(alloc),
            scanned: Vec::new(alloc),
        }
    }

    /// Forgets what the call before has told.
    #[inline(always)]
    pub fn begin(&mut self)
        ensures account { self.new.account ≡ self.old.account }
        ensures ended { self.new.buffers.ended_everywhere.items ≡ [] }
        ensures moved { self.new.moved ≡ 0 }
    {
        self.buffers.ended_everywhere.clear();
        self.moved = 0;
    }

    /// Returns the number of the desk, from 0 on in the order of opening, as in
    /// [`JournalEntry`](ioc_journal::JournalEntry).
    pub fn number(&self) -> u64
        ensures { result ≡ self.now.account.number }
    {
        self.account.number()
    }

    /// Returns the puts with notification that have ended by the desk's last call, in order, also
    /// those that other desks have begun: no record of any lock set is part of them any more. There
    /// are none after a call that gave an error.
    pub fn ended(&self) -> &[NotifyId]
        ensures { result.now ≡ self.now.buffers.ended_everywhere.items }
    {
        self.buffers.ended()
    }

    /// Returns the number of records that the desk's last call moved to another lock set. Only a
    /// link change moves any.
    pub fn moved(&self) -> usize
        ensures { result ≡ self.now.moved }
    {
        self.moved
    }
}
