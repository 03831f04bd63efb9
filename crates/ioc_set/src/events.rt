//! Events on a lock set, except link changes.
ghost use Rattle.std.specs.Prelude.{◌≡◌, ◌<◌, ◌≤◌, ◌+◌, ◌⊎◌, [], length, IfOk, OnOk, OnErr, vec_len, vec_capacity};
ghost use Rattle.ioc_set_records.specs.Contents.{RecordsAreLikeTheirBase};
ghost use Rattle.ioc_set.specs.SetStore.{world_of};
ghost use Rattle.ioc_set.specs.Doing.{Does, IsShort, held_by, is_full, with_place};

use crate::event_buffers::EventBuffers;
use crate::laws::{events_leave_sound, held_records_are_sound};
use crate::linking::clear_history;
use crate::live_puts::LivePuts;
use crate::lock_set::LockSet;
use crate::running::run_set_event;
use ioc_device::Device;
use ioc_events::{Event, EventEntry, Reply};
use ioc_ledger::Tally;
use ioc_record::RecordKind;
use ioc_set_records::Members;
use std::alloc::{AllocError, Global};

// Returns whether a history with this many entries is full. It keeps at most `most`, and 64.
#[tactic(auto, unfolding(crate::specs::Doing::is_full))]
fn is_full(most: usize, count: usize) -> bool
    ensures { result ≡ is_full most count }
{
    count == 64 || count >= most
}

// Makes a place for one more event in the history, which is cleared first if it is full.
#[inline(always)]
fn make_place<K: RecordKind, D>(
    members: &mut Members<K, D>,
    puts: &mut LivePuts,
    tally: &Tally,
    base_tally: &mut Tally,
    history: &mut Vec<EventEntry>,
    most: usize,
) -> Result<(), AllocError>
    requires like { RecordsAreLikeTheirBase K.rules members.old }
    requires fits { length puts.old.waiting ≤ 256 }
    ensures held { OnOk result (held_by members.new puts.new base_tally.new tally.now history.new.items
        ≡ with_place most (held_by members.old puts.old base_tally.old tally.now history.old.items)) }
    ensures puts { OnOk result (puts.new.has_room ≡ puts.old.has_room) }
    ensures like { RecordsAreLikeTheirBase K.rules members.new }
    ensures room { OnOk result (vec_len history.new < vec_capacity history.new) }
    ensures few { OnOk result ((length history.new.items < most) ⊎ (history.new.items ≡ [])) }
    ensures err { OnErr result ((members.new ≡ members.old) × (puts.new ≡ puts.old) × (base_tally.new ≡ base_tally.old)
        × (history.new.items ≡ history.old.items)) }
{
    history.reserve(1)?;
    if is_full(most, history.len()) {
        clear_history(members, puts, tally, base_tally, history);
    }
    Ok(())
}

impl<K: RecordKind + Drop, D: Device> LockSet<K, D> {
    /// Does an event on the set, and appends it to the history, which keeps at most `most` entries: if it
    /// has as many, or 64, it is cleared first. A put with notification passes to the records that are processed for it, and a
    /// cancel takes it from the records of the set; those that end on the set by an event are in the
    /// store of the buffers.
    ///
    /// # Errors
    ///
    /// [`AllocError`] if allocation fails; nothing has changed then. The reply is a refusal in the
    /// cases that [`Event`] names.
    #[inline(always)]
    pub fn do_event(
        &mut self,
        buffers: &mut EventBuffers<K, D>,
        alloc: Global,
        event: &Event,
        moment: u64,
        most: usize,
    ) -> Result<Reply, AllocError>
        ensures ok { IfOk result (λ told. Does K.rules D.gives most self.old moment event.now told self.new
            (world_of buffers.new.store)) }
        ensures short { OnOk result (IsShort most self.new) }
        ensures err { OnErr result (self.new ≡ self.old) }
    {
        events_leave_sound::<K, D>();
        held_records_are_sound::<K, D>();
        self.puts.are_few();
        buffers.make_room(self.members.len())?;
        self.puts.make_room_for(event, alloc)?;
        make_place(
            &mut self.members,
            &mut self.puts,
            &self.tally,
            &mut self.base_tally,
            &mut self.history,
            most,
        )?;
        let kept = run_set_event(
            buffers,
            &mut self.members,
            &mut self.puts,
            moment,
            event,
            &mut self.tally,
            alloc,
        );
        let came_to = kept.reply;
        self.history.push_reserved(kept);
        Ok(came_to)
    }
}
