//! Cancels a put with notification in all held sets with its records, in one call.
ghost use Rattle.std.specs.Prelude.{◌≡◌, ◌≢◌, ◌<◌, ℕ, length, slice_index_or, IfOk, IfErr, IfNone, OnErr};
ghost use Rattle.std.specs.Option.{IfSome};
ghost use Rattle.crossbeam_utils.specs.Seq.{cell_view};
ghost use Rattle.ioc_journal.specs.Line.{holder};
ghost use Rattle.ioc_notify.specs.Living.{holders_of};
ghost use Rattle.ioc_journal.specs.Legal.{map_of};
ghost use Rattle.ioc_journal.specs.Places.{IsNoPlace};
ghost use Rattle.ioc_set.specs.SetState.{SetState};
ghost use Rattle.ioc_set.specs.Sound.{IsSound};
ghost use Rattle.ioc_journaled_set.specs.Sets.{AreItsSets, EachIsHeldBy, HaveAll, GaveUp};
ghost use Rattle.ioc_journal.specs.Account.{puts_key};

use crate::give_up_laws::cancelled_sets_are_held;
use crate::journal_access::JournalAccess;
use crate::together::cancelling::cancel_all;
use crate::together::counting::{all_live, total_in};
use crate::together::dealing::deal_all;
use crate::together::merging::merge_all;
use ioc_device::Device;
use ioc_events::{Call, Entry, Event, KeptAnswers, Reply};
use ioc_journal::legal_laws::{holding_lasts, live_lasts};
use ioc_journal::{DeskAccount, EventCounts, JournalName, KeyPass, Receipt};
use ioc_notify::{Live, NotifyId};
use ioc_record::RecordKind;
use ioc_set::{EventBuffers, LockSet};
use ioc_values::IocError;
use std::sync::Wait;

// States the invariant of each of these sets. Does nothing.
fn all_sound<K: RecordKind, D>(sets: &[LockSet<K, D>])
    ensures { (i : ℕ) (d : SetState K D) → i < length sets.now → IsSound K.rules (slice_index_or sets.now i d) }
{
    for set in sets {
        set.is_sound();
    }
}

/// Cancels a put with notification in these held sets, which have all its records, and adds the
/// cancel to the journal as one call. Each pass owns the keys of the set beside it, and `keeper`
/// the key of the puts with notification.
///
/// # Errors
///
/// [`IocError::JournalFull`] if the journal has no place left. [`IocError::NoMemory`] if allocation
/// fails. Nothing has changed then. Once it is canceled in one of the sets, a failed allocation is
/// repeated until it succeeds.
pub fn give_up<K: RecordKind + Drop, B: JournalName<K>, D: Device, R: Wait>(
    access: &JournalAccess<'_, K, B, R>,
    desk: &mut DeskAccount<K, B>,
    buffers: &mut EventBuffers<K, D>,
    keeper: &mut KeyPass,
    sets: &mut [LockSet<K, D>],
    passes: &mut [Option<KeyPass>],
    number: NotifyId,
    moment: u64,
) -> Result<Receipt<K, B>, IocError>
    requires keeper { (keeper.old.table_id ≡ B.table) × (cell_view keeper.old ≡ holder (cell_view keeper.old).seen puts_key) }
    requires beside { length passes.old ≡ length sets.old }
    requires held { EachIsHeldBy K.rules B.base B.table sets.old passes.old }
    requires have { HaveAll K.rules B.base number (cell_view keeper.old).seen sets.old }
    ensures gave_up { IfOk result (λ _. GaveUp K.rules B.base B.table access.now.history moment number desk.old sets.old
        (cell_view keeper.old) desk.new sets.new passes.new (cell_view keeper.new)) }
    ensures table { keeper.new.table_id ≡ B.table }
    ensures receipt { IfOk result (λ receipt. receipt ≡ desk.new.seen) }
    ensures refused { IfErr result IsNoPlace }
    ensures err { OnErr result ((sets.new ≡ sets.old) × (passes.new ≡ passes.old) × (keeper.new ≡ keeper.old) × (desk.new ≡ desk.old)) }
{
    cancelled_sets_are_held::<K, D>();
    holding_lasts::<K>();
    live_lasts::<K>();
    all_sound(sets);
    let place = access.journal.reserve(access.rt, access.alloc, desk)?;
    if let Err(_refused) = cancel_all(
        access.rt,
        access.alloc,
        buffers,
        sets,
        number,
        moment,
        access.history,
    ) {
        access.journal.give_back(access.rt, desk, place);
        return Err(IocError::NoMemory);
    }
    merge_all(access.rt, access.journal, keeper, passes);
    let event = Event::Cancel {
        notification: number,
    };
    let entry = Entry {
        moment,
        call: Call::Event(event, Reply::Plain),
        answers: KeptAnswers::new(Vec::new(access.alloc)),
    };
    let appended = access
        .journal
        .append(access.rt, place, keeper, desk, entry, EventCounts::none());
    deal_all(access.journal.cell(), keeper, sets, passes);
    Ok(appended.receipt)
}

/// Cancels a put with notification in these held sets, as [`give_up`] does, if they have all its
/// records. Otherwise returns `None`, and nothing has changed.
///
/// # Errors
///
/// Those of [`give_up`].
pub fn give_up_all<K: RecordKind + Drop, B: JournalName<K>, D: Device, R: Wait>(
    access: &JournalAccess<'_, K, B, R>,
    desk: &mut DeskAccount<K, B>,
    buffers: &mut EventBuffers<K, D>,
    keeper: &mut KeyPass,
    sets: &mut [LockSet<K, D>],
    passes: &mut [Option<KeyPass>],
    put: Live,
    moment: u64,
) -> Result<Option<Receipt<K, B>>, IocError>
    requires keeper { (keeper.old.table_id ≡ B.table) × (cell_view keeper.old ≡ holder (cell_view keeper.old).seen puts_key) }
    requires beside { length passes.old ≡ length sets.old }
    requires held { EachIsHeldBy K.rules B.base B.table sets.old passes.old }
    requires total { put.holders ≡ holders_of put.number (map_of K.rules B.base (cell_view keeper.old).seen).live }
    requires some { put.holders ≢ 0 }
    ensures gave_up { IfOk result (λ given. IfSome given (λ _. GaveUp K.rules B.base B.table access.now.history moment put.number desk.old
        sets.old (cell_view keeper.old) desk.new sets.new passes.new (cell_view keeper.new))) }
    ensures missing { IfOk result (λ given. IfNone given ((sets.new ≡ sets.old) × (passes.new ≡ passes.old)
        × (keeper.new ≡ keeper.old) × (desk.new ≡ desk.old) × (AreItsSets put.number put.holders sets.old
        → ⊥))) }
    ensures table { keeper.new.table_id ≡ B.table }
    ensures receipt { IfOk result (λ given. IfSome given (λ receipt. receipt ≡ desk.new.seen)) }
    ensures refused { IfErr result IsNoPlace }
    ensures err { OnErr result ((sets.new ≡ sets.old) × (passes.new ≡ passes.old) × (keeper.new ≡ keeper.old) × (desk.new ≡ desk.old)) }
{
    let Some(found) = total_in(sets, put.number) else {
        return Ok(None);
    };
    if found != put.holders || !all_live(sets, put.number) {
        return Ok(None);
    }
    let receipt = give_up(
        access, desk, buffers, keeper, sets, passes, put.number, moment,
    )?;
    Ok(Some(receipt))
}
