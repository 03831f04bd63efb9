//! Cancels a put with notification on several sets, one after another.
ghost use Rattle.std.specs.Prelude.{◌≡◌, ◌<◌, ℕ, true, length, slice_index_or, OnOk, OnErr};
ghost use Rattle.ioc_notify.specs.Living.{is_live};
ghost use Rattle.ioc_set.specs.SetState.{SetState};
ghost use Rattle.ioc_set.specs.SetStore.{world_of};
ghost use Rattle.ioc_journaled_set.specs.GiveUpLaws.{GivesUp, CameToNothing};
ghost use Rattle.ioc_journaled_set.specs.Sets.{EachGivesUp};

use crate::give_up_laws::cancels_leave_nobody;
use ioc_device::Device;
use ioc_events::Event;
use ioc_notify::NotifyId;
use ioc_record::RecordKind;
use ioc_set::{EventBuffers, LockSet};
use std::alloc::{AllocError, Global};
use std::sync::Wait;

// Cancels a put with notification on a set, which keeps at most `most` events.
fn cancel_one<K: RecordKind + Drop, D: Device>(
    buffers: &mut EventBuffers<K, D>,
    alloc: Global,
    set: &mut LockSet<K, D>,
    number: NotifyId,
    moment: u64,
    most: usize,
) -> Result<(), AllocError>
    requires live { is_live number set.old.live ≡ true }
    ensures gives_up { OnOk result (GivesUp K.rules most moment number set.old set.new) }
    ensures nothing { OnOk result (CameToNothing (world_of buffers.new.store)) }
    ensures err { OnErr result (set.new ≡ set.old) }
{
    cancels_leave_nobody::<K, D>();
    set.is_sound();
    let event = Event::Cancel {
        notification: number,
    };
    let _reply = set.do_event(buffers, alloc, &event, moment, most)?;
    Ok(())
}

// Cancels a put with notification on a set. If allocation fails, tries again until it succeeds.
fn cancel_retrying<K: RecordKind + Drop, D: Device, R: Wait>(
    rt: &R,
    alloc: Global,
    buffers: &mut EventBuffers<K, D>,
    set: &mut LockSet<K, D>,
    number: NotifyId,
    moment: u64,
    most: usize,
)
    requires live { is_live number set.old.live ≡ true }
    ensures gives_up { GivesUp K.rules most moment number set.old set.new }
    ensures nothing { CameToNothing (world_of buffers.new.store) }
{
    for _ in rt.forever() {
        if cancel_one(buffers, alloc, set, number, moment, most).is_ok() {
            return;
        }
    }
    unreachable!()
}

/// Cancels a put with notification on each of these sets, on all of which it is live. Only the
/// first set may fail for lack of memory: once it is canceled there, the others are tried until
/// they succeed. Each set keeps at most `most` events.
///
/// # Errors
///
/// [`AllocError`] if allocation fails; nothing has changed then.
pub fn cancel_all<K: RecordKind + Drop, D: Device, R: Wait>(
    rt: &R,
    alloc: Global,
    buffers: &mut EventBuffers<K, D>,
    sets: &mut [LockSet<K, D>],
    number: NotifyId,
    moment: u64,
    most: usize,
) -> Result<(), AllocError>
    requires live { (i : ℕ) (d : SetState K D) → i < length sets.old → is_live number (slice_index_or sets.old i d).live ≡ true }
    ensures ok { OnOk result (EachGivesUp K.rules most moment number sets.old sets.new) }
    ensures err { OnErr result (sets.new ≡ sets.old) }
{
    if sets.len() == 0 {
        return Ok(());
    }
    let first = &mut sets[0];
    cancel_one(buffers, alloc, first, number, moment, most)?;
    for i in 1..sets.len() {
        cancel_retrying(rt, alloc, buffers, &mut sets[i], number, moment, most);
    }
    Ok(())
}
