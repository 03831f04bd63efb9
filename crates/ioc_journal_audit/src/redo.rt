//! Calls, made again on a map whose devices give the answers of a list.
ghost use Rattle.std.specs.Prelude.{◌≡◌, [], IfOk, OnErr};
ghost use Rattle.std.specs.Global.{Vec};
ghost use Rattle.ioc_store.specs.declared.frames.Frame.{Frame};
ghost use Rattle.ioc_events.specs.declared.event.Call.TheVariants as call;
ghost use Rattle.ioc_process.specs.Running.{CanRun};
ghost use Rattle.ioc_journal_audit.specs.PlayedMap.{world_of};
ghost use Rattle.ioc_journal_audit.specs.Redoing.{Redoes};

use crate::played_map::PlayedMap;
use crate::same::{are_same_changes, are_same_replies, are_same_texts};
use ioc_dbcommon::{LinkBox, LinkField};
use ioc_events::{Call, Event, Reply, run_event, run_get, run_link};
use ioc_fields::FieldNo;
use ioc_ledger::Tally;
use ioc_names::RecordNo;
use ioc_notify::NotifyId;
use ioc_record::{FieldText, RecordKind};
use ioc_store::{Frame, Store};
use ioc_values::IocError;
use std::alloc::{AllocError, Global};

/// A call with the reply that the rules give, and whether this is the reply that it had.
#[derive(Clone, Copy)]
pub struct Redone {
    pub call: Call,
    pub agrees: bool,
}

// Does an event again.
fn redo_event<K: RecordKind>(
    map: &mut PlayedMap<K>,
    frames: &mut Vec<Frame>,
    event: &Event,
    reply: &Reply,
) -> Redone
    requires { CanRun K.rules (world_of map.old) frames.old }
    ensures redoes { Redoes K.rules map.old map.new frames.old frames.new (call.Event event.now reply.now) result }
{
    let mut tally = Tally::default();
    let made = run_event(map, frames, event, &mut tally);
    Redone {
        call: Call::Event(*event, made),
        agrees: are_same_replies(&made, reply),
    }
}

// Gets the text of a field again.
#[inline(never)]
fn redo_get<K: RecordKind>(
    map: &PlayedMap<K>,
    number: RecordNo,
    field: FieldNo,
    text: &Result<FieldText, IocError>,
) -> Redone
    ensures { (frames : Vec Frame) → frames.items ≡ []
        → Redoes K.rules map.now map.now frames frames (call.Get number field text.now) result }
{
    let shown = run_get(map, number, field);
    Redone {
        call: Call::Get(number, field, shown),
        agrees: are_same_texts(&shown, text),
    }
}

// Tells again whether a put with notification is live.
#[inline(never)]
fn redo_is_live<K: RecordKind>(map: &PlayedMap<K>, number: NotifyId, live: bool) -> Redone
    ensures { (frames : Vec Frame) → frames.items ≡ []
        → Redoes K.rules map.now map.now frames frames (call.IsLive number live) result }
{
    let is_live = map.is_live(number);
    Redone {
        call: Call::IsLive(number, is_live),
        agrees: is_live == live,
    }
}

// Changes a link again.
#[inline(never)]
fn redo_link<K: RecordKind>(
    alloc: Global,
    map: &mut PlayedMap<K>,
    number: RecordNo,
    field: FieldNo,
    link: &LinkField,
    done: &Result<(), IocError>,
) -> Result<Redone, AllocError>
    ensures redoes { IfOk result (λ redone. (frames : Vec Frame) → frames.items ≡ []
        → Redoes K.rules map.old map.new frames frames (call.Link number field link.now done.now) redone) }
    ensures same { OnErr result (world_of map.new ≡ world_of map.old) }
{
    let kept = LinkBox::new(alloc, *link)?;
    let changed = run_link(map, number, field, kept);
    Ok(Redone {
        call: Call::Link(number, field, *link, changed),
        agrees: are_same_changes(&changed, done),
    })
}

/// Makes a call again. The reply that is written in it has no effect.
///
/// # Errors
///
/// [`AllocError`] if allocation fails. No record has changed then.
pub fn redo<K: RecordKind>(
    alloc: Global,
    map: &mut PlayedMap<K>,
    frames: &mut Vec<Frame>,
    made: &Call,
) -> Result<Redone, AllocError>
    requires { CanRun K.rules (world_of map.old) frames.old }
    ensures redoes { IfOk result (λ redone. Redoes K.rules map.old map.new frames.old frames.new made.now redone) }
    ensures same { OnErr result (world_of map.new ≡ world_of map.old) }
    ensures frames { OnErr result (frames.new ≡ frames.old) }
{
    match made {
        Call::Event(event, reply) => Ok(redo_event(map, frames, event, reply)),
        Call::Get(number, field, text) => Ok(redo_get(map, *number, *field, text)),
        Call::IsLive(number, live) => Ok(redo_is_live(map, *number, *live)),
        Call::Link(number, field, link, done) => {
            redo_link(alloc, map, *number, *field, link, done)
        }
        Call::Post(_, _) | Call::Interrupt(_, _) => Ok(Redone {
            call: *made,
            agrees: true,
        }),
    }
}
