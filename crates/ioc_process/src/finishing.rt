//! The part of a body after its input: the record takes it, writes its output, and finishes.
ghost use Rattle.std.specs.Prelude.{◌≡◌, ◌+◌, ◌-◌};
ghost use Rattle.ioc_store.specs.World.{Has};
ghost use Rattle.ioc_store.specs.Given.{Answers, Begins};
ghost use Rattle.ioc_process.specs.Ready.{IsReady, IsReadyFor, LeadsTo, TakesTurn};
ghost use Rattle.ioc_process.specs.Runs.{IsStanding};
ghost use Rattle.ioc_dbcommon.specs.declared.body.Output.TheVariants.{WriteLink};
ghost use Rattle.ioc_dbcommon.specs.declared.link_field.LinkUse.TheVariants.{Standing};
ghost use Rattle.ioc_process.specs.Processing.{processed, request, completed, faulted, finished, after_output, put_out};
ghost use Rattle.ioc_process.specs.Processing.{write_link, wrote, after_writing, followed_each};
ghost use Rattle.ioc_process.specs.Frames.{then_finished, remaining, after_turn, turn_of};

use crate::fast_path::finish_fast;
use crate::inputs::fault_link;
use crate::opening::open_frame;
use crate::outputs::{
    Written, is_chosen, link_at, passive_record, passive_target, write_device, write_value,
};
use crate::steps::{finish_request, raise, take};
use ioc_dbcommon::{Got, LinkUse, Output, StandingLink};
use ioc_fields::FieldSlot;
use ioc_ledger::Outcome;
use ioc_menus::{Severity, Status};
use ioc_names::RecordNo;
use ioc_record::RecordKind;
use ioc_store::frames::{Frame, Next, ResumePoint};
use ioc_store::outbox::OutboxItem;
use ioc_store::store::Store;
use ioc_values::Value;

/// Shows the alarms of a record, follows its forward link, and returns what to do next.
#[inline(always)]
pub fn finish<S: Store>(store: &mut S, frames: &mut Vec<Frame>, number: RecordNo) -> Next
    requires ready { IsReady S.Record.rules (S.world store.old) number frames.old }
    ensures turn { (answers : Answers) → processed (finished S.Record.rules (request S.Record.rules answers) (S.world store.old) number)
        ≡ after_turn S.Record.rules answers (S.world store.new) (turn_of frames.new.items result) }
    ensures given { S.given store.new ≡ S.given store.old }
    ensures takes { TakesTurn S.Record.rules (S.world store.old) (S.world store.new) 1 frames.old frames.new result }
{
    let Some(named) = finish_fast(store, number) else {
        return Next::Ends(Outcome::Processed);
    };
    match passive_record(store, Some(named)) {
        Some(target) => {
            open_frame(store, frames, number, ResumePoint::Following(target));
            Next::Requests
        }
        None => {
            finish_request(store, number);
            Next::Ends(Outcome::Processed)
        }
    }
}

/// Raises an alarm for the output link of a record, and finishes.
pub fn finish_with_fault<S: Store>(store: &mut S, frames: &mut Vec<Frame>, number: RecordNo) -> Next
    requires ready { IsReady S.Record.rules (S.world store.old) number frames.old }
    ensures turn { (answers : Answers) → processed (finished S.Record.rules (request S.Record.rules answers)
        (faulted S.Record.rules (S.world store.old) number) number)
        ≡ after_turn S.Record.rules answers (S.world store.new) (turn_of frames.new.items result) }
    ensures given { S.given store.new ≡ S.given store.old }
    ensures takes { TakesTurn S.Record.rules (S.world store.old) (S.world store.new) 1 frames.old frames.new result }
{
    raise(store, number, Status::Link, Severity::Invalid);
    finish(store, frames, number)
}

/// Writes a value to another record, which may be requested, and finishes.
pub fn write_record<S: Store>(
    store: &mut S,
    frames: &mut Vec<Frame>,
    number: RecordNo,
    target: StandingLink,
    value: Value,
) -> Next
    requires { IsReadyFor S.Record.rules (S.world store.old) number target frames.old }
    ensures turn { (answers : Answers) → processed (then_finished S.Record.rules answers number
        (after_writing S.Record.rules (request S.Record.rules answers)
        (wrote S.Record.rules (S.world store.old) number target value) number target))
        ≡ after_turn S.Record.rules answers (S.world store.new) (turn_of frames.new.items result) }
    ensures given { S.given store.new ≡ S.given store.old }
    ensures takes { TakesTurn S.Record.rules (S.world store.old) (S.world store.new) 2 frames.old frames.new result }
{
    let called = target.number;
    match write_value(store, number, target, value) {
        Written::InVain => finish_with_fault(store, frames, number),
        Written::Alone => finish(store, frames, number),
        Written::AndRequests => {
            open_frame(store, frames, number, ResumePoint::Writing(called));
            Next::Requests
        }
    }
}

/// Writes a value through a link, and finishes.
#[tactic(auto, unfolding(crate::specs::Processing::write_link, crate::specs::Frames::then_finished))]
pub fn write_link<S: Store>(
    store: &mut S,
    frames: &mut Vec<Frame>,
    number: RecordNo,
    link: LinkUse,
    value: Value,
) -> Next
    requires standing { IsStanding (S.world store.old) link }
    requires ready { IsReady S.Record.rules (S.world store.old) number frames.old }
    ensures turn { (answers : Answers) → processed (then_finished S.Record.rules answers number
        (write_link S.Record.rules (request S.Record.rules answers) (S.world store.old) number link value))
        ≡ after_turn S.Record.rules answers (S.world store.new) (turn_of frames.new.items result) }
    ensures given { S.given store.new ≡ S.given store.old }
    ensures takes { TakesTurn S.Record.rules (S.world store.old) (S.world store.new) 2 frames.old frames.new result }
{
    match link {
        LinkUse::Unused => finish(store, frames, number),
        LinkUse::OwnDevice | LinkUse::Absent => finish_with_fault(store, frames, number),
        LinkUse::Standing(target) => write_record(store, frames, number, target, value),
    }
}

/// Follows the links of a record whose bits are set, from `first` on, and finishes.
pub fn follow_each<S: Store>(
    store: &mut S,
    frames: &mut Vec<Frame>,
    number: RecordNo,
    links: u16,
    first: usize,
) -> Next
    requires ready { IsReady S.Record.rules (S.world store.old) number frames.old }
    ensures turn { (answers : Answers) → processed (then_finished S.Record.rules answers number
        (followed_each S.Record.rules (request S.Record.rules answers) (S.world store.old) number (remaining links first)))
        ≡ after_turn S.Record.rules answers (S.world store.new) (turn_of frames.new.items result) }
    ensures given { S.given store.new ≡ S.given store.old }
    ensures takes { TakesTurn S.Record.rules (S.world store.old) (S.world store.new) ((16 - first) + 1) frames.old frames.new result }
{
    let mut next = first;
    while let Some(slot) = FieldSlot::from_index(next) {
        next += 1;
        if is_chosen(links, slot) {
            let link = link_at(store, number, slot);
            if let Some(target) = passive_target(store, link) {
                let place = ResumePoint::FollowingEach(links, target, next);
                open_frame(store, frames, number, place);
                return Next::Requests;
            }
        }
    }
    finish(store, frames, number)
}

/// Writes the output of a record, and finishes. If its device answers later, the record waits
/// instead.
#[inline(never)]
pub fn put_out<S: Store>(
    store: &mut S,
    frames: &mut Vec<Frame>,
    number: RecordNo,
    output: &Output,
) -> Next
    requires standing { (t : StandingLink) (v : Value) → output.now ≡ WriteLink (Standing t) v → Has (S.world store.old) t.number }
    requires ready { IsReady S.Record.rules (S.world store.old) number frames.old }
    ensures turn { LeadsTo (λ answers. processed (after_output S.Record.rules (request S.Record.rules answers) number
        (put_out S.Record.rules answers (request S.Record.rules answers) (S.world store.old) number output.now)))
        S.Record.rules (S.given store.new) (S.world store.new) frames.new result }
    ensures given { Begins S.Device.gives (S.given store.old) (S.given store.new) }
    ensures takes { TakesTurn S.Record.rules (S.world store.old) (S.world store.new) 17 frames.old frames.new result }
{
    match output {
        Output::NoOutput => finish(store, frames, number),
        Output::WriteLink(link, value) => write_link(store, frames, number, *link, *value),
        Output::WriteDevice(value) => {
            if write_device(store, number, *value) {
                finish(store, frames, number)
            } else {
                Next::Ends(Outcome::Processed)
            }
        }
        Output::FollowLinks(links) => follow_each(store, frames, number, *links, 0),
        Output::PostEvent(name) => {
            store.send(OutboxItem::Post(*name));
            finish(store, frames, number)
        }
    }
}

/// Continues a body whose link returned a fault.
pub fn take_fault<S: Store>(store: &mut S, frames: &mut Vec<Frame>, number: RecordNo) -> Next
    requires ready { IsReady S.Record.rules (S.world store.old) number frames.old }
    ensures turn { LeadsTo (λ answers. processed (completed S.Record.rules answers (request S.Record.rules answers)
        (faulted S.Record.rules (S.world store.old) number) number Got.Fault))
        S.Record.rules (S.given store.new) (S.world store.new) frames.new result }
    ensures given { Begins S.Device.gives (S.given store.old) (S.given store.new) }
    ensures takes { TakesTurn S.Record.rules (S.world store.old) (S.world store.new) 17 frames.old frames.new result }
{
    let got = fault_link(store, number);
    finish_body(store, frames, number, &got)
}

/// Lets a record take its input, write its output, and finish.
#[inline(always)]
pub fn finish_body<S: Store>(
    store: &mut S,
    frames: &mut Vec<Frame>,
    number: RecordNo,
    got: &Got,
) -> Next
    requires ready { IsReady S.Record.rules (S.world store.old) number frames.old }
    ensures turn { LeadsTo (λ answers. processed (completed S.Record.rules answers
        (request S.Record.rules answers) (S.world store.old) number got.now))
        S.Record.rules (S.given store.new) (S.world store.new) frames.new result }
    ensures given { Begins S.Device.gives (S.given store.old) (S.given store.new) }
    ensures takes { TakesTurn S.Record.rules (S.world store.old) (S.world store.new) 17 frames.old frames.new result }
{
    let mut output = Output::NoOutput;
    if take(store, number, got, &mut output) {
        put_out(store, frames, number, &output)
    } else {
        finish(store, frames, number)
    }
}
