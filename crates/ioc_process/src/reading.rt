//! The input of a body: it reads a link or its device, or needs neither.
ghost use Rattle.std.specs.Prelude.{◌≡◌};
ghost use Rattle.ioc_store.specs.Given.{Begins};
ghost use Rattle.ioc_process.specs.Ready.{CanReadThrough, IsReady, IsReadyFor, IsReadyNeeding, LeadsTo, TakesTurn};
ghost use Rattle.ioc_process.specs.Processing.{processed, request, read_at, completed, body, as_input, read_link, read_record};
ghost use Rattle.ioc_process.specs.Frames.{after_reading, most_calls};

use crate::finishing::{finish_body, take_fault};
use crate::inputs::{ask_device, read_value};
use crate::opening::open_frame;
use crate::reading_each::begin_inputs;
use crate::steps::{need, passes_on, wanted_link};
use ioc_dbcommon::{Got, LinkUse, Need, StandingLink};
use ioc_ledger::Outcome;
use ioc_names::RecordNo;
use ioc_record::RecordKind;
use ioc_store::frames::{Frame, Next, ResumePoint};
use ioc_store::store::Store;

/// Begins the body of a record.
#[inline(always)]
pub fn begin_body<S: Store>(store: &mut S, frames: &mut Vec<Frame>, number: RecordNo) -> Next
    requires ready { IsReady S.Record.rules (S.world store.old) number frames.old }
    ensures turn { LeadsTo (λ answers. processed (body S.Record.rules answers (request S.Record.rules answers) (S.world store.old) number))
        S.Record.rules (S.given store.new) (S.world store.new) frames.new result }
    ensures given { Begins S.Device.gives (S.given store.old) (S.given store.new) }
    ensures takes { TakesTurn S.Record.rules (S.world store.old) (S.world store.new) most_calls frames.old frames.new result }
{
    match need(store, number) {
        Need::Nothing => finish_body(store, frames, number, &Got::Nothing),
        Need::Link => begin_wanted(store, frames, number),
        Need::Device => begin_asking(store, frames, number),
        Need::Inputs => begin_inputs(store, frames, number),
    }
}

/// Begins a body that reads a link first.
#[inline(never)]
pub fn begin_wanted<S: Store>(store: &mut S, frames: &mut Vec<Frame>, number: RecordNo) -> Next
    requires { IsReadyNeeding S.Record.rules (S.world store.old) number Need.Link frames.old }
    ensures turn { LeadsTo (λ answers. processed (body S.Record.rules answers (request S.Record.rules answers) (S.world store.old) number))
        S.Record.rules (S.given store.new) (S.world store.new) frames.new result }
    ensures given { Begins S.Device.gives (S.given store.old) (S.given store.new) }
    ensures takes { TakesTurn S.Record.rules (S.world store.old) (S.world store.new) most_calls frames.old frames.new result }
{
    let link = wanted_link(store, number);
    begin_reading(store, frames, number, link)
}

/// Begins a body that reads its device first.
#[inline(never)]
pub fn begin_asking<S: Store>(store: &mut S, frames: &mut Vec<Frame>, number: RecordNo) -> Next
    requires { IsReadyNeeding S.Record.rules (S.world store.old) number Need.Device frames.old }
    ensures turn { LeadsTo (λ answers. processed (body S.Record.rules answers (request S.Record.rules answers) (S.world store.old) number))
        S.Record.rules (S.given store.new) (S.world store.new) frames.new result }
    ensures given { Begins S.Device.gives (S.given store.old) (S.given store.new) }
    ensures takes { TakesTurn S.Record.rules (S.world store.old) (S.world store.new) most_calls frames.old frames.new result }
{
    match ask_device(store, number) {
        Some(got) => finish_body(store, frames, number, &got),
        None => Next::Ends(Outcome::Processed),
    }
}

/// Begins a body by reading a link. If the link has PP and the record that it names is passive,
/// that one is requested first.
#[tactic(auto, unfolding(crate::specs::Processing::read_link, crate::specs::Frames::after_reading))]
fn begin_reading<S: Store>(
    store: &mut S,
    frames: &mut Vec<Frame>,
    number: RecordNo,
    link: LinkUse,
) -> Next
    requires { CanReadThrough S.Record.rules (S.world store.old) number link frames.old }
    ensures turn { LeadsTo (λ answers. processed (after_reading S.Record.rules answers number (as_input (read_link S.Record.rules
        (request S.Record.rules answers) S.Record.rules.input_kind (S.world store.old) number link))))
        S.Record.rules (S.given store.new) (S.world store.new) frames.new result }
    ensures given { Begins S.Device.gives (S.given store.old) (S.given store.new) }
    ensures takes { TakesTurn S.Record.rules (S.world store.old) (S.world store.new) most_calls frames.old frames.new result }
{
    match link {
        LinkUse::Unused => finish_body(store, frames, number, &Got::Nothing),
        LinkUse::OwnDevice | LinkUse::Absent => take_fault(store, frames, number),
        LinkUse::Standing(target) => {
            if passes_on(store, target.process_passive, target.number) {
                open_frame(store, frames, number, ResumePoint::Reading(target));
                Next::Requests
            } else {
                take_value(store, frames, number, target)
            }
        }
    }
}

/// Continues the body of a record that reads another one through a link.
#[inline(always)]
pub fn take_value<S: Store>(
    store: &mut S,
    frames: &mut Vec<Frame>,
    number: RecordNo,
    target: StandingLink,
) -> Next
    requires { IsReadyFor S.Record.rules (S.world store.old) number target frames.old }
    ensures turn { LeadsTo (λ answers. processed
        (let read = read_at S.Record.rules S.Record.rules.input_kind (S.world store.old) number target in
        completed S.Record.rules answers (request S.Record.rules answers) read.world number read.came))
        S.Record.rules (S.given store.new) (S.world store.new) frames.new result }
    ensures given { Begins S.Device.gives (S.given store.old) (S.given store.new) }
    ensures takes { TakesTurn S.Record.rules (S.world store.old) (S.world store.new) 17 frames.old frames.new result }
{
    let kind = store.record(number).input_kind();
    let got = read_value(store, number, target, kind);
    finish_body(store, frames, number, &got)
}
