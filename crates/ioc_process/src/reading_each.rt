//! The inputs of a body that reads several: each is read in order, whether or not one before it
//! returned a fault.
ghost use Rattle.std.specs.Prelude.{◌≡◌, ◌-◌, ◌+◌};
ghost use Rattle.ioc_fields.specs.Slots.{slot_number};
ghost use Rattle.ioc_dbcommon.specs.declared.body.Need.TheVariants.{Inputs};
ghost use Rattle.ioc_store.specs.World.{Has, IsClosed, Keeps, Stays};
ghost use Rattle.ioc_store.specs.Given.{Begins};
ghost use Rattle.ioc_store.specs.Inputs.{is_fault, came_of, kept};
ghost use Rattle.ioc_store.specs.Links.{input_at};
ghost use Rattle.ioc_process.specs.Ready.{IsReady, IsReadyFor, IsReadyNeeding, LeadsTo, TakesTurn};
ghost use Rattle.ioc_process.specs.Runs.{HasBoth, IsInputStep};
ghost use Rattle.ioc_process.specs.Processing.{processed, request, body, faulted, input_read, read_at};
ghost use Rattle.ioc_process.specs.Frames.{remaining, then_read_each, then_chosen, resumed_reading, most_calls};

use crate::finishing::finish_body;
use crate::inputs::{fault_link, read_value};
use crate::opening::open_frame;
use crate::outputs::is_chosen;
use crate::steps::{passes_on, wanted_link};
use ioc_dbcommon::{Got, InputKind, LinkUse, StandingLink};
use ioc_fields::{FieldNo, FieldSlot, OwnField};
use ioc_names::RecordNo;
use ioc_record::RecordKind;
use ioc_store::frames::{Frame, InputsLeft, Next, ResumePoint};
use ioc_store::store::Store;

/// Returns whether an input returned a fault.
fn is_fault(got: &Got) -> bool
    ensures { result ≡ is_fault got.now }
{
    matches!(got, Got::Fault)
}

/// Returns what comes of several inputs, of which one returned a fault or none did.
fn came_of(has_fault: bool) -> Got
    ensures { result ≡ came_of has_fault }
{
    if has_fault { Got::Fault } else { Got::Nothing }
}

/// Returns how a record uses its input with this number.
pub fn input_at<S: Store>(store: &S, number: RecordNo, slot: FieldSlot) -> LinkUse
    requires { Has (S.world store.now) number }
    ensures { result ≡ input_at S.Record.rules (S.world store.now) number slot }
{
    match store
        .record(number)
        .link(FieldNo::Own(OwnField::InputLink(slot)))
    {
        Some(field) => field.in_use(),
        None => LinkUse::Unused,
    }
}

/// Keeps the value that a record has read in a field of its own. After a fault, and if nothing came,
/// the field stays.
#[tactic(auto, unfolding(ioc_store::specs::Inputs::kept))]
fn keep<S: Store>(store: &mut S, number: RecordNo, field: OwnField, got: &Got)
    requires { Has (S.world store.old) number }
    ensures world { S.world store.new ≡ kept S.Record.rules (S.world store.old) number field got.now }
    ensures given { S.given store.new ≡ S.given store.old }
{
    match got {
        Got::Value(value) => store.record_mut(number).store(FieldNo::Own(field), *value),
        Got::Nothing => {}
        Got::Fault => {}
    }
}

/// Begins a body that reads several inputs, with the number that chooses them.
#[inline(never)]
pub fn begin_inputs<S: Store>(store: &mut S, frames: &mut Vec<Frame>, number: RecordNo) -> Next
    requires { IsReadyNeeding S.Record.rules (S.world store.old) number Inputs frames.old }
    ensures turn { LeadsTo (λ answers. processed (body S.Record.rules answers (request S.Record.rules answers) (S.world store.old) number))
        S.Record.rules (S.given store.new) (S.world store.new) frames.new result }
    ensures given { Begins S.Device.gives (S.given store.old) (S.given store.new) }
    ensures takes { TakesTurn S.Record.rules (S.world store.old) (S.world store.new) most_calls frames.old frames.new result }
{
    match wanted_link(store, number) {
        LinkUse::Unused => read_chosen(store, frames, number, &Got::Nothing),
        LinkUse::OwnDevice | LinkUse::Absent => choose_nowhere(store, frames, number),
        LinkUse::Standing(target) => {
            if passes_on(store, target.process_passive, target.number) {
                open_frame(store, frames, number, ResumePoint::Choosing(target));
                Next::Requests
            } else {
                choose(store, frames, number, target)
            }
        }
    }
}

/// Continues a body whose link to the number that chooses its inputs leads nowhere.
fn choose_nowhere<S: Store>(store: &mut S, frames: &mut Vec<Frame>, number: RecordNo) -> Next
    requires ready { IsReady S.Record.rules (S.world store.old) number frames.old }
    ensures turn { LeadsTo (λ answers. then_chosen S.Record.rules answers number
        (record { world = faulted S.Record.rules (S.world store.old) number; came = Got.Fault }))
        S.Record.rules (S.given store.new) (S.world store.new) frames.new result }
    ensures given { Begins S.Device.gives (S.given store.old) (S.given store.new) }
    ensures takes { TakesTurn S.Record.rules (S.world store.old) (S.world store.new) 33 frames.old frames.new result }
{
    let got = fault_link(store, number);
    read_chosen(store, frames, number, &got)
}

/// Continues a body that reads the number that chooses its inputs.
pub fn choose<S: Store>(
    store: &mut S,
    frames: &mut Vec<Frame>,
    number: RecordNo,
    target: StandingLink,
) -> Next
    requires { IsReadyFor S.Record.rules (S.world store.old) number target frames.old }
    ensures turn { LeadsTo (λ answers. then_chosen S.Record.rules answers number
        (read_at S.Record.rules S.Record.rules.input_kind (S.world store.old) number target))
        S.Record.rules (S.given store.new) (S.world store.new) frames.new result }
    ensures given { Begins S.Device.gives (S.given store.old) (S.given store.new) }
    ensures takes { TakesTurn S.Record.rules (S.world store.old) (S.world store.new) 33 frames.old frames.new result }
{
    let kind = store.record(number).input_kind();
    let got = read_value(store, number, target, kind);
    read_chosen(store, frames, number, &got)
}

/// Reads the inputs that are chosen by what has come.
fn read_chosen<S: Store>(
    store: &mut S,
    frames: &mut Vec<Frame>,
    number: RecordNo,
    got: &Got,
) -> Next
    requires ready { IsReady S.Record.rules (S.world store.old) number frames.old }
    ensures turn { LeadsTo (λ answers. then_chosen S.Record.rules answers number (record { world = S.world store.old; came = got.now }))
        S.Record.rules (S.given store.new) (S.world store.new) frames.new result }
    ensures given { Begins S.Device.gives (S.given store.old) (S.given store.new) }
    ensures takes { TakesTurn S.Record.rules (S.world store.old) (S.world store.new) 33 frames.old frames.new result }
{
    keep(store, number, OwnField::Seln, got);
    let inputs = store.record(number).inputs(got);
    read_each(store, frames, number, inputs, 0, is_fault(got))
}

/// Reads an input of a record that exists, and keeps its value. Returns whether it returned a fault.
fn read_input<S: Store>(
    store: &mut S,
    number: RecordNo,
    target: StandingLink,
    slot: FieldSlot,
) -> bool
    requires { HasBoth (S.world store.old) number target }
    ensures world { S.world store.new ≡ (input_read S.Record.rules (S.world store.old) number target slot).world }
    ensures fault { result ≡ is_fault (input_read S.Record.rules (S.world store.old) number target slot).came }
    ensures given { S.given store.new ≡ S.given store.old }
{
    let got = read_value(store, number, target, InputKind::Double);
    keep(store, number, OwnField::Letter(slot), &got);
    is_fault(&got)
}

/// What comes of an input of a record.
#[derive(Clone, Copy, PartialEq, Eq, Debug)]
pub enum InputStep {
    /// It is read, and its value kept. The field says whether it returned a fault.
    Kept(bool),
    /// The record that this link names is to be requested first.
    Asks(StandingLink),
}

/// Reads the input with this number, and keeps its value, unless the record that it names is to be
/// requested first.
#[inline(always)]
fn read_one<S: Store>(store: &mut S, number: RecordNo, slot: FieldSlot) -> InputStep
    requires there { Has (S.world store.old) number }
    requires closed { IsClosed S.Record.rules (S.world store.old) }
    ensures step { IsInputStep S.Record.rules (S.world store.old) number slot result (S.world store.new) }
    ensures keeps { Keeps S.Record.rules (S.world store.old) (S.world store.new) }
    ensures stays { Stays S.Record.rules (S.world store.old) number (S.world store.new) }
    ensures given { S.given store.new ≡ S.given store.old }
{
    match input_at(store, number, slot) {
        LinkUse::Unused => InputStep::Kept(false),
        LinkUse::OwnDevice | LinkUse::Absent => {
            fault_link(store, number);
            InputStep::Kept(true)
        }
        LinkUse::Standing(target) => {
            if passes_on(store, target.process_passive, target.number) {
                InputStep::Asks(target)
            } else {
                InputStep::Kept(read_input(store, number, target, slot))
            }
        }
    }
}

/// Continues a body that reads one of its inputs.
pub fn go_on_reading<S: Store>(
    store: &mut S,
    frames: &mut Vec<Frame>,
    number: RecordNo,
    left: InputsLeft,
    target: StandingLink,
) -> Next
    requires { IsReadyFor S.Record.rules (S.world store.old) number target frames.old }
    ensures turn { LeadsTo (λ answers. resumed_reading S.Record.rules answers (S.world store.old) number left target)
        S.Record.rules (S.given store.new) (S.world store.new) frames.new result }
    ensures given { Begins S.Device.gives (S.given store.old) (S.given store.new) }
    ensures takes { TakesTurn S.Record.rules (S.world store.old) (S.world store.new) ((15 - slot_number left.slot) + 17) frames.old
        frames.new result }
{
    let has_fault = left.has_fault | read_input(store, number, target, left.slot);
    read_each(
        store,
        frames,
        number,
        left.inputs,
        left.slot.index() + 1,
        has_fault,
    )
}

/// Reads the inputs of a record whose bits are set, from `first` on, and lets it take what came.
fn read_each<S: Store>(
    store: &mut S,
    frames: &mut Vec<Frame>,
    number: RecordNo,
    inputs: u16,
    first: usize,
    has_fault: bool,
) -> Next
    requires ready { IsReady S.Record.rules (S.world store.old) number frames.old }
    ensures turn { LeadsTo (λ answers. then_read_each S.Record.rules answers number has_fault (remaining inputs first) (S.world store.old))
        S.Record.rules (S.given store.new) (S.world store.new) frames.new result }
    ensures given { Begins S.Device.gives (S.given store.old) (S.given store.new) }
    ensures takes { TakesTurn S.Record.rules (S.world store.old) (S.world store.new) ((16 - first) + 17) frames.old frames.new result }
{
    let mut next = first;
    let mut has_fault = has_fault;
    while let Some(slot) = FieldSlot::from_index(next) {
        next += 1;
        if is_chosen(inputs, slot) {
            match read_one(store, number, slot) {
                InputStep::Kept(is_fault) => has_fault |= is_fault,
                InputStep::Asks(target) => {
                    let left = InputsLeft {
                        inputs,
                        slot,
                        has_fault,
                    };
                    let place = ResumePoint::ReadingEach(left, target);
                    open_frame(store, frames, number, place);
                    return Next::Requests;
                }
            }
        }
    }
    finish_body(store, frames, number, &came_of(has_fault))
}
