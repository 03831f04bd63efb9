//! SDIS: a request reads it before anything else and doesn't process a record that is disabled.
ghost use Rattle.std.specs.Prelude.{◌≡◌, true};
ghost use Rattle.ioc_dbcommon.specs.Steps.{disable_kind};
ghost use Rattle.ioc_store.specs.World.{Has, common_at};
ghost use Rattle.ioc_store.specs.Given.{Answers, Begins};
ghost use Rattle.ioc_dbcommon.specs.Links.{use_of};
ghost use Rattle.ioc_ledger.specs.declared.outcome.Outcome.TheVariants.{Disabled};
ghost use Rattle.ioc_store.specs.Marks.{is_disabled};
ghost use Rattle.ioc_store.specs.declared.frames.Next.TheVariants.{Ends};
ghost use Rattle.ioc_process.specs.Ready.{CanReadThrough, IsReady, IsReadyFor, LeadsTo, TakesTurn};
ghost use Rattle.ioc_process.specs.Processing.{faulted, request, judged, read_at, read_link, read_record};
ghost use Rattle.ioc_store.specs.Rests.{disable_came};
ghost use Rattle.ioc_process.specs.Frames.{Ended, after_disable, after_turn, most_calls, most_of_request, Turns};

use crate::inputs::{fault_link, read_value};
use crate::notifying::release_notification;
use crate::opening::open_frame;
use crate::reading::begin_body;
use crate::steps::{common, disable, is_disabled, passes_on, take_disable_input};
use ioc_dbcommon::{LinkUse, StandingLink, disable_kind};
use ioc_ledger::Outcome;
use ioc_names::RecordNo;
use ioc_store::frames::{Frame, Next, ResumePoint};
use ioc_store::store::Store;

/// Begins a request by reading SDIS. It is not inlined, since few records use SDIS.
#[inline(never)]
pub fn begin_with_disable<S: Store>(
    store: &mut S,
    frames: &mut Vec<Frame>,
    number: RecordNo,
) -> Next
    requires ready { IsReady S.Record.rules (S.world store.old) number frames.old }
    ensures turn { LeadsTo (λ answers. after_disable S.Record.rules answers number (read_link S.Record.rules
        (request S.Record.rules answers) (λ _. disable_kind) (S.world store.old) number (use_of
        (common_at S.Record.rules (S.world store.old) number).disable_link)))
        S.Record.rules (S.given store.new) (S.world store.new) frames.new result }
    ensures given { Begins S.Device.gives (S.given store.old) (S.given store.new) }
    ensures takes { TakesTurn S.Record.rules (S.world store.old) (S.world store.new) most_of_request frames.old frames.new result }
{
    let link = common(store, number).disable_link.in_use();
    read_disable(store, frames, number, link)
}

/// Ends a request of a record that is disabled.
pub fn leave_alone<S: Store>(store: &mut S, number: RecordNo) -> Next
    requires there { Has (S.world store.old) number }
    requires off { is_disabled (common_at S.Record.rules (S.world store.old) number) ≡ true }
    ensures turn { (answers : Answers) → judged S.Record.rules answers (request S.Record.rules answers) (S.world store.old) number
        ≡ after_turn S.Record.rules answers (S.world store.new) (Ended Disabled) }
    ensures given { S.given store.new ≡ S.given store.old }
    ensures turns { Turns S.Record.rules (S.world store.old) (S.world store.new) 0 most_calls (Ended Disabled) }
    ensures ends { result ≡ Ends Disabled }
{
    release_notification(store, number);
    disable(store, number);
    Next::Ends(Outcome::Disabled)
}

// Reads SDIS of a record. If the link has PP and the record that it names is passive, that one is
// requested first.
#[tactic(auto, unfolding(crate::specs::Processing::read_link, crate::specs::Processing::ran_after, ioc_store::specs::Rests::disable_came, crate::specs::Frames::after_disable))]
fn read_disable<S: Store>(
    store: &mut S,
    frames: &mut Vec<Frame>,
    number: RecordNo,
    link: LinkUse,
) -> Next
    requires { CanReadThrough S.Record.rules (S.world store.old) number link frames.old }
    ensures turn { LeadsTo (λ answers. after_disable S.Record.rules answers number (read_link S.Record.rules
        (request S.Record.rules answers) (λ _. disable_kind) (S.world store.old) number link))
        S.Record.rules (S.given store.new) (S.world store.new) frames.new result }
    ensures given { Begins S.Device.gives (S.given store.old) (S.given store.new) }
    ensures takes { TakesTurn S.Record.rules (S.world store.old) (S.world store.new) most_of_request frames.old frames.new result }
{
    match link {
        LinkUse::Unused => judge(store, frames, number),
        LinkUse::OwnDevice | LinkUse::Absent => judge_faulted(store, frames, number),
        LinkUse::Standing(target) => {
            if passes_on(store, target.process_passive, target.number) {
                open_frame(store, frames, number, ResumePoint::ReadingDisable(target));
                Next::Requests
            } else {
                take_disable(store, frames, number, target)
            }
        }
    }
}

// Continues a request whose SDIS link returned a fault.
fn judge_faulted<S: Store>(store: &mut S, frames: &mut Vec<Frame>, number: RecordNo) -> Next
    requires ready { IsReady S.Record.rules (S.world store.old) number frames.old }
    ensures turn { LeadsTo (λ answers. judged S.Record.rules answers (request S.Record.rules answers)
        (faulted S.Record.rules (S.world store.old) number) number)
        S.Record.rules (S.given store.new) (S.world store.new) frames.new result }
    ensures given { Begins S.Device.gives (S.given store.old) (S.given store.new) }
    ensures takes { TakesTurn S.Record.rules (S.world store.old) (S.world store.new) most_calls frames.old frames.new result }
{
    fault_link(store, number);
    judge(store, frames, number)
}

/// Continues a request whose SDIS is read from another record.
pub fn take_disable<S: Store>(
    store: &mut S,
    frames: &mut Vec<Frame>,
    number: RecordNo,
    target: StandingLink,
) -> Next
    requires { IsReadyFor S.Record.rules (S.world store.old) number target frames.old }
    ensures turn { LeadsTo (λ answers. let read = read_at S.Record.rules (λ _. disable_kind) (S.world store.old) number target in
        judged S.Record.rules answers (request S.Record.rules answers) (disable_came S.Record.rules read.world number read.came) number)
        S.Record.rules (S.given store.new) (S.world store.new) frames.new result }
    ensures given { Begins S.Device.gives (S.given store.old) (S.given store.new) }
    ensures takes { TakesTurn S.Record.rules (S.world store.old) (S.world store.new) most_calls frames.old frames.new result }
{
    let got = read_value(store, number, target, disable_kind());
    take_disable_input(store, number, got);
    judge(store, frames, number)
}

/// Continues a request that has read SDIS: ends it if the record is disabled, and otherwise begins
/// the body.
#[inline(always)]
fn judge<S: Store>(store: &mut S, frames: &mut Vec<Frame>, number: RecordNo) -> Next
    requires ready { IsReady S.Record.rules (S.world store.old) number frames.old }
    ensures turn { LeadsTo (λ answers. judged S.Record.rules answers (request S.Record.rules answers) (S.world store.old) number)
        S.Record.rules (S.given store.new) (S.world store.new) frames.new result }
    ensures given { Begins S.Device.gives (S.given store.old) (S.given store.new) }
    ensures takes { TakesTurn S.Record.rules (S.world store.old) (S.world store.new) most_calls frames.old frames.new result }
{
    if is_disabled(store, number) {
        leave_alone(store, number)
    } else {
        begin_body(store, frames, number)
    }
}
