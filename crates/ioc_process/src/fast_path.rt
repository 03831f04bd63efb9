//! Steps that access their record once.
ghost use Rattle.std.specs.Prelude.{◌≡◌};
ghost use Rattle.ioc_dbcommon.specs.Links.{record_named, use_of};
ghost use Rattle.ioc_dbcommon.specs.Steps.{unblocked};
ghost use Rattle.ioc_store.specs.Showing.{shown_record, showing};
ghost use Rattle.ioc_store.specs.World.{Has, common_at, changed};
ghost use Rattle.ioc_process.specs.Looks.{Begins, Opened, Opens, Shows, shown_on};

use crate::steps::{clear_marks, finish_request, is_off};
use ioc_dbcommon::{Got, Need, Output};
use ioc_names::RecordNo;
use ioc_record::RecordKind;
use ioc_store::{Store, TraceStep};

/// The state of a record that a request found idle.
#[derive(Clone, Copy)]
pub enum IdleStart {
    /// SDIS is a link, which is read first.
    ReadsDisable,
    /// The record is disabled.
    Disabled,
    /// The body reads a link first.
    ReadsLink,
    /// The body reads its device first.
    ReadsDevice,
    /// The body reads several inputs.
    ReadsInputs,
    /// The body needs no input; the record has taken an empty one and has no output.
    Took,
    /// The body needs no input; the record has taken an empty one and has an output.
    PutsOut,
}

// The state of a record that has shown its alarms.
enum Shown {
    // The forward link names this record.
    Named(RecordNo),
    // The forward link names no record, and the record is done.
    Done,
    // The forward link names no record, and there is more to do than to clear the marks of the
    // record.
    Rests,
}

// Lets a record whose body needs no input take an empty one.
#[inline(always)]
fn take_nothing<K: RecordKind>(this: &mut K, output: &mut Output) -> IdleStart
    requires { Begins K.rules this.old Need.Nothing }
    ensures { Opens K.rules this.old result output.new this.new }
{
    if this.take(&Got::Nothing, output) {
        IdleStart::PutsOut
    } else {
        IdleStart::Took
    }
}

// Begins a request that found the record idle. If SDIS is no link, the record isn't disabled and
// the body needs no input, the record takes an empty one.
#[inline(always)]
fn open_record<K: RecordKind>(this: &mut K, output: &mut Output) -> IdleStart
    ensures { Opens K.rules (K.rules.with_common this.old (unblocked (K.rules.common this.old))) result output.new this.new }
{
    this.common_mut().unblock();
    if !this.common().disable_link.is_unused() {
        return IdleStart::ReadsDisable;
    }
    if is_off(this.common()) {
        return IdleStart::Disabled;
    }
    match this.begin() {
        Need::Link => IdleStart::ReadsLink,
        Need::Device => IdleStart::ReadsDevice,
        Need::Inputs => IdleStart::ReadsInputs,
        Need::Nothing => take_nothing(this, output),
    }
}

/// Begins a request that found the record idle. If SDIS is no link, the record isn't disabled and
/// the body needs no input, the record takes an empty one, and its output, if it has any, is
/// written to `output`.
#[inline(always)]
pub fn begin_fast<S: Store>(store: &mut S, number: RecordNo, output: &mut Output) -> IdleStart
    requires { Has (S.world store.old) number }
    ensures opened { Opened S.Record.rules (changed S.Record.rules (S.world store.old) number unblocked) number result output.new
        (S.world store.new) }
    ensures given { S.given store.new ≡ S.given store.old }
{
    open_record(store.record_mut(number), output)
}

// Shows the alarms of a record and notes which values its monitors are sent. It is done then if
// nothing else is left.
#[inline(always)]
fn show_record<K: RecordKind>(this: &mut K, moment: u64) -> Shown
    ensures { Shows K.rules (shown_record K.rules moment this.old) result this.new }
{
    let alarm_changed = this.common().condition.alarms.changes();
    this.common_mut().show(moment);
    this.post(alarm_changed);
    let common = this.common();
    if let Some(target) = common.forward_link.record_named() {
        return Shown::Named(target);
    }
    if common.notification.is_some() || common.reprocess {
        return Shown::Rests;
    }
    clear_marks(this.common_mut());
    Shown::Done
}

/// Shows the alarms of a record, with the time stamp of the event, and returns the record that its
/// forward link names. The record is active then; if the link names none, the record is done
/// instead.
#[inline(always)]
pub fn finish_fast<S: Store>(store: &mut S, number: RecordNo) -> Option<RecordNo>
    requires { Has (S.world store.old) number }
    ensures named { result ≡ record_named (use_of (common_at S.Record.rules
        (showing S.Record.rules (S.world store.old) number) number).forward_link) }
    ensures world { S.world store.new ≡ shown_on S.Record.rules (S.world store.old) number result }
    ensures given { S.given store.new ≡ S.given store.old }
{
    let moment = store.moment();
    store.trace(&TraceStep::ShowsAlarm(number));
    match show_record(store.record_mut(number), moment) {
        Shown::Named(target) => Some(target),
        Shown::Done => None,
        Shown::Rests => {
            finish_request(store, number);
            None
        }
    }
}
