//! Puts with notification, as they pass from record to record and end.
ghost use Rattle.std.specs.Prelude.{◌≡◌, Some};
ghost use Rattle.ioc_store.specs.Notifying.{taken_over, holding, passed_on, notified_as, notified};
ghost use Rattle.ioc_store.specs.World.{Has};

use crate::steps::{common, set_notification};
use ioc_dbcommon::Common;
use ioc_names::RecordNo;
use ioc_notify::NotifyId;
use ioc_store::Store;

// Returns the put with notification that a record takes over from the one that requests it.
fn taken_over(source: &Common, target: &Common) -> Option<NotifyId>
    ensures { result ≡ taken_over source.now target.now }
{
    if target.active || target.notification.is_some() {
        return None;
    }
    source.notification
}

// Makes a record part of this put with notification, if there is one.
#[tactic(auto, unfolding(ioc_store::specs::Notifying::holding))]
fn hold<S: Store>(store: &mut S, number: RecordNo, notification: Option<NotifyId>)
    requires { Has (S.world store.old) number }
    ensures world { S.world store.new ≡ holding S.Record.rules (S.world store.old) number notification }
    ensures given { S.given store.new ≡ S.given store.old }
{
    if let Some(held) = notification {
        set_notification(store, number, notification);
        store.take_on(held);
    }
}

// Passes the put with notification of the requesting record to the requested one, if that is idle
// and part of none.
#[tactic(auto, unfolding(ioc_store::specs::Notifying::passed_on))]
#[inline(never)]
fn take_over<S: Store>(store: &mut S, source: RecordNo, target: RecordNo)
    requires source { Has (S.world store.old) source }
    requires target { Has (S.world store.old) target }
    ensures world { S.world store.new ≡ passed_on S.Record.rules (S.world store.old) source target }
    ensures given { S.given store.new ≡ S.given store.old }
{
    let notification = taken_over(common(store, source), common(store, target));
    hold(store, target, notification);
}

/// Passes the put with notification of the requesting record, if it has one, to the requested one,
/// if that is idle and part of none.
#[tactic(auto, unfolding(ioc_store::specs::Notifying::passed_on, ioc_store::specs::Notifying::holding))]
#[inline(always)]
pub fn pass_notification<S: Store>(store: &mut S, source: RecordNo, target: RecordNo)
    requires source { Has (S.world store.old) source }
    requires target { Has (S.world store.old) target }
    ensures world { S.world store.new ≡ passed_on S.Record.rules (S.world store.old) source target }
    ensures given { S.given store.new ≡ S.given store.old }
{
    if common(store, source).notification.is_some() {
        take_over(store, source, target);
    }
}

// Removes a record from this put with notification.
#[tactic(auto, unfolding(ioc_store::specs::Notifying::notified_as))]
#[inline(never)]
fn release_notification_of<S: Store>(store: &mut S, number: RecordNo, notification: NotifyId)
    requires { Has (S.world store.old) number }
    ensures world { S.world store.new ≡ notified_as S.Record.rules (S.world store.old) number (Some notification) }
    ensures given { S.given store.new ≡ S.given store.old }
{
    set_notification(store, number, None);
    store.let_go(notification);
}

/// Removes a record from its put with notification, if it has one.
#[tactic(auto, unfolding(ioc_store::specs::Notifying::notified, ioc_store::specs::Notifying::notified_as))]
#[inline(always)]
pub fn release_notification<S: Store>(store: &mut S, number: RecordNo)
    requires { Has (S.world store.old) number }
    ensures world { S.world store.new ≡ notified S.Record.rules (S.world store.old) number }
    ensures given { S.given store.new ≡ S.given store.old }
{
    if let Some(notification) = common(store, number).notification {
        release_notification_of(store, number, notification);
    }
}
