//! Link changes.
ghost use Rattle.std.specs.Prelude.{◌≡◌, ◌&&◌, true, is_some, OnOk, OnErr, IfErr, Some, None};
ghost use Rattle.ioc_dbcommon.specs.Links.{named_by};
ghost use Rattle.ioc_record.specs.Values.{stops_put};
ghost use Rattle.ioc_events.specs.Step.{all_there, link_refusal, relinked};
ghost use Rattle.ioc_store.specs.World.{Has, at, common_at, put};

use ioc_dbcommon::{LinkBox, LinkUse};
use ioc_fields::FieldNo;
use ioc_names::RecordNo;
use ioc_process::scanning::{device_of, rewire};
use ioc_record::{RecordKind, stops_put};
use ioc_store::store::Store;
use ioc_values::IocError;

// Returns whether the record that a link leads to exists, if the link leads to one.
fn leads_within<S: Store>(store: &S, link: LinkUse) -> bool
    ensures { result ≡ all_there (S.world store.now) (named_by link) }
{
    match link {
        LinkUse::Standing(target) => store.has(target.number),
        LinkUse::Unused | LinkUse::OwnDevice | LinkUse::Absent => true,
    }
}

// Sets a link field.
fn set_link<S: Store>(store: &mut S, number: RecordNo, field: FieldNo, link: LinkBox)
    requires { Has (S.world store.old) number }
    ensures world { S.world store.new
        ≡ put (S.world store.old) number (S.Record.rules.with_link (at S.Record.rules (S.world store.old) number)
        field link) }
    ensures given { S.given store.new ≡ S.given store.old }
{
    store.record_mut(number).set_link(field, link);
}

/// Changes the link of a link field; nothing is processed. The memory for the link was allocated
/// before.
///
/// # Errors
///
/// [`IocError::NoRecord`], [`IocError::NoField`] or [`IocError::PutDisabled`] in this order, if
/// there is no such record or the link leads to none that exists, the field is no link field, or
/// DISP forbids it. Nothing has changed then.
#[tactic(auto, unfolding(crate::specs::Step::link_refusal))]
pub fn run_link<S: Store>(
    store: &mut S,
    number: RecordNo,
    field: FieldNo,
    link: LinkBox,
) -> Result<(), IocError>
    ensures done { OnOk result (link_refusal S.Record.rules (S.world store.old) number field link ≡ None) }
    ensures world { OnOk result (S.world store.new ≡ relinked S.Record.rules (S.world store.old) number field link) }
    ensures refused { IfErr result (λ e. link_refusal S.Record.rules (S.world store.old) number field link ≡ Some e) }
    ensures same { OnErr result (S.world store.new ≡ S.world store.old) }
    ensures given { S.given store.new ≡ S.given store.old }
{
    if !store.has(number) || !leads_within(store, link.in_use()) {
        return Err(IocError::NoRecord);
    }
    let this = store.record(number);
    if this.link(field).is_none() {
        return Err(IocError::NoField);
    }
    if stops_put(this.common(), field) {
        return Err(IocError::PutDisabled);
    }
    let before = device_of(this);
    set_link(store, number, field, link);
    rewire(store, number, before);
    Ok(())
}
