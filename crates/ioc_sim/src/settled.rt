//! What is true of a database after an event.
ghost use Rattle.rec_types.specs.Record.{Record, record_rules};
ghost use Rattle.std.specs.Prelude.{◌≡◌, ℕ, None};
ghost use Rattle.std.specs.FinMap.{len};
ghost use Rattle.ioc_store.specs.World.{World, IsClosed};
ghost use Rattle.ioc_process.specs.Rules.{IsSettled};
ghost use Rattle.ioc_events.specs.declared.event.Event.{Event};
ghost use Rattle.ioc_fields.specs.declared.field_no.FieldNo.{FieldNo};
ghost use Rattle.ioc_dbcommon.specs.declared.link_field.LinkField.{LinkField};
ghost use Rattle.ioc_events.specs.Step.{stepped, link_refusal, relinked};
ghost use Rattle.ioc_store.specs.Given.{Answers};

use ioc_events::call_rules::{calls_keep_records, calls_leave_settled};
use ioc_events::event_rules::{events_leave_settled, rules_are_steps};
use rec_types::Record;

/// After an event no link leaves the database, and a record is active exactly if its completion is
/// pending, if that was so before.
pub fn event_leaves_settled()
    ensures { (answers : Answers) (w : World Record) (event : Event) → IsSettled record_rules w
        → IsSettled record_rules (stepped record_rules answers w event).world }
{
    events_leave_settled::<Record>();
    rules_are_steps::<Record>();
}

/// After a link change that isn't refused no link leaves the database, and a record is active exactly
/// if its completion is pending, if that was so before. The number of records is unchanged.
pub fn link_change_keeps()
    ensures settled { (w : World Record) (n : ℕ) (field : FieldNo) (link : LinkField) →
        link_refusal record_rules w n field link ≡ None → IsSettled record_rules w
        → IsSettled record_rules (relinked record_rules w n field link) }
    ensures count { (w : World Record) (n : ℕ) (field : FieldNo) (link : LinkField) →
        link_refusal record_rules w n field link ≡ None → IsClosed record_rules w
        → len (relinked record_rules w n field link).records ≡ len w.records }
{
    calls_keep_records::<Record>();
    calls_leave_settled::<Record>();
}
