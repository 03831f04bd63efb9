//! What is true of a database after a call.
ghost use Rattle.std.specs.Prelude.{◌≡◌};
ghost use Rattle.std.specs.FinMap.{len};
ghost use Rattle.rec_types.specs.Record.{Record, record_rules};
ghost use Rattle.ioc_events.specs.Calls.{called};
ghost use Rattle.ioc_events.specs.declared.event.Call.{Call};
ghost use Rattle.ioc_process.specs.Rules.{IsSettled};
ghost use Rattle.ioc_store.specs.Given.{Answers};
ghost use Rattle.ioc_store.specs.World.{World};

use ioc_events::call_rules::{calls_keep_records, calls_leave_settled, rules_are_calls};
use rec_types::Record;

/// After a call no link leaves the database, and a record is active exactly if its completion is
/// pending, if that was so before. The number of records is unchanged.
pub fn calls_leave_sound()
    ensures settled { (answers : Answers) (w : World Record) (c : Call) → IsSettled record_rules w
        → IsSettled record_rules (called record_rules answers w c).world }
    ensures count { (answers : Answers) (w : World Record) (c : Call) → IsSettled record_rules w
        → len (called record_rules answers w c).world.records ≡ len w.records }
{
    calls_keep_records::<Record>();
    calls_leave_settled::<Record>();
    rules_are_calls::<Record>();
}
