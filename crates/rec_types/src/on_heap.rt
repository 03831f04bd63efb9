//! The operations of a body on the heap, which are those of the body itself.
ghost use Rattle.std.specs.Prelude.{◌≡◌, IsTrue, is_some};
ghost use Rattle.ioc_dbcommon.specs.Wants.{puts_out};
ghost use Rattle.ioc_values.specs.Conversion.{value_in};
ghost use Rattle.ioc_record.specs.BodyRules.{number_stored};

use ioc_dbcommon::{BodyBox, Calculation, Condition, Got, LinkBox, Output};
use ioc_fields::OwnField;
use ioc_record::RecordBody;
use ioc_values::{Range, Value};

pub fn set_link<B: RecordBody>(kept: &mut BodyBox<B>, field: OwnField, link: LinkBox)
    ensures { kept.new ≡ B.rules.with_link kept.old field link }
{
    kept.get_mut().set_link(field, link);
}

pub fn set_calculation<B: RecordBody>(
    kept: &mut BodyBox<B>,
    field: OwnField,
    calculation: Calculation,
)
    ensures { kept.new ≡ B.rules.with_calculation kept.old field calculation }
{
    kept.get_mut().set_calculation(field, calculation);
}

pub fn store<B: RecordBody>(
    kept: &mut BodyBox<B>,
    condition: &mut Condition,
    field: OwnField,
    value: Value,
)
    ensures { record { body = kept.new; condition = condition.new }
        ≡ B.rules.stored (record { body = kept.old; condition = condition.old }) field value }
{
    kept.get_mut().store(condition, field, value);
}

pub fn store_number<B: RecordBody>(
    kept: &mut BodyBox<B>,
    condition: &mut Condition,
    field: OwnField,
    range: Range,
    number: i64,
) -> bool
    ensures fits { result ≡ is_some (value_in range number) }
    ensures stored { record { body = kept.new; condition = condition.new }
        ≡ number_stored B.rules (record { body = kept.old; condition = condition.old }) field (value_in range number) }
{
    kept.get_mut().store_number(condition, field, range, number)
}

pub fn take<B: RecordBody>(
    kept: &mut BodyBox<B>,
    condition: &mut Condition,
    got: &Got,
    output: &mut Output,
) -> bool
    ensures after { record { body = kept.new; condition = condition.new }
        ≡ B.rules.taken (record { body = kept.old; condition = condition.old }) got.now }
    ensures puts_out { result ≡ puts_out (B.rules.output (record { body = kept.old; condition = condition.old }) got.now) }
    ensures output { IsTrue result → output.new ≡ B.rules.output (record { body = kept.old; condition = condition.old }) got.now }
{
    kept.get_mut().take(condition, got, output)
}

pub fn post<B: RecordBody>(kept: &mut BodyBox<B>, alarm_changed: bool)
    ensures { kept.new ≡ B.rules.posted kept.old alarm_changed }
{
    kept.get_mut().post(alarm_changed);
}

pub fn load<B: RecordBody>(kept: &mut BodyBox<B>, condition: &mut Condition)
    ensures { record { body = kept.new; condition = condition.new }
        ≡ B.rules.loaded (record { body = kept.old; condition = condition.old }) }
{
    kept.get_mut().load(condition);
}

pub fn copy_from<B: RecordBody>(kept: &mut BodyBox<B>, other: &BodyBox<B>)
    requires same_type { B.rules.record_type kept.old ≡ B.rules.record_type other.now }
    requires same_links { B.rules.link kept.old ≡ B.rules.link other.now }
    ensures { kept.new ≡ other.now }
{
    kept.get_mut().copy_from(other.get());
}
