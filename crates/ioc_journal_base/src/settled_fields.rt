//! The common fields of a record, set as they are, also those that no put changes.
ghost use Rattle.std.specs.Prelude.{◌≡◌};
ghost use Rattle.ioc_journal_base.specs.States.{flag_in, status_in, alarms_with, common_with};

use ioc_alarms::Alarms;
use ioc_dbcommon::{Common, severity_in, uchar_in};
use ioc_fields::CommonField;
use ioc_menus::Status;
use ioc_values::Value;

// Returns whether a flag is set.
fn flag_in(value: Value) -> Option<bool>
    ensures { result ≡ flag_in value }
{
    match value {
        Value::UChar(number) => Some(number != 0),
        _ => None,
    }
}

// Returns the status of a value.
fn status_in(value: Value) -> Option<Status>
    ensures { result ≡ status_in value }
{
    match value {
        Value::Enum(number) => Status::from_number(number),
        _ => None,
    }
}

// Sets a field of the alarms.
#[tactic(auto, unfolding(crate::specs::States::alarms_with))]
fn set_alarm(alarms: &mut Alarms, field: CommonField, value: Value)
    ensures { alarms.new ≡ alarms_with alarms.old field value }
{
    match field {
        CommonField::Stat => alarms.status = status_in(value).unwrap_or(alarms.status),
        CommonField::Sevr => alarms.severity = severity_in(value).unwrap_or(alarms.severity),
        CommonField::Nsta => alarms.new_status = status_in(value).unwrap_or(alarms.new_status),
        CommonField::Nsev => {
            alarms.new_severity = severity_in(value).unwrap_or(alarms.new_severity);
        }
        _ => {}
    }
}

/// Sets a field that every record has. A value of another kind changes nothing.
#[tactic(auto, unfolding(crate::specs::States::common_with))]
pub(crate) fn set_common(common: &mut Common, field: CommonField, value: Value)
    ensures { common.new ≡ common_with common.old field value }
{
    match field {
        CommonField::Stat | CommonField::Sevr | CommonField::Nsta | CommonField::Nsev => {
            set_alarm(&mut common.condition.alarms, field, value);
        }
        CommonField::Lcnt => common.lock_count = uchar_in(value).unwrap_or(common.lock_count),
        CommonField::Pact => common.active = flag_in(value).unwrap_or(common.active),
        CommonField::Putf => common.by_put = flag_in(value).unwrap_or(common.by_put),
        CommonField::Rpro => common.reprocess = flag_in(value).unwrap_or(common.reprocess),
        _ => common.store(field, value),
    }
}
