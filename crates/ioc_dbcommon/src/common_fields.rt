//! The values of the fields that every record has.
ghost use Rattle.std.specs.Prelude.{◌≡◌};
ghost use Rattle.ioc_dbcommon.specs.CommonFields.{shown_name, shown_time, flag, common_get, common_stored};

use crate::common::Common;
use crate::parts::{text_in, uchar_in};
use ioc_fields::CommonField;
use ioc_values::{Text, Value};
use itoa::Buffer;

// Returns the value of NAME.
#[tactic(auto, unfolding(crate::specs::CommonFields::shown_name))]
fn shown_name(common: &Common) -> Value
    ensures { result ≡ shown_name common.now }
{
    Value::Text(Text::cut(common.name.as_slice()))
}

// Returns the value of TIME.
#[tactic(auto, unfolding(crate::specs::CommonFields::shown_time))]
fn shown_time(moment: u64) -> Value
    ensures { result ≡ shown_time moment }
{
    Value::Text(Text::cut(Buffer::new().format(moment).as_bytes()))
}

// Returns the value of a field that is 0 or 1.
fn flag(is_set: bool) -> Value
    ensures { result ≡ flag is_set }
{
    Value::UChar(u8::from(is_set))
}

#[tactic(auto, unfolding(crate::specs::CommonFields::common_get, crate::specs::CommonFields::common_stored))]
impl Common {
    /// Returns the value of a field that every record has, or `None` for a link.
    pub fn get(&self, field: CommonField) -> Option<Value>
        ensures { result ≡ common_get self.now field }
    {
        Some(match field {
            CommonField::Name => shown_name(self),
            CommonField::Desc => Value::Text(self.description),
            CommonField::Asg => Value::Text(self.access_group),
            CommonField::Tse => Value::Short(0),
            CommonField::Proc => Value::UChar(self.process),
            CommonField::Lcnt => Value::UChar(self.lock_count),
            CommonField::Pact => flag(self.active),
            CommonField::Putf => flag(self.by_put),
            CommonField::Rpro => flag(self.reprocess),
            CommonField::Time => shown_time(self.time),
            CommonField::Sdis | CommonField::Flnk => return None,
            CommonField::Scan
            | CommonField::Pini
            | CommonField::Phas
            | CommonField::Evnt
            | CommonField::Prio => return self.scanning.get(field),
            CommonField::Disv | CommonField::Disa | CommonField::Diss | CommonField::Disp => {
                return self.disabling.get(field);
            }
            _ => return self.condition.get(field),
        })
    }

    /// Stores a value that was converted for the field.
    pub fn store(&mut self, field: CommonField, value: Value)
        ensures { self.new ≡ common_stored self.old field value }
    {
        match field {
            CommonField::Desc => self.description = text_in(value).unwrap_or(self.description),
            CommonField::Asg => self.access_group = text_in(value).unwrap_or(self.access_group),
            CommonField::Proc => self.process = uchar_in(value).unwrap_or(self.process),
            CommonField::Dtyp | CommonField::Udf | CommonField::Udfs => {
                self.condition.store(field, value);
            }
            CommonField::Scan
            | CommonField::Pini
            | CommonField::Phas
            | CommonField::Evnt
            | CommonField::Prio => self.scanning.store(field, value),
            CommonField::Disv | CommonField::Disa | CommonField::Diss | CommonField::Disp => {
                self.disabling.store(field, value);
            }
            _ => {}
        }
    }
}
