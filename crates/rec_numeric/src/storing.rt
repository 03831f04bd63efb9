//! What numeric inputs and outputs do alike to store numbers.
ghost use Rattle.std.specs.Prelude.{◌≡◌};
ghost use Rattle.ioc_record.specs.BodyRules.{BodyRules, BodyState};
ghost use Rattle.rec_numeric.specs.Constant.{constant_put};
ghost use Rattle.rec_numeric.specs.Stored.{IsNumberStored, IsStoredAs};

use crate::number::Number;
use ioc_dbcommon::Condition;
use ioc_fields::OwnField;
use ioc_links::Link;
use ioc_values::{Kind, Range, Value, of_number};

/// The type-specific fields of a numeric type, as a place to store numbers.
pub trait Storing<N: Number> {
    ghost rules: { BodyRules Self };

    ghost with: { BodyState Self → N → BodyState Self };

    /// Sets VAL, which clears UDF.
    fn put_value(&mut self, condition: &mut Condition, value: N)
        ensures { record { body = self.new; condition = condition.new }
            ≡ with (record { body = self.old; condition = condition.old }) value };

    /// Stores a value that was converted for the field. VAL clears UDF.
    fn store_value(&mut self, condition: &mut Condition, field: OwnField, value: Value)
        ensures { record { body = self.new; condition = condition.new }
            ≡ rules.stored (record { body = self.old; condition = condition.old }) field value };

    ghost stored_as: { IsStoredAs N.number rules with };
}

// Stores a number as a value of this range in a field of any kind. Returns whether it is in range.
// This isn't inlined, so that VAL doesn't clear the memory for the value.
#[inline(never)]
#[tactic(auto, unfolding(ioc_values::specs::Conversion::of_number, ioc_values::specs::Conversion::sort_of))]
fn store_converted<N: Number, B: Storing<N>>(
    body: &mut B,
    condition: &mut Condition,
    field: OwnField,
    range: Range,
    number: i64,
) -> bool
    ensures { IsNumberStored B.rules (record { body = body.old; condition = condition.old })
        (record { body = body.new; condition = condition.new }) field range number result }
{
    match of_number(Kind::Number(range), number) {
        Some(value) => {
            body.store_value(condition, field, value);
            true
        }
        None => false,
    }
}

/// Stores a number as a value of this range. Returns whether it is in range; nothing changes if it
/// isn't.
#[tactic(auto, using(crate::specs::Stored::is_there))]
pub fn store_number<N: Number, B: Storing<N>>(
    body: &mut B,
    condition: &mut Condition,
    field: OwnField,
    range: Range,
    number: i64,
) -> bool
    ensures { IsNumberStored B.rules (record { body = body.old; condition = condition.old })
        (record { body = body.new; condition = condition.new }) field range number result }
{
    match (field, N::in_range(range, number)) {
        (OwnField::Val, Some(value)) => {
            body.put_value(condition, value);
            true
        }
        _ => store_converted::<N, B>(body, condition, field, range, number),
    }
}

/// Puts a constant link into VAL.
#[tactic(auto, unfolding(ioc_values::specs::Conversion::sort_of))]
pub fn put_constant<N: Number, B: Storing<N>>(body: &mut B, condition: &mut Condition, link: Link)
    ensures { record { body = body.new; condition = condition.new }
        ≡ constant_put B.rules.stored N.number.range (record { body = body.old; condition = condition.old }) link }
{
    if let Link::Constant(constant) = link {
        if let Some(value) = of_number(Kind::Number(N::range()), constant) {
            body.store_value(condition, OwnField::Val, value);
        }
    }
}
