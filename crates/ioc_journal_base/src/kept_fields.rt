//! Type-specific fields that no put changes, set as they are.
ghost use Rattle.std.specs.Prelude.{◌≡◌};
ghost use Rattle.ioc_journal_base.specs.States.{analog_kept, ai_kept, ao_kept, calc_kept, calcout_kept, sel_kept, alarmed_kept, body_kept};

use crate::last_alarmed::set_last_alarmed;
use ioc_dbcommon::{double_in, uchar_in};
use ioc_fields::OwnField;
use ioc_values::Value;
use rec_analog::{Ai, Analog, Ao};
use rec_calc::{Calc, Calcout};
use rec_sel::Sel;
use rec_types::Body;

#[tactic(auto, unfolding(crate::specs::States::analog_kept))]
fn set_analog(body: &mut Analog, field: OwnField, value: Value)
    ensures { body.new ≡ analog_kept body.old field value }
{
    match field {
        OwnField::Lalm => body.last_alarmed = double_in(value).unwrap_or(body.last_alarmed),
        OwnField::Mlst => body.last_monitored = double_in(value).unwrap_or(body.last_monitored),
        OwnField::Alst => body.last_archived = double_in(value).unwrap_or(body.last_archived),
        _ => {}
    }
}

#[tactic(auto, unfolding(crate::specs::States::ai_kept))]
fn set_ai(body: &mut Ai, field: OwnField, value: Value)
    ensures { body.new ≡ ai_kept body.old field value }
{
    match field {
        OwnField::Init => body.initial = uchar_in(value).unwrap_or(body.initial),
        _ => set_analog(&mut body.analog, field, value),
    }
}

#[tactic(auto, unfolding(crate::specs::States::ao_kept))]
fn set_ao(body: &mut Ao, field: OwnField, value: Value)
    ensures { body.new ≡ ao_kept body.old field value }
{
    match field {
        OwnField::Oval => body.driven = double_in(value).unwrap_or(body.driven),
        OwnField::Pval => body.previous = double_in(value).unwrap_or(body.previous),
        _ => set_analog(&mut body.analog, field, value),
    }
}

#[tactic(auto, unfolding(crate::specs::States::calc_kept))]
fn set_calc(body: &mut Calc, field: OwnField, value: Value)
    ensures { body.new ≡ calc_kept body.old field value }
{
    match field {
        OwnField::LastLetter(_) => body.inputs.set_sent(field, value),
        _ => set_analog(&mut body.analog, field, value),
    }
}

#[tactic(auto, unfolding(crate::specs::States::calcout_kept))]
fn set_calcout(body: &mut Calcout, field: OwnField, value: Value)
    ensures { body.new ≡ calcout_kept body.old field value }
{
    match field {
        OwnField::Oval => body.output_value = double_in(value).unwrap_or(body.output_value),
        OwnField::Pval => body.previous = double_in(value).unwrap_or(body.previous),
        _ => set_calc(&mut body.calc, field, value),
    }
}

#[tactic(auto, unfolding(crate::specs::States::sel_kept))]
fn set_sel(body: &mut Sel, field: OwnField, value: Value)
    ensures { body.new ≡ sel_kept body.old field value }
{
    match field {
        OwnField::Val => body.analog.value = double_in(value).unwrap_or(body.analog.value),
        OwnField::LastLetter(_) => body.inputs.set_sent(field, value),
        _ => set_analog(&mut body.analog, field, value),
    }
}

#[tactic(auto, unfolding(crate::specs::States::alarmed_kept))]
fn set_alarmed(body: &mut Body, field: OwnField, value: Value)
    ensures { body.new ≡ alarmed_kept body.old field value }
{
    match field {
        OwnField::Lalm => set_last_alarmed(body, value),
        _ => {}
    }
}

/// Sets a field that no put changes. A value of another kind, a type without this field, and a field
/// that puts change, changes nothing.
#[tactic(auto, unfolding(crate::specs::States::body_kept))]
pub(crate) fn set_kept(body: &mut Body, field: OwnField, value: Value)
    ensures { body.new ≡ body_kept body.old field value }
{
    match body {
        Body::Ai(kept) => set_ai(kept.get_mut(), field, value),
        Body::Ao(kept) => set_ao(kept.get_mut(), field, value),
        Body::Calc(kept) => set_calc(kept.get_mut(), field, value),
        Body::Calcout(kept) => set_calcout(kept.get_mut(), field, value),
        Body::Sel(kept) => set_sel(kept.get_mut(), field, value),
        other => set_alarmed(other, field, value),
    }
}
