//! LALM of the types of whole numbers and states, which no put changes.
ghost use Rattle.std.specs.Prelude.{◌≡◌};
ghost use Rattle.ioc_journal_base.specs.States.{input_alarmed, output_alarmed, state_input_alarmed, state_output_alarmed, body_alarmed};

use ioc_dbcommon::{BodyBox, int64_in, long_in, ushort_in};
use ioc_values::Value;
use rec_numeric::{NumericInput, NumericOutput};
use rec_state::{StateInput, StateOutput};
use rec_types::Body;

fn set_input<N: Copy>(body: &mut NumericInput<N>, number: Option<N>)
    ensures { body.new ≡ input_alarmed body.old number }
{
    body.numbers.last_alarmed = number.unwrap_or(body.numbers.last_alarmed);
}

fn set_output<N: Copy>(body: &mut NumericOutput<N>, number: Option<N>)
    ensures { body.new ≡ output_alarmed body.old number }
{
    body.numbers.last_alarmed = number.unwrap_or(body.numbers.last_alarmed);
}

fn set_state_input<S>(body: &mut StateInput<S>, state: Option<u16>)
    ensures { body.new ≡ state_input_alarmed body.old state }
{
    body.fields.last_alarmed = state.unwrap_or(body.fields.last_alarmed);
}

fn set_state_output<S>(body: &mut StateOutput<S>, state: Option<u16>)
    ensures { body.new ≡ state_output_alarmed body.old state }
{
    body.fields.last_alarmed = state.unwrap_or(body.fields.last_alarmed);
}

/// Sets LALM of a type of whole numbers or states. A value of another kind, and another type, changes
/// nothing.
#[tactic(auto, unfolding(crate::specs::States::body_alarmed))]
pub(crate) fn set_last_alarmed(body: &mut Body, value: Value)
    ensures { body.new ≡ body_alarmed body.old value }
{
    match body {
        Body::Longin(body) => set_input(body, long_in(value)),
        Body::Longout(kept) => set_output(kept.get_mut(), long_in(value)),
        Body::Int64in(kept) => set_input(kept.get_mut(), int64_in(value)),
        Body::Int64out(kept) => set_output(kept.get_mut(), int64_in(value)),
        Body::Bi(kept) => set_state_input(kept.get_mut(), ushort_in(value)),
        Body::Bo(kept) => set_state_output(kept.get_mut(), ushort_in(value)),
        Body::Mbbi(kept) => set_state_input(kept.get_mut(), ushort_in(value)),
        Body::Mbbo(kept) => set_state_output(kept.get_mut(), ushort_in(value)),
        Body::Stringin(_)
        | Body::Stringout(_)
        | Body::Fanout(_)
        | Body::Event(_)
        | Body::Ai(_)
        | Body::Ao(_)
        | Body::Calc(_)
        | Body::Calcout(_)
        | Body::Sel(_) => {}
    }
}
