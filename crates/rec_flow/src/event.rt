//! The type event.
ghost use Rattle.rec_flow.specs.Event.{posted};
ghost use Rattle.rec_flow.specs.EventLaws.{posted_lawful};

use ioc_dbcommon::{Condition, Got, Output};
use ioc_fields::{OwnField, RecordType};
use rec_text::{TextBody, TextInput, TextKind};

/// The type-specific fields of an event record. Record Reference Manual, "Event Record".
pub type EventBody = TextBody<Posted>;

/// A text that names the event that is posted.
#[derive(Clone, Copy, Drop)]
pub struct Posted;

impl TextKind for Posted {
    ghost text = { posted };

    ghost lawful = { posted_lawful };

    fn kind() -> Self {
        Posted
    }

    fn record_type() -> RecordType {
        RecordType::Event
    }

    #[tactic(auto, unfolding(crate::specs::Event::event_taken))]
    fn take(
        input: &mut TextInput,
        condition: &mut Condition,
        got: &Got,
        output: &mut Output,
    ) -> bool {
        match got {
            Got::Value(value) => input.store(condition, OwnField::Val, *value),
            Got::Nothing => condition.undefined = 0,
            Got::Fault => {}
        }
        *output = Output::PostEvent(input.value);
        true
    }
}
