//! The type stringin.
ghost use Rattle.rec_text.specs.Stringin.{kept};
ghost use Rattle.rec_text.specs.StringinLaws.{kept_lawful};

use crate::text_body::{TextBody, TextKind};
use crate::text_input::TextInput;
use ioc_dbcommon::{Condition, Got, Output};
use ioc_fields::RecordType;

/// The type-specific fields of a stringin. Record Reference Manual, "String Input Record".
pub type Stringin = TextBody<Kept>;

/// A text that is kept in VAL.
#[derive(Clone, Copy, Drop)]
pub struct Kept;

impl TextKind for Kept {
    ghost text = { kept };

    ghost lawful = { kept_lawful };

    fn kind() -> Self {
        Kept
    }

    fn record_type() -> RecordType {
        RecordType::Stringin
    }

    #[tactic(auto, unfolding(crate::specs::Stringin::stringin_taken))]
    fn take(
        input: &mut TextInput,
        condition: &mut Condition,
        got: &Got,
        _output: &mut Output,
    ) -> bool {
        input.come(condition, got);
        condition.test_undefined();
        false
    }
}
