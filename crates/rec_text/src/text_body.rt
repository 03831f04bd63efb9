//! The types that read a text: stringin and event.
ghost use Rattle.std.specs.Prelude.{◌≡◌, IsTrue};
ghost use Rattle.ioc_dbcommon.specs.Wants.{puts_out};
ghost use Rattle.ioc_record.specs.BodyLaws.{IsNewBody};
ghost use Rattle.rec_text.specs.TextBody.{TextRules, text_body, new_text_body};
ghost use Rattle.rec_text.specs.TextBodyLaws.{IsLawfulText};

use crate::text_input::TextInput;
use ioc_dbcommon::{Calculation, Condition, Fresh, Got, InputKind, LinkBox, LinkUse, Need, Output};
use ioc_fields::{OwnField, RecordType};
use ioc_record::RecordBody;
use ioc_values::{Text, Value};
use std::alloc::{AllocError, Global};

/// What tells a type that reads a text from the other such types.
pub trait TextKind: Copy {
    ghost text: { TextRules Self };

    /// Returns the value that stands for the type.
    fn kind() -> Self
        ensures { result ≡ text.kind };

    fn record_type() -> RecordType
        ensures { result ≡ text.record_type };

    /// Takes the input and raises the alarms. Returns whether there is any output. If there is
    /// none, the contents of `output` are meaningless.
    fn take(
        input: &mut TextInput,
        condition: &mut Condition,
        got: &Got,
        output: &mut Output,
    ) -> bool
        ensures after { record { body = input.new; condition = condition.new }
            ≡ text.taken (record { body = input.old; condition = condition.old }) got.now }
        ensures puts_out { result ≡ puts_out (text.output input.new) }
        ensures output { IsTrue result → output.new ≡ text.output input.new };

    ghost lawful: { IsLawfulText text };
}

/// The type-specific fields of a type that reads a text. Record Reference Manual, "String Input
/// Record" and "Event Record".
#[derive(Drop)]
pub struct TextBody<K> {
    /// VAL and INP.
    pub text: TextInput,
    /// The value that stands for the type.
    pub kind: K,
}

impl<K: TextKind> Fresh for TextBody<K> {
    ghost use Rattle.rec_text.specs.TextBody.{new_text_body};

    ghost new_one = { new_text_body K.text };

    /// Creates the fields of a new record, which are empty.
    #[tactic(auto, unfolding(crate::specs::TextBody::new_text_body))]
    fn fresh() -> Self
        ensures value { result ≡ new_text_body K.text }
        ensures defaults { IsNewBody (text_body K.text) result }
    {
        let text = TextInput::new();
        let kind = K::kind();
        TextBody { text, kind }
    }
}

impl<K: TextKind> RecordBody for TextBody<K> {
    ghost use Rattle.rec_text.specs.TextBodyLaws.{text_body_lawful};

    ghost rules = { text_body K.text };

    ghost lawful = { text_body_lawful K.text K.lawful };

    fn record_type(&self) -> RecordType {
        K::record_type()
    }

    fn link(&self, field: OwnField) -> Option<&LinkBox> {
        self.text.source.link(field)
    }

    fn set_link(&mut self, field: OwnField, link: LinkBox) {
        self.text.source.set_link(field, link);
    }

    fn calculation(&self, _field: OwnField) -> Option<&Calculation> {
        None
    }

    fn set_calculation(&mut self, _field: OwnField, _calculation: Calculation) {}

    fn states(&self) -> &[Text] {
        &[]
    }

    fn get(&self, field: OwnField) -> Option<Value> {
        self.text.get(field)
    }

    fn store(&mut self, condition: &mut Condition, field: OwnField, value: Value) {
        self.text.store(condition, field, value);
    }

    fn begin(&self) -> Need {
        self.text.source.begin()
    }

    fn wanted_link(&self) -> LinkUse {
        self.text.source.wanted_link()
    }

    fn inputs(&self, _got: &Got) -> u16 {
        0
    }

    fn input_kind(&self, _condition: &Condition) -> InputKind {
        InputKind::Text
    }

    #[inline(never)]
    fn take(&mut self, condition: &mut Condition, got: &Got, output: &mut Output) -> bool {
        K::take(&mut self.text, condition, got, output)
    }

    fn post(&mut self, _alarm_changed: bool) {}

    fn constant_kind(&self, _condition: &Condition, field: OwnField) -> Option<InputKind> {
        match field {
            OwnField::Inp => Some(InputKind::Text),
            _ => None,
        }
    }

    fn load(&mut self, condition: &mut Condition) {
        self.text.put_constant(condition);
    }

    fn copy(&self, alloc: Global) -> Result<Self, AllocError> {
        let text = self.text.copy(alloc)?;
        Ok(TextBody {
            text,
            kind: self.kind,
        })
    }

    fn copy_from(&mut self, other: &Self) {
        self.text.copy_from(&other.text);
        self.kind = other.kind;
    }
}
