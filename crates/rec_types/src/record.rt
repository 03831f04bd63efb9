//! The enum of record types.
ghost use Rattle.std.specs.Prelude.{◌≡◌, IfOk};

use crate::on_heap;
use ioc_dbcommon::{
    BodyBox, Calculation, Condition, Fresh, Got, InputKind, LinkBox, LinkUse, Need, Output,
};
use ioc_fields::{OwnField, RecordType};
use ioc_record::RecordBody;
use ioc_values::{Range, Text, Value};
use rec_analog::{Ai, Ao};
use rec_calc::{Calc, Calcout};
use rec_flow::{EventBody, Fanout};
use rec_numeric::{Int64in, Int64out, Longin, Longout};
use rec_sel::Sel;
use rec_state::{Bi, Bo, Mbbi, Mbbo};
use rec_text::{Stringin, Stringout};
use std::alloc::{AllocError, Global};

/// The type-specific fields of a record of any type. The larger ones are on the heap, so that the
/// others take less memory.
#[derive(Drop)]
pub enum Body {
    Longin(Longin),
    Longout(BodyBox<Longout>),
    Int64in(BodyBox<Int64in>),
    Int64out(BodyBox<Int64out>),
    Bi(BodyBox<Bi>),
    Bo(BodyBox<Bo>),
    Mbbi(BodyBox<Mbbi>),
    Mbbo(BodyBox<Mbbo>),
    Stringin(Stringin),
    Stringout(BodyBox<Stringout>),
    Fanout(BodyBox<Fanout>),
    Event(EventBody),
    Ai(BodyBox<Ai>),
    Ao(BodyBox<Ao>),
    Calc(BodyBox<Calc>),
    Calcout(BodyBox<Calcout>),
    Sel(BodyBox<Sel>),
}

/// A record of any type.
pub type Record = ioc_record::Record<Body>;

// Calls a query on a body on the heap.
macro_rules! in_box {
    ($kept:ident, $body:ident => $call:expr) => {{
        let $body = $kept.get();
        $call
    }};
}

// Calls a query on a body, by its type.
macro_rules! ask {
    ($on:expr, $body:ident => $call:expr) => {
        match $on {
            Body::Longin($body) => $call,
            Body::Longout(kept) => in_box!(kept, $body => $call),
            Body::Int64in(kept) => in_box!(kept, $body => $call),
            Body::Int64out(kept) => in_box!(kept, $body => $call),
            Body::Bi(kept) => in_box!(kept, $body => $call),
            Body::Bo(kept) => in_box!(kept, $body => $call),
            Body::Mbbi(kept) => in_box!(kept, $body => $call),
            Body::Mbbo(kept) => in_box!(kept, $body => $call),
            Body::Stringin($body) => $call,
            Body::Stringout(kept) => in_box!(kept, $body => $call),
            Body::Fanout(kept) => in_box!(kept, $body => $call),
            Body::Event($body) => $call,
            Body::Ai(kept) => in_box!(kept, $body => $call),
            Body::Ao(kept) => in_box!(kept, $body => $call),
            Body::Calc(kept) => in_box!(kept, $body => $call),
            Body::Calcout(kept) => in_box!(kept, $body => $call),
            Body::Sel(kept) => in_box!(kept, $body => $call),
        }
    };
}

// Calls an operation on a body, by its type: one for a body in the record itself, and one for a
// body on the heap.
macro_rules! work {
    ($on:expr, $body:ident => $here:expr, $on_heap:expr) => {
        match $on {
            Body::Longin($body) => $here,
            Body::Longout($body) => $on_heap,
            Body::Int64in($body) => $on_heap,
            Body::Int64out($body) => $on_heap,
            Body::Bi($body) => $on_heap,
            Body::Bo($body) => $on_heap,
            Body::Mbbi($body) => $on_heap,
            Body::Mbbo($body) => $on_heap,
            Body::Stringin($body) => $here,
            Body::Stringout($body) => $on_heap,
            Body::Fanout($body) => $on_heap,
            Body::Event($body) => $here,
            Body::Ai($body) => $on_heap,
            Body::Ao($body) => $on_heap,
            Body::Calc($body) => $on_heap,
            Body::Calcout($body) => $on_heap,
            Body::Sel($body) => $on_heap,
        }
    };
}

// Calls an operation with the fields of another body, if it is of this type.
macro_rules! where_same {
    ($other:ident, $type:ident => $call:expr) => {
        if let Body::$type($other) = $other {
            $call;
        }
    };
}

// Copies the body to a new place on the heap.
fn copy_kept<B: RecordBody + Drop>(
    alloc: Global,
    kept: &BodyBox<B>,
) -> Result<BodyBox<B>, AllocError>
    ensures { IfOk result (λ copy. copy ≡ kept.now) }
{
    let body = kept.get().copy(alloc)?;
    BodyBox::new(alloc, body)
}

impl Body {
    ghost use Rattle.rec_types.specs.Record.{new_body};

    /// Creates the type-specific fields of a new record of this type.
    pub fn new(alloc: Global, record_type: RecordType) -> Result<Self, AllocError>
        ensures { IfOk result (λ b. b ≡ new_body record_type) }
    {
        Ok(match record_type {
            RecordType::Longin => Body::Longin(Longin::fresh()),
            RecordType::Longout => Body::Longout(BodyBox::<Longout>::fresh(alloc)?),
            RecordType::Int64in => Body::Int64in(BodyBox::<Int64in>::fresh(alloc)?),
            RecordType::Int64out => Body::Int64out(BodyBox::<Int64out>::fresh(alloc)?),
            RecordType::Bi => Body::Bi(BodyBox::<Bi>::fresh(alloc)?),
            RecordType::Bo => Body::Bo(BodyBox::<Bo>::fresh(alloc)?),
            RecordType::Mbbi => Body::Mbbi(BodyBox::<Mbbi>::fresh(alloc)?),
            RecordType::Mbbo => Body::Mbbo(BodyBox::<Mbbo>::fresh(alloc)?),
            RecordType::Stringin => Body::Stringin(Stringin::fresh()),
            RecordType::Stringout => Body::Stringout(BodyBox::<Stringout>::fresh(alloc)?),
            RecordType::Fanout => Body::Fanout(BodyBox::<Fanout>::fresh(alloc)?),
            RecordType::Event => Body::Event(EventBody::fresh()),
            RecordType::Ai => Body::Ai(BodyBox::<Ai>::fresh(alloc)?),
            RecordType::Ao => Body::Ao(BodyBox::<Ao>::fresh(alloc)?),
            RecordType::Calc => Body::Calc(BodyBox::<Calc>::fresh(alloc)?),
            RecordType::Calcout => Body::Calcout(BodyBox::<Calcout>::fresh(alloc)?),
            RecordType::Sel => Body::Sel(BodyBox::<Sel>::fresh(alloc)?),
        })
    }
}

impl RecordBody for Body {
    ghost use Rattle.rec_types.specs.Record.{body_rules};
    ghost use Rattle.rec_types.specs.RecordLaws.{body_lawful};

    ghost rules = { body_rules };

    ghost lawful = { body_lawful };

    fn record_type(&self) -> RecordType {
        ask!(self, body => body.record_type())
    }

    fn link(&self, field: OwnField) -> Option<&LinkBox> {
        ask!(self, body => body.link(field))
    }

    fn set_link(&mut self, field: OwnField, link: LinkBox) {
        work!(self, body => body.set_link(field, link), on_heap::set_link(body, field, link))
    }

    fn calculation(&self, field: OwnField) -> Option<&Calculation> {
        ask!(self, body => body.calculation(field))
    }

    fn set_calculation(&mut self, field: OwnField, calculation: Calculation) {
        work!(
            self,
            body => body.set_calculation(field, calculation),
            on_heap::set_calculation(body, field, calculation)
        )
    }

    fn states(&self) -> &[Text] {
        ask!(self, body => body.states())
    }

    fn get(&self, field: OwnField) -> Option<Value> {
        ask!(self, body => body.get(field))
    }

    fn number(&self, field: OwnField) -> Option<i64> {
        ask!(self, body => body.number(field))
    }

    fn store(&mut self, condition: &mut Condition, field: OwnField, value: Value) {
        work!(self, body => body.store(condition, field, value), on_heap::store(body, condition, field, value))
    }

    fn store_number(
        &mut self,
        condition: &mut Condition,
        field: OwnField,
        range: Range,
        number: i64,
    ) -> bool {
        work!(
            self,
            body => body.store_number(condition, field, range, number),
            on_heap::store_number(body, condition, field, range, number)
        )
    }

    fn begin(&self) -> Need {
        ask!(self, body => body.begin())
    }

    fn wanted_link(&self) -> LinkUse {
        ask!(self, body => body.wanted_link())
    }

    fn inputs(&self, got: &Got) -> u16 {
        ask!(self, body => body.inputs(got))
    }

    fn input_kind(&self, condition: &Condition) -> InputKind {
        ask!(self, body => body.input_kind(condition))
    }

    fn take(&mut self, condition: &mut Condition, got: &Got, output: &mut Output) -> bool {
        work!(self, body => body.take(condition, got, output), on_heap::take(body, condition, got, output))
    }

    fn post(&mut self, alarm_changed: bool) {
        work!(self, body => body.post(alarm_changed), on_heap::post(body, alarm_changed))
    }

    fn constant_kind(&self, condition: &Condition, field: OwnField) -> Option<InputKind> {
        ask!(self, body => body.constant_kind(condition, field))
    }

    fn load(&mut self, condition: &mut Condition) {
        work!(self, body => body.load(condition), on_heap::load(body, condition))
    }

    fn copy(&self, alloc: Global) -> Result<Self, AllocError> {
        Ok(match self {
            Body::Longin(body) => Body::Longin(body.copy(alloc)?),
            Body::Longout(kept) => Body::Longout(copy_kept(alloc, kept)?),
            Body::Int64in(kept) => Body::Int64in(copy_kept(alloc, kept)?),
            Body::Int64out(kept) => Body::Int64out(copy_kept(alloc, kept)?),
            Body::Bi(kept) => Body::Bi(copy_kept(alloc, kept)?),
            Body::Bo(kept) => Body::Bo(copy_kept(alloc, kept)?),
            Body::Mbbi(kept) => Body::Mbbi(copy_kept(alloc, kept)?),
            Body::Mbbo(kept) => Body::Mbbo(copy_kept(alloc, kept)?),
            Body::Stringin(body) => Body::Stringin(body.copy(alloc)?),
            Body::Stringout(kept) => Body::Stringout(copy_kept(alloc, kept)?),
            Body::Fanout(kept) => Body::Fanout(copy_kept(alloc, kept)?),
            Body::Event(body) => Body::Event(body.copy(alloc)?),
            Body::Ai(kept) => Body::Ai(copy_kept(alloc, kept)?),
            Body::Ao(kept) => Body::Ao(copy_kept(alloc, kept)?),
            Body::Calc(kept) => Body::Calc(copy_kept(alloc, kept)?),
            Body::Calcout(kept) => Body::Calcout(copy_kept(alloc, kept)?),
            Body::Sel(kept) => Body::Sel(copy_kept(alloc, kept)?),
        })
    }

    fn copy_from(&mut self, other: &Self) {
        match self {
            Body::Longin(body) => where_same!(other, Longin => body.copy_from(other)),
            Body::Longout(kept) => where_same!(other, Longout => on_heap::copy_from(kept, other)),
            Body::Int64in(kept) => where_same!(other, Int64in => on_heap::copy_from(kept, other)),
            Body::Int64out(kept) => where_same!(other, Int64out => on_heap::copy_from(kept, other)),
            Body::Bi(kept) => where_same!(other, Bi => on_heap::copy_from(kept, other)),
            Body::Bo(kept) => where_same!(other, Bo => on_heap::copy_from(kept, other)),
            Body::Mbbi(kept) => where_same!(other, Mbbi => on_heap::copy_from(kept, other)),
            Body::Mbbo(kept) => where_same!(other, Mbbo => on_heap::copy_from(kept, other)),
            Body::Stringin(body) => where_same!(other, Stringin => body.copy_from(other)),
            Body::Stringout(kept) =>
                where_same!(other, Stringout => on_heap::copy_from(kept, other)),
            Body::Fanout(kept) => where_same!(other, Fanout => on_heap::copy_from(kept, other)),
            Body::Event(body) => where_same!(other, Event => body.copy_from(other)),
            Body::Ai(kept) => where_same!(other, Ai => on_heap::copy_from(kept, other)),
            Body::Ao(kept) => where_same!(other, Ao => on_heap::copy_from(kept, other)),
            Body::Calc(kept) => where_same!(other, Calc => on_heap::copy_from(kept, other)),
            Body::Calcout(kept) => where_same!(other, Calcout => on_heap::copy_from(kept, other)),
            Body::Sel(kept) => where_same!(other, Sel => on_heap::copy_from(kept, other)),
        }
    }
}
