//! Looks at records, which are no calls.
ghost use Rattle.std.specs.Prelude.{◌≡◌, ◌⊎◌, [], map, Ok, Err, Any, Contains, IfOk, IfErr, OnOk};
ghost use Rattle.ioc_journal.specs.Account.{HasSeenMore};
ghost use Rattle.ioc_set.specs.SetState.{now_of};
ghost use Rattle.ioc_journaled_set.specs.Holding.{numbers_of};
ghost use Rattle.ioc_values.specs.declared.error.IocError.TheVariants.{NoMemory};
ghost use Rattle.ioc_engine_core.specs.Looked.{field_seen, LookIsRefused, WasLooked};

use crate::desk::Desk;
use crate::engine::EngineCore;
use ioc_device::Device;
use ioc_fields::FieldNo;
use ioc_journaled_set::{JournaledSet, SetsName};
use ioc_names::RecordNo;
use ioc_record::{FieldText, RecordKind};
use ioc_topology::Locked;
use ioc_values::{IocError, Value};
use std::sync::Wait;

/// What a look shows of a field: its text, and its value, which a link and an expression have not.
#[derive(Clone, Copy)]
pub struct FieldSeen {
    pub text: FieldText,
    pub value: Option<Value>,
}

// Returns what a set shows of a field of one of its records.
#[tactic(auto, unfolding(crate::specs::Looked::field_seen))]
fn seen_in<K: RecordKind + Drop, B: SetsName<K, D>, D: Device>(
    held: &JournaledSet<K, B, D>,
    number: RecordNo,
    field: FieldNo,
) -> Result<FieldSeen, IocError>
    requires { Contains (numbers_of held.now) number }
    ensures { result ≡ field_seen K.rules (now_of held.now.set) number field }
{
    let text = held.set.get(number, field)?;
    Ok(FieldSeen {
        text,
        value: held.set.record(number).get(field),
    })
}

// Adds what a set shows of fields of one of its records.
fn add_seen<K: RecordKind + Drop, B: SetsName<K, D>, D: Device>(
    held: &JournaledSet<K, B, D>,
    number: RecordNo,
    fields: &[FieldNo],
    shown: &mut Vec<FieldSeen>,
) -> Result<(), IocError>
    requires here { Contains (numbers_of held.now) number }
    requires none { shown.old.items ≡ [] }
    ensures shown { OnOk result (map Ok shown.new.items ≡ map (field_seen K.rules (now_of held.now.set) number) fields.now) }
    ensures refused { IfErr result (λ error. (error ≡ NoMemory)
        ⊎ Any (λ field. field_seen K.rules (now_of held.now.set) number field ≡ Err error) fields.now) }
{
    for field in fields {
        shown.push(seen_in(held, number, *field)?)?;
    }
    Ok(())
}

impl<K: RecordKind + Drop, B: SetsName<K, D>, D: Device> EngineCore<K, B, D> {
    /// Looks at fields of a record. Returns what they are at one moment, in their order. That isn't
    /// added to the journal. The desk has seen all calls before that moment then. If the record is
    /// watched, its mark is taken off at that moment.
    ///
    /// # Errors
    ///
    /// [`IocError::Stopped`] if the engine was closed. [`IocError::NoRecord`] if there is no record
    /// with this number. [`IocError::NoField`] if the record has no such field.
    /// [`IocError::NoMemory`] if allocation fails.
    pub fn look<R: Wait>(
        &self,
        rt: &R,
        desk: &mut Desk<K, B, D>,
        number: RecordNo,
        fields: &[FieldNo],
    ) -> Result<Vec<FieldSeen>, IocError>
        ensures looked { IfOk result (λ v. WasLooked D K.rules B.base number fields.now desk.old.account.seen v.items
            desk.new.account.seen) }
        ensures desk { HasSeenMore desk.old.account desk.new.account }
        ensures buffers { desk.new.buffers ≡ desk.old.buffers }
        ensures moved { desk.new.moved ≡ desk.old.moved }
        ensures refused { IfErr result (LookIsRefused D K.rules B.base self.now.count number fields.now) }
    {
        if self.is_closed() {
            return Err(IocError::Stopped);
        }
        let mut shown = Vec::with_capacity(desk.alloc, fields.len())?;
        let mut held = self.sets.lock_set(rt, number)?;
        held.learn(rt, &self.journal, &mut desk.account);
        held.is_sound();
        add_seen(&held, number, fields, &mut shown)?;
        held.take_mark(self.journal.cell(), number);
        Ok(shown)
    }
}
