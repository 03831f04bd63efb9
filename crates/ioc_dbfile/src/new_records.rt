//! New records.
ghost use Rattle.std.specs.Prelude.{◌≡◌, ◌++◌, ◌∷◌, [], OnOk, OnErr, IfOk, List, ℕ};
ghost use Rattle.ioc_fields.specs.declared.record_type.RecordType.{RecordType};

use ioc_fields::RecordType;
use ioc_values::Name;
use rec_types::{Body, Record};
use std::alloc::{AllocError, Global};

/// Records that are created from a type and a name.
pub trait NewRecord: Drop {
    ghost created: { RecordType → List ℕ → Self };

    /// Creates a record of this type and name, with no field set.
    fn create(alloc: Global, record_type: RecordType, name: Name) -> Result<Self, AllocError>
        ensures { IfOk result (λ r. r ≡ created record_type name) };
}

impl NewRecord for Record {
    ghost use Rattle.rec_types.specs.Record.{new_record};

    ghost created = { new_record };

    fn create(alloc: Global, record_type: RecordType, name: Name) -> Result<Record, AllocError> {
        let body = Body::new(alloc, record_type)?;
        Ok(Record::new(name, body))
    }
}

/// Appends a record of this type and name, with no field set.
pub fn push_new<R: NewRecord>(
    alloc: Global,
    records: &mut Vec<R>,
    record_type: RecordType,
    name: Name,
) -> Result<(), AllocError>
    ensures ok { OnOk result (records.new.items ≡ records.old.items ++ R.created record_type name ∷ []) }
    ensures err { OnErr result (records.new.items ≡ records.old.items) }
{
    // Room is reserved first, because a push that can fail returns the record, which is large.
    records.reserve(1)?;
    let record = R::create(alloc, record_type, name)?;
    records.push_reserved(record);
    Ok(())
}
