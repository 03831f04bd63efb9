//! By what a watched field tells of a change.
ghost use Rattle.std.specs.Prelude.{◌≡◌};
ghost use Rattle.ioc_watches.specs.Rules.{fields_of, rule_of, rule_of_value};

use ioc_fields::{FieldNo, OwnField, RecordType};

/// By what a watched field decides whether a line tells of a change.
#[derive(Clone, Copy, PartialEq, Eq, Debug)]
pub enum Rule {
    /// VAL of longin, longout, int64in and int64out: the value has passed MDEL, or ADEL, since it was told
    /// last.
    Deadbands,
    /// VAL of ai and ao: MLST, or ALST, isn't what it was when the record was looked at last. Processing
    /// sets them to VAL when it passes MDEL or ADEL.
    LastPosted,
    /// Any other field: what is shown of it has changed.
    Shown,
}

static DEADBANDS: [FieldNo; 2] = [FieldNo::Own(OwnField::Mdel), FieldNo::Own(OwnField::Adel)];

static LAST_POSTED: [FieldNo; 2] = [FieldNo::Own(OwnField::Mlst), FieldNo::Own(OwnField::Alst)];

// Returns the rule of VAL of a record of this type.
fn rule_of_value(record_type: RecordType) -> Rule
    ensures { result ≡ rule_of_value record_type }
{
    match record_type {
        RecordType::Longin | RecordType::Longout | RecordType::Int64in | RecordType::Int64out =>
            Rule::Deadbands,
        RecordType::Ai
        | RecordType::Ao
        | RecordType::Calc
        | RecordType::Calcout
        | RecordType::Sel => Rule::LastPosted,
        _ => Rule::Shown,
    }
}

/// Returns the rule of a field of a record of this type.
pub fn rule_of(record_type: RecordType, field: FieldNo) -> Rule
    ensures { result ≡ rule_of record_type field }
{
    match field {
        FieldNo::Own(OwnField::Val) => rule_of_value(record_type),
        _ => Rule::Shown,
    }
}

impl Rule {
    /// Returns the fields that a look has to show beside the watched one: none or two.
    pub fn fields(self) -> &'static [FieldNo]
        ensures { result.now ≡ fields_of self }
    {
        match self {
            Rule::Deadbands => &DEADBANDS,
            Rule::LastPosted => &LAST_POSTED,
            Rule::Shown => &[],
        }
    }
}
