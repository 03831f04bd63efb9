//! The link fields of the types.
ghost use Rattle.std.specs.Prelude.{◌≡◌};
ghost use Rattle.ioc_fields.specs.LinkFields.{link_fields};

use crate::field_list::field_array;
use crate::field_no::{CommonField, FieldNo, FieldSlot, OwnField};
use crate::record_type::RecordType;

static INPUT_LINKS: [FieldNo; 3] = field_array![common: Sdis Flnk; own: Inp; slots:];

static OUTPUT_LINKS: [FieldNo; 4] = field_array![common: Sdis Flnk; own: Out Dol; slots:];

static FANOUT_LINKS: [FieldNo; 19] = field_array![common: Sdis Flnk; own: Sell; slots: Lnk];

/// Writes the link fields of a type with twelve inputs.
macro_rules! with_inputs {
    ($($own:ident)*) => {
        [
            FieldNo::Common(CommonField::Sdis),
            FieldNo::Common(CommonField::Flnk),
            $(FieldNo::Own(OwnField::$own),)*
            FieldNo::Own(OwnField::InputLink(FieldSlot::N0)),
            FieldNo::Own(OwnField::InputLink(FieldSlot::N1)),
            FieldNo::Own(OwnField::InputLink(FieldSlot::N2)),
            FieldNo::Own(OwnField::InputLink(FieldSlot::N3)),
            FieldNo::Own(OwnField::InputLink(FieldSlot::N4)),
            FieldNo::Own(OwnField::InputLink(FieldSlot::N5)),
            FieldNo::Own(OwnField::InputLink(FieldSlot::N6)),
            FieldNo::Own(OwnField::InputLink(FieldSlot::N7)),
            FieldNo::Own(OwnField::InputLink(FieldSlot::N8)),
            FieldNo::Own(OwnField::InputLink(FieldSlot::N9)),
            FieldNo::Own(OwnField::InputLink(FieldSlot::N10)),
            FieldNo::Own(OwnField::InputLink(FieldSlot::N11)),
        ]
    };
}

static CALC_LINKS: [FieldNo; 14] = with_inputs![];

static CALCOUT_LINKS: [FieldNo; 15] = with_inputs![Out];

static SEL_LINKS: [FieldNo; 15] = with_inputs![Nvl];

/// Returns the link fields of the type, each once.
#[tactic(auto, unfolding(crate::specs::LinkFields::link_fields))]
pub fn link_fields(record_type: RecordType) -> &'static [FieldNo]
    ensures { result.now ≡ link_fields record_type }
{
    match record_type {
        RecordType::Longin
        | RecordType::Int64in
        | RecordType::Bi
        | RecordType::Mbbi
        | RecordType::Stringin
        | RecordType::Event
        | RecordType::Ai => &INPUT_LINKS,
        RecordType::Longout
        | RecordType::Int64out
        | RecordType::Bo
        | RecordType::Mbbo
        | RecordType::Stringout
        | RecordType::Ao => &OUTPUT_LINKS,
        RecordType::Fanout => &FANOUT_LINKS,
        RecordType::Calc => &CALC_LINKS,
        RecordType::Calcout => &CALCOUT_LINKS,
        RecordType::Sel => &SEL_LINKS,
    }
}
