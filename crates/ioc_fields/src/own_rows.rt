//! The rows of the type-specific fields, by the groups of types that share them.
ghost use Rattle.std.specs.Prelude.{◌≡◌};
ghost use Rattle.ioc_fields.specs.Table.{numeric_row, input_row, output_row_with, numeric_output_row, state_row, two_state_row};
ghost use Rattle.ioc_fields.specs.Table.{multi_state_row, text_row, fanout_row, analog_row, scale_row, ai_row, ao_row};
ghost use Rattle.ioc_fields.specs.Table.{input_slot_row, inputs_row, calc_row, calcout_row, sel_row, own_row};

use crate::field_kind::{FieldKind, LinkRole};
use crate::field_no::{FieldSlot, OwnField};
use crate::record_type::RecordType;
use crate::row::Row;
use ioc_menus::Menu;
use ioc_values::Range;

// Returns the row of a numeric field that longin, longout, int64in and int64out share.
#[tactic(auto, unfolding(crate::specs::Table::numeric_row))]
fn numeric_row(range: Range, field: OwnField) -> Option<Row>
    ensures { result ≡ numeric_row range field }
{
    Some(match field {
        OwnField::Val | OwnField::Hihi | OwnField::Lolo | OwnField::High | OwnField::Low => {
            Row::passive(FieldKind::Number(range))
        }
        OwnField::Hhsv | OwnField::Llsv | OwnField::Hsv | OwnField::Lsv => {
            Row::passive(FieldKind::Menu(Menu::Severity))
        }
        OwnField::Hyst => Row::plain(FieldKind::Number(range)),
        OwnField::Lalm => Row::fixed(FieldKind::Number(range)),
        OwnField::Adel | OwnField::Mdel | OwnField::Hopr | OwnField::Lopr => {
            Row::kept(FieldKind::Number(range))
        }
        OwnField::Egu => Row::kept(FieldKind::Text),
        _ => return None,
    })
}

// Returns the row of the field that the input types share: where they read.
fn input_row(field: OwnField) -> Option<Row>
    ensures { result ≡ input_row field }
{
    match field {
        OwnField::Inp => Some(Row::link(LinkRole::Input)),
        _ => None,
    }
}

// Returns the row of a field that the output types share: where they write, and when, and in IVOV,
// which holds this kind, what they write if the alarm is INVALID.
#[tactic(auto, unfolding(crate::specs::Table::output_row))]
fn output_row_with(kind: FieldKind, field: OwnField) -> Option<Row>
    ensures { result ≡ output_row_with kind field }
{
    Some(match field {
        OwnField::Out => Row::link(LinkRole::Output),
        OwnField::Dol => Row::link(LinkRole::InputWithoutDevice),
        OwnField::Omsl => Row::plain(FieldKind::Menu(Menu::Omsl)),
        OwnField::Ivoa => Row::plain(FieldKind::Menu(Menu::Ivoa)),
        OwnField::Ivov => Row::passive(kind),
        _ => return None,
    })
}

// Returns the row of a type-specific field of longout or int64out.
#[tactic(auto, unfolding(crate::specs::Table::numeric_output_row))]
fn numeric_output_row(range: Range, field: OwnField) -> Option<Row>
    ensures { result ≡ numeric_output_row range field }
{
    let kind = FieldKind::Number(range);
    match field {
        OwnField::Drvh | OwnField::Drvl => Some(Row::passive(kind)),
        _ => output_row_with(kind, field).or_else(|| numeric_row(range, field)),
    }
}

// Returns the row of a field that bi, bo, mbbi and mbbo share.
fn state_row(field: OwnField) -> Option<Row>
    ensures { result ≡ state_row field }
{
    Some(match field {
        OwnField::Val => Row::passive(FieldKind::State),
        OwnField::Rval => Row::plain(FieldKind::Number(Range::ULong)),
        OwnField::Mask => Row::given(FieldKind::Number(Range::ULong)),
        OwnField::Cosv => Row::passive(FieldKind::Menu(Menu::Severity)),
        OwnField::Lalm => Row::fixed(FieldKind::Number(Range::UShort)),
        _ => return None,
    })
}

// Returns the row of a field that bi and bo share.
#[tactic(auto, unfolding(crate::specs::Table::two_state_row))]
fn two_state_row(field: OwnField) -> Option<Row>
    ensures { result ≡ two_state_row field }
{
    match field {
        OwnField::Znam | OwnField::Onam => Some(Row::passive(FieldKind::Text)),
        OwnField::Zsv | OwnField::Osv => Some(Row::passive(FieldKind::Menu(Menu::Severity))),
        _ => state_row(field),
    }
}

// Returns the row of a field that mbbi and mbbo share.
#[tactic(auto, unfolding(crate::specs::Table::multi_state_row))]
fn multi_state_row(field: OwnField) -> Option<Row>
    ensures { result ≡ multi_state_row field }
{
    Some(match field {
        OwnField::Shft | OwnField::Nobt => Row::plain(FieldKind::Number(Range::Bits)),
        OwnField::StateValue(_) => Row::passive(FieldKind::Number(Range::ULong)),
        OwnField::StateText(_) => Row::passive(FieldKind::Text),
        OwnField::StateSeverity(_) | OwnField::Unsv => {
            Row::passive(FieldKind::Menu(Menu::Severity))
        }
        _ => return state_row(field),
    })
}

// Returns the row of the field that stringin, stringout and event share.
#[tactic(auto, unfolding(crate::specs::Table::text_row))]
fn text_row(field: OwnField) -> Option<Row>
    ensures { result ≡ text_row field }
{
    match field {
        OwnField::Val => Some(Row::passive(FieldKind::Text)),
        _ => None,
    }
}

// Returns the row of a type-specific field of fanout.
#[tactic(auto, unfolding(crate::specs::Table::fanout_row))]
fn fanout_row(field: OwnField) -> Option<Row>
    ensures { result ≡ fanout_row field }
{
    Some(match field {
        OwnField::Val => Row::passive(FieldKind::Number(Range::Long)),
        OwnField::Selm => Row::plain(FieldKind::Menu(Menu::Selm)),
        OwnField::Seln => Row::plain(FieldKind::Number(Range::UShort)),
        OwnField::Sell => Row::link(LinkRole::InputWithoutDevice),
        OwnField::Offs | OwnField::Shft => Row::plain(FieldKind::Number(Range::Short)),
        OwnField::Lnk(_) => Row::link(LinkRole::Forward),
        _ => return None,
    })
}

// Returns the row of a field that the analog types share: the value, its limits and deadbands, and how
// it is shown.
#[tactic(auto, unfolding(crate::specs::Table::analog_row))]
fn analog_row(field: OwnField) -> Option<Row>
    ensures { result ≡ analog_row field }
{
    Some(match field {
        OwnField::Hihi | OwnField::Lolo | OwnField::High | OwnField::Low | OwnField::Val => {
            Row::passive(FieldKind::Double)
        }
        OwnField::Hhsv | OwnField::Llsv | OwnField::Hsv | OwnField::Lsv => {
            Row::passive(FieldKind::Menu(Menu::Severity))
        }
        OwnField::Hyst | OwnField::Mdel | OwnField::Adel => Row::plain(FieldKind::Double),
        OwnField::Lalm | OwnField::Mlst | OwnField::Alst => Row::fixed(FieldKind::Double),
        OwnField::Prec => Row::plain(FieldKind::Number(Range::Digits)),
        OwnField::Hopr | OwnField::Lopr => Row::kept(FieldKind::Double),
        OwnField::Egu => Row::kept(FieldKind::Text),
        _ => return None,
    })
}

// Returns the row of a field of ai and ao, with those that convert between the raw value and the
// value.
#[tactic(auto, unfolding(crate::specs::Table::scale_row))]
fn scale_row(field: OwnField) -> Option<Row>
    ensures { result ≡ scale_row field }
{
    Some(match field {
        OwnField::Linr => Row::passive(FieldKind::Menu(Menu::Linr)),
        OwnField::Eguf | OwnField::Egul => Row::kept(FieldKind::Double),
        OwnField::Eslo | OwnField::Eoff | OwnField::Aslo | OwnField::Aoff => {
            Row::passive(FieldKind::Double)
        }
        OwnField::Roff => Row::passive(FieldKind::Number(Range::ULong)),
        OwnField::Rval => Row::plain(FieldKind::Number(Range::Long)),
        _ => return analog_row(field),
    })
}

// Returns the row of a type-specific field of ai.
#[tactic(auto, unfolding(crate::specs::Table::ai_row))]
fn ai_row(field: OwnField) -> Option<Row>
    ensures { result ≡ ai_row field }
{
    match field {
        OwnField::Inp => input_row(field),
        OwnField::Smoo => Some(Row::plain(FieldKind::Double)),
        OwnField::Init => Some(Row::fixed(FieldKind::Number(Range::UChar))),
        _ => scale_row(field),
    }
}

// Returns the row of a type-specific field of ao.
#[tactic(auto, unfolding(crate::specs::Table::ao_row))]
fn ao_row(field: OwnField) -> Option<Row>
    ensures { result ≡ ao_row field }
{
    match field {
        OwnField::Oif => Some(Row::plain(FieldKind::Menu(Menu::Oif))),
        OwnField::Oroc => Some(Row::plain(FieldKind::Double)),
        OwnField::Drvh | OwnField::Drvl => Some(Row::passive(FieldKind::Double)),
        OwnField::Oval | OwnField::Pval => Some(Row::fixed(FieldKind::Double)),
        _ => output_row_with(FieldKind::Double, field).or_else(|| scale_row(field)),
    }
}

// Returns the row of a field of one of the first twelve slots: there are twelve inputs.
#[tactic(auto, unfolding(crate::specs::Table::input_slot_row))]
fn input_slot_row(slot: FieldSlot, row: Row) -> Option<Row>
    ensures { result ≡ input_slot_row slot row }
{
    if slot.index() < 12 { Some(row) } else { None }
}

// Returns the row of a field that calc, calcout and sel share: the inputs with their values, and the
// fields of VAL, which isn't one of them.
#[tactic(auto, unfolding(crate::specs::Table::inputs_row))]
fn inputs_row(field: OwnField) -> Option<Row>
    ensures { result ≡ inputs_row field }
{
    match field {
        OwnField::InputLink(slot) => {
            input_slot_row(slot, Row::link(LinkRole::InputWithoutDevice))
        }
        OwnField::Letter(slot) => input_slot_row(slot, Row::passive(FieldKind::Double)),
        OwnField::LastLetter(slot) => input_slot_row(slot, Row::fixed(FieldKind::Double)),
        _ => analog_row(field),
    }
}

// Returns the row of a type-specific field of calc.
#[tactic(auto, unfolding(crate::specs::Table::calc_row))]
fn calc_row(field: OwnField) -> Option<Row>
    ensures { result ≡ calc_row field }
{
    match field {
        OwnField::Val => Some(Row::plain(FieldKind::Double)),
        OwnField::Calc => Some(Row::given(FieldKind::Expression)),
        _ => inputs_row(field),
    }
}

// Returns the row of a type-specific field of calcout.
#[tactic(auto, unfolding(crate::specs::Table::calcout_row))]
fn calcout_row(field: OwnField) -> Option<Row>
    ensures { result ≡ calcout_row field }
{
    Some(match field {
        OwnField::Out => Row::link(LinkRole::Output),
        OwnField::Oopt => Row::plain(FieldKind::Menu(Menu::Oopt)),
        OwnField::Dopt => Row::plain(FieldKind::Menu(Menu::Dopt)),
        OwnField::Ocal => Row::given(FieldKind::Expression),
        OwnField::Oval | OwnField::Pval => Row::fixed(FieldKind::Double),
        OwnField::Ivoa => Row::plain(FieldKind::Menu(Menu::Ivoa)),
        OwnField::Ivov => Row::passive(FieldKind::Double),
        _ => return calc_row(field),
    })
}

// Returns the row of a type-specific field of sel.
#[tactic(auto, unfolding(crate::specs::Table::sel_row))]
fn sel_row(field: OwnField) -> Option<Row>
    ensures { result ≡ sel_row field }
{
    Some(match field {
        OwnField::Val => Row::fixed(FieldKind::Double),
        OwnField::Selm => Row::plain(FieldKind::Menu(Menu::Selmode)),
        OwnField::Seln => Row::plain(FieldKind::Number(Range::UShort)),
        OwnField::Nvl => Row::link(LinkRole::InputWithoutDevice),
        _ => return inputs_row(field),
    })
}

// Returns the row of a type-specific field, if the type has it.
#[inline(always)]
#[tactic(auto, unfolding(crate::specs::Table::own_row, crate::specs::Table::numeric_input_row, crate::specs::Table::bi_row, crate::specs::Table::bo_row, crate::specs::Table::mbbi_row, crate::specs::Table::mbbo_row, crate::specs::Table::text_input_row, crate::specs::Table::stringout_row))]
pub fn own_row(record_type: RecordType, field: OwnField) -> Option<Row>
    ensures { result ≡ own_row record_type field }
{
    let state = FieldKind::Number(Range::UShort);
    match record_type {
        RecordType::Longin => input_row(field).or_else(|| numeric_row(Range::Long, field)),
        RecordType::Longout => numeric_output_row(Range::Long, field),
        RecordType::Int64in => input_row(field).or_else(|| numeric_row(Range::Int64, field)),
        RecordType::Int64out => numeric_output_row(Range::Int64, field),
        RecordType::Bi => input_row(field).or_else(|| two_state_row(field)),
        RecordType::Bo => output_row_with(state, field).or_else(|| two_state_row(field)),
        RecordType::Mbbi => input_row(field).or_else(|| multi_state_row(field)),
        RecordType::Mbbo => output_row_with(state, field).or_else(|| multi_state_row(field)),
        RecordType::Stringin | RecordType::Event => input_row(field).or_else(|| text_row(field)),
        RecordType::Stringout => output_row_with(FieldKind::Text, field).or_else(|| text_row(
            field,
        )),
        RecordType::Fanout => fanout_row(field),
        RecordType::Ai => ai_row(field),
        RecordType::Ao => ao_row(field),
        RecordType::Calc => calc_row(field),
        RecordType::Calcout => calcout_row(field),
        RecordType::Sel => sel_row(field),
    }
}
