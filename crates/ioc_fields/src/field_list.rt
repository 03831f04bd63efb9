//! The list of all fields.
ghost use Rattle.std.specs.Prelude.{◌≡◌};
ghost use Rattle.ioc_fields.specs.Names.{all_fields};

use crate::field_no::{CommonField, FieldNo, FieldSlot, OwnField};

/// Writes an array of fields: some that every record has, some type-specific ones, and for each
/// group the sixteen of its slots.
macro_rules! field_array {
    (common: $($common:ident)*; own: $($own:ident)*; slots: $($group:ident)*) => {
        [
            $(FieldNo::Common(CommonField::$common),)*
            $(FieldNo::Own(OwnField::$own),)*
            $(
                FieldNo::Own(OwnField::$group(FieldSlot::N0)),
                FieldNo::Own(OwnField::$group(FieldSlot::N1)),
                FieldNo::Own(OwnField::$group(FieldSlot::N2)),
                FieldNo::Own(OwnField::$group(FieldSlot::N3)),
                FieldNo::Own(OwnField::$group(FieldSlot::N4)),
                FieldNo::Own(OwnField::$group(FieldSlot::N5)),
                FieldNo::Own(OwnField::$group(FieldSlot::N6)),
                FieldNo::Own(OwnField::$group(FieldSlot::N7)),
                FieldNo::Own(OwnField::$group(FieldSlot::N8)),
                FieldNo::Own(OwnField::$group(FieldSlot::N9)),
                FieldNo::Own(OwnField::$group(FieldSlot::N10)),
                FieldNo::Own(OwnField::$group(FieldSlot::N11)),
                FieldNo::Own(OwnField::$group(FieldSlot::N12)),
                FieldNo::Own(OwnField::$group(FieldSlot::N13)),
                FieldNo::Own(OwnField::$group(FieldSlot::N14)),
                FieldNo::Own(OwnField::$group(FieldSlot::N15)),
            )*
        ]
    };
}

pub(crate) use field_array;

static FIELDS: [FieldNo; 200] = field_array![
    common:
        Name Desc Asg Dtyp Scan Pini Phas Evnt Tse Disv Disa Sdis Diss Proc Disp Prio Udf Udfs Flnk
        Stat Sevr Nsta Nsev Lcnt Pact Putf Rpro Time;
    own:
        Val Inp Out Dol Omsl Drvh Drvl Ivoa Ivov Rval Mask Shft Nobt Znam Onam Zsv Osv Unsv Cosv
        Lalm Selm Seln Sell Offs Hihi Lolo High Low Hhsv Llsv Hsv Lsv Hyst Adel Mdel Hopr Lopr Egu
        Prec Mlst Alst Linr Eguf Egul Eslo Aslo Eoff Aoff Roff Smoo Init Oif Oroc Oval Pval
        Nvl Calc Ocal Oopt Dopt;
    slots: StateValue StateText StateSeverity Lnk Letter LastLetter InputLink
];

// Returns every field of every type.
#[tactic(auto, unfolding(crate::specs::Names::all_fields))]
pub fn fields() -> &'static [FieldNo]
    ensures { result.now ≡ all_fields }
{
    &FIELDS
}
