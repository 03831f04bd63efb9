//! The line of a record.
ghost use Rattle.std.specs.Prelude.{◌≡◌, ◌++◌, ◌∷◌, OnOk};
ghost use Rattle.ioc_record.specs.Values.{text_of};
ghost use Rattle.ioc_commands.specs.Texts.{shown};
ghost use Rattle.ioc_listing.specs.Lines.{AddsLine, AddsMoment, front_of};

use crate::moment::moment_text;
use ioc_commands::add_shown_text;
use ioc_fields::{CommonField, FieldNo, OwnField};
use ioc_record::{RecordKind, text_of};
use std::alloc::AllocError;

// Appends a space and the text of a field, as a line shows it.
fn add_field<K: RecordKind>(out: &mut Vec<u8>, item: &K, field: FieldNo) -> Result<(), AllocError>
    ensures { OnOk result (out.new.items ≡ out.old.items ++ 32 ∷ shown (text_of K.rules item.now field)) }
{
    out.push(b' ')?;
    add_shown_text(out, text_of(item, field).as_slice())
}

// Appends the name of a record and the texts of its fields VAL, STAT and SEVR.
#[tactic(auto, unfolding(crate::specs::Lines::front_of))]
fn add_front<K: RecordKind>(out: &mut Vec<u8>, item: &K) -> Result<(), AllocError>
    ensures { OnOk result (out.new.items ≡ out.old.items ++ front_of K.rules item.now) }
{
    out.extend_from_slice(item.common().name.as_slice())?;
    add_field(out, item, FieldNo::Own(OwnField::Val))?;
    add_field(out, item, FieldNo::Common(CommonField::Stat))?;
    add_field(out, item, FieldNo::Common(CommonField::Sevr))
}

// Appends a space, a time stamp and a line feed.
fn add_moment(out: &mut Vec<u8>, nanoseconds: u64) -> Result<(), AllocError>
    ensures { OnOk result (AddsMoment out.old.items nanoseconds out.new.items) }
{
    out.push(b' ')?;
    out.extend_from_slice(moment_text(nanoseconds).as_str().as_bytes())?;
    out.push(b'\n')?;
    Ok(())
}

/// Appends the line of a record: its name, the texts of its fields VAL, STAT and SEVR, as lines show
/// them, and its time stamp, with a space between each two of them, and a line feed.
///
/// # Errors
///
/// [`AllocError`] if allocation fails; a part of the line may have been appended then.
pub fn add_line<K: RecordKind>(out: &mut Vec<u8>, item: &K) -> Result<(), AllocError>
    ensures { OnOk result (AddsLine K.rules out.old.items item.now out.new.items) }
{
    add_front(out, item)?;
    add_moment(out, item.common().time)
}
