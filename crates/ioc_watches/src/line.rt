//! The line of a watched field.
ghost use Rattle.std.specs.Prelude.{◌≡◌, ◌++◌, ◌∷◌, OnOk};
ghost use Rattle.ioc_watches.specs.Lines.{end_of, front_of, letter, letters, line_due, line_of, middle_of};

use crate::content::{FieldShown, RecordShown};
use ioc_commands::add_escaped_text;
use ioc_monitor::Mask;
use ioc_record::FieldText;
use std::alloc::AllocError;

// Appends a letter, if it is said.
fn add_letter(out: &mut Vec<u8>, is_said: bool, byte: u8) -> Result<(), AllocError>
    ensures { OnOk result (out.new.items ≡ out.old.items ++ letter is_said byte) }
{
    if is_said {
        out.push(byte)?;
    }
    Ok(())
}

// Appends the letters of a mask.
fn add_letters(out: &mut Vec<u8>, mask: &Mask) -> Result<(), AllocError>
    ensures { OnOk result (out.new.items ≡ out.old.items ++ letters mask.now) }
{
    add_letter(out, mask.value, b'v')?;
    add_letter(out, mask.log, b'l')?;
    add_letter(out, mask.alarm, b'a')
}

// Appends the word that watches, and why the line is written.
#[tactic(auto, unfolding(crate::specs::Lines::front_of))]
fn add_front(out: &mut Vec<u8>, word: &[u8], mask: &Mask) -> Result<(), AllocError>
    ensures { OnOk result (out.new.items ≡ out.old.items ++ front_of word.now mask.now) }
{
    out.extend_from_slice(b"! ")?;
    out.extend_from_slice(word)?;
    out.push(b' ')?;
    add_letters(out, mask)
}

// Appends a space, and the text of a field.
fn add_shown(out: &mut Vec<u8>, shown: &FieldShown) -> Result<(), AllocError>
    ensures { OnOk result (out.new.items ≡ out.old.items ++ 32 ∷ shown.now.text) }
{
    out.push(b' ')?;
    out.extend_from_slice(shown.text.as_slice())
}

// Appends STAT, SEVR and TIME of a record.
#[tactic(auto, unfolding(crate::specs::Lines::middle_of))]
fn add_middle(out: &mut Vec<u8>, record: &RecordShown) -> Result<(), AllocError>
    ensures { OnOk result (out.new.items ≡ out.old.items ++ middle_of record.now) }
{
    add_shown(out, &record.status)?;
    add_shown(out, &record.severity)?;
    add_shown(out, &record.moment)
}

// Appends what the field is, and the end of the line.
#[tactic(auto, unfolding(crate::specs::Lines::end_of))]
fn add_end(out: &mut Vec<u8>, content: &FieldText) -> Result<(), AllocError>
    ensures { OnOk result (out.new.items ≡ out.old.items ++ end_of content.now) }
{
    out.push(b' ')?;
    add_escaped_text(out, content.as_slice())?;
    out.push(b'\n')?;
    Ok(())
}

// Appends the line of what was shown of a record and of a field that this word watches.
#[tactic(auto, unfolding(crate::specs::Lines::line_of))]
fn add_line(
    out: &mut Vec<u8>,
    word: &[u8],
    mask: &Mask,
    record: &RecordShown,
    content: &FieldText,
) -> Result<(), AllocError>
    ensures { OnOk result (out.new.items ≡ out.old.items ++ line_of word.now mask.now record.now content.now) }
{
    add_front(out, word, mask)?;
    add_middle(out, record)?;
    add_end(out, content)
}

// Appends the line of what was shown of a record and of a field that this word watches, if one is due.
pub(crate) fn add_due_line(
    out: &mut Vec<u8>,
    word: &[u8],
    mask: &Mask,
    record: &RecordShown,
    content: &FieldText,
) -> Result<(), AllocError>
    ensures { OnOk result (out.new.items ≡ out.old.items ++ line_due word.now mask.now record.now content.now) }
{
    if mask.value || mask.log || mask.alarm {
        return add_line(out, word, mask, record, content);
    }
    Ok(())
}
