//! Values that a run has taken from a file of saved ones.
ghost use Rattle.std.specs.Prelude.{◌≡◌, ◌++◌, true, OnOk, IfOk, IfSome, Some};
ghost use Rattle.ioc_saved.specs.declared.value.SavedValue.{SavedValue};
ghost use Rattle.ioc_saved.specs.Lines.{is_saveable};
ghost use Rattle.ioc_journal_lines.specs.Lines.{base_line, read_base};
ghost use Rattle.ioc_journal_lines.specs.Words.{Gives};

use crate::words::{is_same, split};
use ioc_saved::{SavedValue, add_saved, saved_in, saved_lines_read_back};
use std::alloc::{AllocError, Global};

/// Appends the line of a value that a run has taken from a file of saved ones, before its first entry.
///
/// # Errors
///
/// [`AllocError`] if allocation fails; a part of the line may have been appended then.
#[tactic(auto, unfolding(crate::specs::Lines::base_line))]
pub fn add_base(out: &mut Vec<u8>, saved: &SavedValue) -> Result<(), AllocError>
    ensures { OnOk result (out.new.items ≡ out.old.items ++ base_line saved.now) }
{
    out.extend_from_slice(b"base\t")?;
    add_saved(out, saved)
}

/// Reads the value of a base line.
#[tactic(auto, unfolding(crate::specs::Lines::read_base))]
fn read_base(line: &[u8]) -> Option<SavedValue>
    ensures { Gives (λ x. x) result (read_base line.now) }
{
    let (_base, rest) = split(line);
    saved_in(rest)
}

/// Reads a line, with the line break at its end: the value whose line [`add_base`] writes so, or `None`
/// if no value that can be saved has this line.
///
/// # Errors
///
/// [`AllocError`] if allocation fails.
pub fn base_of(alloc: Global, line: &[u8]) -> Result<Option<SavedValue>, AllocError>
    ensures found { IfOk result (λ read. IfSome read (λ saved. line.now ≡ base_line saved)) }
    ensures only { (saved : SavedValue) → is_saveable saved ≡ true → line.now ≡ base_line saved → IfOk result (λ read. read ≡ Some saved) }
{
    saved_lines_read_back();
    let Some(saved) = read_base(line) else {
        return Ok(None);
    };
    let mut out = Vec::new(alloc);
    add_base(&mut out, &saved)?;
    if !is_same(out.as_slice(), line) {
        return Ok(None);
    }
    Ok(Some(saved))
}
