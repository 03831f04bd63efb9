//! The last line of a file that goes on in another one.
ghost use Rattle.std.specs.Prelude.{◌≡◌, ◌<◌, ◌++◌, OnOk, IfOk, IfSome, Some};
ghost use Rattle.ioc_journal_file.specs.Bases.{next_line, IsNext};
ghost use Rattle.ioc_journal_file.specs.BaseReading.{next_at};
ghost use Rattle.ioc_journal_file.specs.Reading.{Gives};

use crate::numbers::{add_number, number_at};
use crate::texts::{add_text, text_at};
use crate::words::{is_same, split};
use ioc_values::Short;
use std::alloc::{AllocError, Global};

/// The file in which a journal goes on.
#[derive(Clone, Copy)]
pub struct NextFile {
    /// Its name, without its folder.
    pub name: Short<255>,
    /// The place of its first entry.
    pub place: u64,
}

/// Appends the line that names the file in which a journal goes on.
///
/// # Errors
///
/// [`AllocError`] if allocation fails; a part of the line may have been appended then.
#[tactic(auto, unfolding(crate::specs::Bases::next_line))]
pub fn add_next(out: &mut Vec<u8>, next: &NextFile) -> Result<(), AllocError>
    ensures { OnOk result (out.new.items ≡ out.old.items ++ next_line next.now) }
{
    out.extend_from_slice(b"next\t")?;
    add_text(out, next.name.as_slice())?;
    out.push(b'\t')?;
    add_number(out, next.place)?;
    out.push(b'\n')?;
    Ok(())
}

/// Reads the name and the place.
#[tactic(auto, unfolding(crate::specs::BaseReading::next_at))]
fn next_at(line: &[u8]) -> Option<NextFile>
    ensures { Gives (λ x. x) result (next_at line.now) }
{
    let (_next, rest) = split(line);
    let (name, rest) = text_at(rest);
    let (place, _rest) = number_at(rest)?;
    Some(NextFile { name, place })
}

/// Reads a line, with the line break at its end: the file that [`add_next`] names so, or `None` if no
/// file has this line.
///
/// # Errors
///
/// [`AllocError`] if allocation fails.
pub fn next_of(alloc: Global, line: &[u8]) -> Result<Option<NextFile>, AllocError>
    ensures found { IfOk result (λ read. IfSome read (λ next. line.now ≡ next_line next)) }
    ensures only { (next : NextFile) → IsNext next → line.now ≡ next_line next → IfOk result (λ read. read ≡ Some next) }
{
    let Some(next) = next_at(line) else {
        return Ok(None);
    };
    let mut out = Vec::new(alloc);
    add_next(&mut out, &next)?;
    if !is_same(out.as_slice(), line) {
        return Ok(None);
    }
    Ok(Some(next))
}
