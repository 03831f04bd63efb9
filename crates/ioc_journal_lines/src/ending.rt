//! The last line of a run that has ended.
ghost use Rattle.std.specs.Prelude.{◌≡◌, ◌<◌, ◌^◌, ◌++◌, ℕ, OnOk, IfOk, IfSome, Some};
ghost use Rattle.ioc_journal_lines.specs.Lines.{end_line, read_end};
ghost use Rattle.ioc_journal_lines.specs.Words.{Gives};

use crate::words::{is_same, number_at, split};
use itoa::Buffer;
use std::alloc::{AllocError, Global};

/// Appends the line of the end of a run whose journal has entries up to this place, without it.
///
/// # Errors
///
/// [`AllocError`] if allocation fails; a part of the line may have been appended then.
#[tactic(auto, unfolding(crate::specs::Lines::end_line))]
pub fn add_end(out: &mut Vec<u8>, place: u64) -> Result<(), AllocError>
    ensures { OnOk result (out.new.items ≡ out.old.items ++ end_line place) }
{
    out.extend_from_slice(b"end\t")?;
    out.extend_from_slice(Buffer::new().format(place).as_bytes())?;
    out.push(b'\n')?;
    Ok(())
}

/// Reads the number of an end.
#[tactic(auto, unfolding(crate::specs::Lines::read_end))]
fn read_end(line: &[u8]) -> Option<u64>
    ensures { Gives (λ x. x) result (read_end line.now) }
{
    let (_end, rest) = split(line);
    let (place, _rest) = number_at(rest)?;
    Some(place)
}

/// Reads a line, with the line break at its end: the place of the end that [`add_end`] writes so, or
/// `None` if no end has this line.
///
/// # Errors
///
/// [`AllocError`] if allocation fails.
pub fn end_of(alloc: Global, line: &[u8]) -> Result<Option<u64>, AllocError>
    ensures found { IfOk result (λ read. IfSome read (λ place. line.now ≡ end_line place)) }
    ensures only { (place : ℕ) → place < 2 ^ 64 → line.now ≡ end_line place → IfOk result (λ read. read ≡ Some place) }
{
    let Some(place) = read_end(line) else {
        return Ok(None);
    };
    let mut out = Vec::new(alloc);
    add_end(&mut out, place)?;
    if !is_same(out.as_slice(), line) {
        return Ok(None);
    }
    Ok(Some(place))
}
