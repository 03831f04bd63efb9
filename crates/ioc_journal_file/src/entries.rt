//! The lines of the journal's entries.
ghost use Rattle.std.specs.Prelude.{◌≡◌, ◌<◌, ◌+◌, ◌^◌, ◌++◌, length, IfOk, OnOk};
ghost use Rattle.ioc_journal_file.specs.Entries.{entry_line, entry_lines};

use crate::line::{Mark, print_entry};
use ioc_journal::JournalEntry;
use std::alloc::AllocError;

/// Appends the line of the entry at a place of the journal.
///
/// # Errors
///
/// [`AllocError`] if allocation fails; a part of the line may have been appended then.
#[tactic(auto, unfolding(crate::specs::Entries::entry_line))]
pub fn add_entry(text: &mut Vec<u8>, place: u64, kept: &JournalEntry) -> Result<(), AllocError>
    ensures { OnOk result (text.new.items ≡ text.old.items ++ entry_line place kept.now) }
{
    let mark = Mark {
        place,
        desk: kept.desk,
        call: kept.call,
        moment: kept.entry.moment,
    };
    print_entry(&mark, &kept.entry.call, kept.entry.answers.as_slice(), text)
}

/// Appends the lines of entries, of which the first is at this place of the journal. Returns the
/// place behind the last.
///
/// # Errors
///
/// [`AllocError`] if allocation fails; some lines may have been appended then.
pub fn add_entries(
    text: &mut Vec<u8>,
    first: u64,
    entries: &[JournalEntry],
) -> Result<u64, AllocError>
    ensures lines { first + length entries.now < 2 ^ 64 → OnOk result (text.new.items ≡ text.old.items ++ entry_lines first entries.now) }
    ensures place { first + length entries.now < 2 ^ 64 → IfOk result (λ place. place ≡ first + length entries.now) }
{
    let mut place = first;
    let mut rest = entries;
    while let [kept, others @ ..] = rest {
        add_entry(text, place, kept)?;
        place = place.saturating_add(1);
        rest = others;
    }
    Ok(place)
}
