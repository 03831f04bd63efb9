//! The list of the watched records of a set, which has none while no record is watched.
ghost use Rattle.std.specs.Prelude.{◌≡◌, ◌++◌, ◌∷◌, [], map, OnOk, OnErr};
ghost use Rattle.crossbeam_utils.specs.Seq.{cell_view};
ghost use Rattle.ioc_watched.specs.Watched.{told_now, unwatched, newly_watched, watched_by};

use crate::watch_list::WatchList;
use ioc_journal::{Cell, KeyPass};
use ioc_names::RecordNo;
use std::alloc::{AllocError, Global};

/// Watches a record from now on. It is marked.
///
/// # Errors
///
/// [`AllocError`] if allocation fails; nothing has changed then.
pub fn add_to(
    alloc: Global,
    list: &mut Option<Box<WatchList>>,
    number: RecordNo,
    told: KeyPass,
) -> Result<(), AllocError>
    ensures ok { OnOk result (watched_by list.new ≡ watched_by list.old ++ newly_watched number (cell_view told).seen ∷ []) }
    ensures err { OnErr result (list.new ≡ list.old) }
{
    if let Some(watched) = list {
        return watched.add(number, told);
    }
    let mut watched = Box::new(alloc, WatchList::new(alloc))?;
    watched.add(number, told)?;
    *list = Some(watched);
    Ok(())
}

/// Watches a record no more.
pub fn remove_from(list: &mut Option<Box<WatchList>>, number: RecordNo)
    ensures { watched_by list.new ≡ unwatched number (watched_by list.old) }
{
    if let Some(watched) = list {
        watched.remove(number);
    }
}

/// Takes the mark off a record, if it is watched: it is told now, after the calls that a pass has seen.
pub fn tell_in(list: &mut Option<Box<WatchList>>, cell: &Cell, pass: &mut KeyPass, number: RecordNo)
    requires table { pass.old.table_id ≡ cell.now.table.shared.table_id }
    ensures told { watched_by list.new ≡ map (told_now number (cell_view pass.old).seen) (watched_by list.old) }
    ensures pass { (pass.new.table_id ≡ pass.old.table_id) × (cell_view pass.new ≡ cell_view pass.old) }
{
    if let Some(watched) = list {
        watched.tell(cell, pass, number);
    }
}
