//! The cell that an engine is named by.
ghost use Rattle.std.specs.Prelude.{◌≡◌, [], IfOk};
ghost use Rattle.crossbeam_utils.specs.Seq.{cell_view};
ghost use Rattle.ioc_journal.specs.Line.{keeper};

use ioc_journal::{Cell, KeyPass};
use std::alloc::{AllocError, Global};

/// Creates the cell of an engine that isn't started yet, and the keeper's pass, which has seen no
/// call.
///
/// # Errors
///
/// [`AllocError`] if allocation fails.
pub fn new_cell(alloc: Global) -> Result<(Cell, KeyPass), AllocError>
    ensures table { IfOk result (λ x. x.1.table_id ≡ x.0.table.shared.table_id) }
    ensures master { IfOk result (λ x. cell_view x.1 ≡ keeper [] []) }
{
    let (cell, master) = Cell::ruled(alloc, [0])?;
    Ok((cell, master))
}
