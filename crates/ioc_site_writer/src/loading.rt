//! Whether a text loads as it stands.
ghost use Rattle.std.specs.Prelude.{IfOk};
ghost use Rattle.ioc_site_writer.specs.Loads.{IsRefusal};

use ioc_dbfile::{Macros, load};
use ioc_values::{DbFault, LoadError};
use std::alloc::{AllocError, Global};

/// Returns the first fault that keeps a text from being loaded with these macros, as the programs that run
/// it load it. If there is none, it loads.
///
/// # Errors
///
/// [`AllocError`] if allocation fails.
pub fn refusal(alloc: Global, text: &[u8], macros: &Macros) -> Result<Option<DbFault>, AllocError>
    ensures { IfOk result (IsRefusal macros.now text.now) }
{
    match load(alloc, text, macros) {
        Ok(_) => Ok(None),
        Err(LoadError::BadDb(fault)) => Ok(Some(fault)),
        Err(LoadError::NoMemory) => Err(AllocError),
    }
}
