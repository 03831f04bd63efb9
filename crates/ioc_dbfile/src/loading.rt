//! Loads a database from a text.
ghost use Rattle.ioc_dbparse.specs.Statements.{Gives};
ghost use Rattle.ioc_dbfile.specs.Finished.{loaded_by};
ghost use Rattle.ioc_dbfile.specs.SeenDatabase.{database_of};
ghost use Rattle.rec_types.specs.Record.{record_rules, new_record};

use crate::database::Database;
use crate::database_builder::DatabaseBuilder;
use ioc_dblex::Macros;
use ioc_dbparse::fill_by_text;
use ioc_values::LoadError;
use std::alloc::Global;

/// Loads the database of a text, with the macros that it may use.
///
/// # Errors
///
/// [`LoadError::BadDb`] with the line and the kind of the first fault in the text.
/// [`LoadError::NoMemory`] if allocation fails. Nothing is loaded then.
#[tactic(auto, unfolding(crate::specs::Finished::loaded_by))]
pub fn load(alloc: Global, text: &[u8], macros: &Macros) -> Result<Database, LoadError>
    ensures { Gives database_of result (loaded_by record_rules new_record macros.now text.now) }
{
    let mut builder = DatabaseBuilder::new(alloc);
    fill_by_text(alloc, text, macros, &mut builder)?;
    let database = builder.finish(alloc)?;
    Ok(database)
}
