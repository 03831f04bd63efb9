//! The files of `ioc`: journals that go on in further files and are brought to the disk, files of saved
//! values, which replace each other whole, and those that say what is saved.
#![tactic(auto)]

mod file_series;
mod requesting;
mod restoring;
mod saved_file;
mod synced;

pub use file_series::{CreateFiles, FileSeries, path_of};
pub use requesting::{Requested, SavedField};
pub use restoring::{Restored, saved_values};
pub use saved_file::{ReplaceFiles, SavedPaths};
pub use synced::SyncedFile;
