//! Files of saved values, each of which takes the place of the one before it.
use std::alloc::{AllocError, Global};
use std::fs::{self, File, Files, OpenFile};
use std::io::{self, ErrorKind, Write};

/// The paths of a file of saved values, of the one that takes its place, and of the one before it.
#[derive(Drop)]
pub struct SavedPaths {
    file: String,
    next: String,
    before: String,
}

impl SavedPaths {
    /// Returns the paths of the file with this one.
    ///
    /// # Errors
    ///
    /// [`AllocError`] if allocation fails.
    pub fn of(alloc: Global, path: &str) -> Result<Self, AllocError> {
        Ok(SavedPaths {
            file: String::from_str(alloc, path)?,
            next: format!(in alloc; "{path}.new")?,
            before: format!(in alloc; "{path}B")?,
        })
    }
}

/// A runtime that replaces files of saved values. `Files` has types of its own, such as its `File`, so that
/// a function with this bound can't lend its runtime to another thread for it; this trait has none.
pub trait ReplaceFiles {
    /// Writes a file with this text to the disk, and then has it take the place of the one there, which is
    /// kept as the one before. Whenever the program is killed there is a whole file.
    ///
    /// # Errors
    ///
    /// The error of the system if a file can't be written, linked, removed or renamed.
    fn replace(&self, paths: &SavedPaths, text: &[u8]) -> io::Result<()>;
}

impl ReplaceFiles for HostRuntime {
    fn replace(&self, paths: &SavedPaths, text: &[u8]) -> io::Result<()> {
        write_next(self, paths, text)?;
        keep_before(self, paths)?;
        fs::rename(self, paths.next.as_str(), paths.file.as_str())?;
        sync_folder(self, paths.file.as_str());
        Ok(())
    }
}

// Writes the next file to the disk.
fn write_next<R: Files>(rt: &R, paths: &SavedPaths, text: &[u8]) -> io::Result<()> {
    let mut file = File::create(rt, paths.next.as_str())?;
    file.write_all(text)?;
    file.flush()?;
    file.sync_all()
}

// Gives the file the name of the one before too, if it is there.
fn keep_before<R: Files>(rt: &R, paths: &SavedPaths) -> io::Result<()> {
    match fs::remove_file(rt, paths.before.as_str()) {
        Err(error) if error.kind() != ErrorKind::NotFound => return Err(error),
        _ => {}
    }
    match fs::hard_link(rt, paths.file.as_str(), paths.before.as_str()) {
        Err(error) if error.kind() != ErrorKind::NotFound => Err(error),
        _ => Ok(()),
    }
}

// Brings to the disk that a file has a new name, where that can be done.
fn sync_folder<R: Files>(rt: &R, path: &str) {
    let folder = match path.rfind('/') {
        Some(0) => "/",
        Some(place) => path.get(..place).unwrap_or("."),
        None => ".",
    };
    if let Ok(opened) = File::open(rt, folder) {
        let _synced = opened.sync_all();
    }
}
