//! The files of a journal, one after another.
use crate::synced::SyncedFile;
use std::alloc::{AllocError, Global};
use std::fs::{File, Files, OpenFile};
use std::io::{self, Write};
use std::time::Clock;

// How the first line of a file begins, and no other line of a journal.
const HEADER: &[u8] = b"journal\t";

/// Returns the path of a later file of a journal, of which the first one is number 1: the path of the
/// first one, a dot, and the number.
///
/// # Errors
///
/// [`AllocError`] if allocation fails.
pub fn path_of(alloc: Global, path: &str, number: u64) -> Result<String, AllocError> {
    format!(in alloc; "{path}.{number}")
}

/// A runtime that creates files of this type. `Files` names the type itself, so that a function with that
/// bound can't lend its runtime to another thread for it; this trait takes it.
pub trait CreateFiles<F> {
    /// Creates a file, and writes over one with this path only if that is asked for.
    ///
    /// # Errors
    ///
    /// The error of the system if the file can't be created. `AlreadyExists` if it is there and isn't to be
    /// written over.
    fn create(&self, path: &str, overwrites: bool) -> io::Result<F>;
}

impl CreateFiles<<HostRuntime as Files>::File> for HostRuntime {
    fn create(&self, path: &str, overwrites: bool) -> io::Result<<HostRuntime as Files>::File> {
        if overwrites {
            File::create(self, path)
        } else {
            File::create_new(self, path)
        }
    }
}

/// The files of a journal. A header begins a file, so each header but the first is written to a new file,
/// and what follows it too.
#[derive(Drop)]
pub struct FileSeries<'r, F: Write + OpenFile + Drop, R: Clock> {
    rt: &'r R,
    alloc: Global,
    // The path of the first file.
    path: String,
    current: SyncedFile<'r, F, R>,
    // How many files there are.
    count: u64,
    // Whether something is written already.
    has_begun: bool,
    overwrites: bool,
    syncs: bool,
}

impl<'r, F: Write + OpenFile + Drop, R: Clock + CreateFiles<F>> FileSeries<'r, F, R> {
    /// Takes the first file, which has this path. Whether a later one may be there already and is
    /// written over, and whether its bytes are to reach the disk soon, is as for the first one.
    pub fn new(
        rt: &'r R,
        alloc: Global,
        path: String,
        file: F,
        overwrites: bool,
        syncs: bool,
    ) -> Self {
        FileSeries {
            rt,
            alloc,
            path,
            current: SyncedFile::new(rt, file, syncs),
            count: 1,
            has_begun: false,
            overwrites,
            syncs,
        }
    }

    // Creates the next file.
    fn go_on(&mut self) -> io::Result<()> {
        self.current.flush()?;
        let number = self.count.saturating_add(1);
        let Ok(path) = path_of(self.alloc, self.path.as_str(), number) else {
            return Err(io::Error::from(io::ErrorKind::OutOfMemory));
        };
        let file = self.rt.create(path.as_str(), self.overwrites)?;
        self.current = SyncedFile::new(self.rt, file, self.syncs);
        self.count = number;
        Ok(())
    }
}

impl<F: Write + OpenFile + Drop, R: Clock + CreateFiles<F>> Write for FileSeries<'_, F, R> {
    ghost use Rattle.std.specs.Prelude.{None};

    ghost contents = { λ _. None };

    fn write(&mut self, bytes: &[u8]) -> io::Result<usize> {
        if self.has_begun && bytes.starts_with(HEADER) {
            self.go_on()?;
        }
        let count = self.current.write(bytes)?;
        if count > 0 {
            self.has_begun = true;
        }
        Ok(count)
    }

    fn flush(&mut self) -> io::Result<()> {
        self.current.flush()
    }
}
