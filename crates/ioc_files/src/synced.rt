//! A file whose bytes are on the disk soon.
use std::fs::OpenFile;
use std::io::{self, Write};
use std::time::{Clock, Duration, Instant};

/// A file of which all bytes that are written are brought to the disk once a second, if that is asked
/// for.
#[derive(Drop)]
pub struct SyncedFile<'r, F: Write + OpenFile + Drop, R: Clock> {
    rt: &'r R,
    file: F,
    syncs: bool,
    // When they were brought there last.
    last: Option<Instant>,
}

impl<'r, F: Write + OpenFile + Drop, R: Clock> SyncedFile<'r, F, R> {
    /// Takes a file.
    pub fn new(rt: &'r R, file: F, syncs: bool) -> Self {
        SyncedFile {
            rt,
            file,
            syncs,
            last: None,
        }
    }

    // Returns whether the bytes have waited for long enough.
    fn is_due(&self, now: Instant) -> bool {
        match self.last {
            Some(last) => now.saturating_duration_since(last) >= Duration::from_secs(1),
            None => true,
        }
    }
}

impl<F: Write + OpenFile + Drop, R: Clock> Write for SyncedFile<'_, F, R> {
    ghost use Rattle.std.specs.Prelude.{None};

    ghost contents = { λ _. None };

    fn write(&mut self, bytes: &[u8]) -> io::Result<usize> {
        self.file.write(bytes)
    }

    fn flush(&mut self) -> io::Result<()> {
        self.file.flush()?;
        if !self.syncs {
            return Ok(());
        }
        let now = Instant::now(self.rt)?;
        if self.is_due(now) {
            self.file.sync_all()?;
            self.last = Some(now);
        }
        Ok(())
    }
}
