//! Where the text of files comes from.
use std::alloc::AllocError;

/// Where the text of files comes from.
pub trait Sources {
    /// Returns the whole text of a file, or `None` if it can't be read.
    ///
    /// # Errors
    ///
    /// [`AllocError`] if allocation fails.
    fn read(&mut self, path: &[u8]) -> Result<Option<Vec<u8>>, AllocError>;
}
