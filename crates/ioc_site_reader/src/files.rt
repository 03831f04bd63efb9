//! The files of a run.
use crate::sources::Sources;
use std::alloc::{AllocError, Global};

/// Returns the folder of a path, or nothing.
fn folder_of(path: &[u8]) -> &[u8] {
    match path.iter().rposition(|byte| *byte == b'/') {
        Some(0) => b"/",
        Some(at) => path.get(..at).unwrap_or(&[]),
        None => &[],
    }
}

/// Returns the path of a file in a folder.
fn path_in(alloc: Global, folder: &[u8], name: &[u8]) -> Result<Vec<u8>, AllocError> {
    let mut path = Vec::new(alloc);
    if name.first().copied() != Some(b'/') && !folder.is_empty() {
        path.extend_from_slice(folder)?;
        if folder.last().copied() != Some(b'/') {
            path.push(b'/')?;
        }
    }
    path.extend_from_slice(name)?;
    Ok(path)
}

/// A file that was read.
#[derive(Drop)]
pub struct ReadFile {
    pub number: u32,
    pub text: Vec<u8>,
}

/// The files of a run, and the folders in which files are sought.
#[derive(Drop)]
pub struct Files {
    alloc: Global,
    /// The paths of files, by their numbers.
    pub paths: Vec<Vec<u8>>,
    folders: Vec<Vec<u8>>,
}

impl Files {
    /// Begins with no files and no folders.
    pub fn new(alloc: Global) -> Self {
        Files {
            alloc,
            paths: Vec::new(alloc),
            folders: Vec::new(alloc),
        }
    }

    /// Returns the paths of files, by their numbers.
    pub fn into_paths(self) -> Vec<Vec<u8>> {
        let Files { paths, .. } = self;
        paths
    }

    /// Adds folders, with `:` between them. An empty one is the current folder.
    ///
    /// # Errors
    ///
    /// [`AllocError`] if allocation fails.
    pub fn add_folders(&mut self, text: &[u8]) -> Result<(), AllocError> {
        for folder in text.split(|byte| *byte == b':') {
            self.folders.push(folder.to_vec(self.alloc)?)?;
        }
        Ok(())
    }

    /// Drops the folders.
    pub fn clear_folders(&mut self) {
        self.folders.truncate(0);
    }

    /// Returns the number of the file with this path.
    ///
    /// # Errors
    ///
    /// [`AllocError`] if allocation fails.
    pub fn number(&mut self, path: &[u8]) -> Result<u32, AllocError> {
        let mut found = None;
        for (number, known) in self.paths.iter().enumerate() {
            if known.as_slice() == path {
                found = Some(number);
                break;
            }
        }
        let number = match found {
            Some(number) => number,
            None => {
                self.paths.push(path.to_vec(self.alloc)?)?;
                self.paths.len().saturating_sub(1)
            }
        };
        Ok(u32::try_from(number).unwrap_or(u32::MAX))
    }

    /// Reads the file with this path.
    fn read<S: Sources>(
        &mut self,
        sources: &mut S,
        path: &[u8],
    ) -> Result<Option<ReadFile>, AllocError> {
        let Some(text) = sources.read(path)? else {
            return Ok(None);
        };
        let number = self.number(path)?;
        Ok(Some(ReadFile { number, text }))
    }

    /// Reads a file that another one names: from that one's folder, or from the first of the
    /// folders in which it is.
    ///
    /// # Errors
    ///
    /// [`AllocError`] if allocation fails.
    pub fn find<S: Sources>(
        &mut self,
        sources: &mut S,
        includer: u32,
        name: &[u8],
    ) -> Result<Option<ReadFile>, AllocError> {
        let beside = match self.paths.get(includer as usize) {
            Some(path) => path_in(self.alloc, folder_of(path.as_slice()), name)?,
            None => name.to_vec(self.alloc)?,
        };
        if let Some(file) = self.read(sources, beside.as_slice())? {
            return Ok(Some(file));
        }
        for at in 0..self.folders.len() {
            let path = match self.folders.get(at) {
                Some(folder) => path_in(self.alloc, folder.as_slice(), name)?,
                None => break,
            };
            if let Some(file) = self.read(sources, path.as_slice())? {
                return Ok(Some(file));
            }
        }
        Ok(None)
    }
}
