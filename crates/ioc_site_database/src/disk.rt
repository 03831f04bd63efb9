//! The files of the machine as sources of texts.
use ioc_command_line::is_out_of_memory;
use ioc_site_reader::Sources;
use std::alloc::{Alloc, AllocError, Global};
use std::fs::{self, Files};
use std::str;

/// The files of the machine.
#[derive(Clone, Copy)]
pub struct Disk<'r, R>(pub &'r R);

impl<R: Files + Alloc<A = Global>> Sources for Disk<'_, R> {
    fn read(&mut self, path: &[u8]) -> Result<Option<Vec<u8>>, AllocError> {
        let Ok(name) = str::from_utf8(path) else {
            return Ok(None);
        };
        match fs::read(self.0, name) {
            Ok(text) => Ok(Some(text)),
            Err(e) if is_out_of_memory(&e) => Err(AllocError),
            Err(_) => Ok(None),
        }
    }
}
