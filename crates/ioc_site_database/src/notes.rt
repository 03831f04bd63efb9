//! The findings that tell what was adapted.
use ioc_site::{Finding, Place, Severity};
use std::alloc::{AllocError, Global};

/// The findings that tell what was adapted, each at its place.
#[derive(Drop)]
pub struct Notes {
    pub alloc: Global,
    pub list: Vec<Finding>,
}

impl Notes {
    /// Begins with nothing.
    pub fn new(alloc: Global) -> Self {
        Notes {
            alloc,
            list: Vec::new(alloc),
        }
    }

    /// Adds a note with these parts.
    ///
    /// # Errors
    ///
    /// [`AllocError`] if allocation fails.
    pub fn tell(&mut self, place: Place, parts: &[&[u8]]) -> Result<(), AllocError> {
        let mut text = Vec::new(self.alloc);
        for part in parts {
            text.extend_from_slice(part)?;
        }
        self.list.push(Finding {
            severity: Severity::Warning,
            place,
            text,
        })?;
        Ok(())
    }
}
