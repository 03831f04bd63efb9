//! A line of a file with its macros replaced.
ghost use Rattle.std.specs.Prelude.{◌≡◌, ◌+◌, ◌-◌, ◌≤◌, ◌^◌, min};
ghost use Rattle.ioc_site_lines.specs.Columns.{column_of, column_in};

use std::alloc::{AllocError, Global};

/// Bytes of a line up to those of the next run: they come from one column, or each from the column behind
/// that of the byte before it.
#[derive(Clone, Copy)]
struct Run {
    /// Where the first of them stands.
    at: usize,
    /// The column from which it comes.
    column: u32,
    is_fixed: bool,
}

/// A line with its macros replaced, and the columns from which its bytes come.
#[derive(Drop)]
pub struct Line {
    pub bytes: Vec<u8>,
    runs: Vec<Run>,
}

/// Returns the column so many bytes behind this one.
pub fn column_behind(column: u32, count: usize) -> u32
    ensures { result ≡ min (2 ^ 32 - 1) (column + count) }
{
    match u32::try_from(count) {
        Ok(count) => column.saturating_add(count),
        Err(_) => u32::MAX,
    }
}

impl Run {
    // Returns the column from which the byte at this place comes.
    fn column(&self, at: usize) -> u32
        requires { self.now.at ≤ at }
        ensures { result ≡ column_of self.now at }
    {
        if self.is_fixed {
            self.column
        } else {
            column_behind(self.column, at - self.at)
        }
    }
}

impl Line {
    /// Makes an empty line.
    pub fn new(alloc: Global) -> Self {
        Line {
            bytes: Vec::new(alloc),
            runs: Vec::new(alloc),
        }
    }

    /// Drops all bytes.
    pub fn clear(&mut self) {
        self.bytes.clear();
        self.runs.clear();
    }

    /// Appends bytes. The first comes from this column; the others from it too, or from those behind it.
    ///
    /// # Errors
    ///
    /// [`AllocError`] if allocation fails.
    pub fn push(&mut self, bytes: &[u8], column: u32, is_fixed: bool) -> Result<(), AllocError> {
        let at = self.bytes.len();
        self.runs.push(Run {
            at,
            column,
            is_fixed,
        })?;
        self.bytes.extend_from_slice(bytes)
    }

    /// Returns the column from which the byte at this place comes.
    pub fn column(&self, at: usize) -> u32
        ensures { result ≡ column_in at 1 self.now.runs.items }
    {
        let mut found = 1;
        let mut rest = self.runs.as_slice();
        while let [first, after @ ..] = rest {
            if first.at > at {
                break;
            }
            found = first.column(at);
            rest = after;
        }
        found
    }

    /// Returns the bytes from this one on.
    pub fn from(&self, at: usize) -> &[u8] {
        self.bytes.get(at..).unwrap_or(&[])
    }
}
