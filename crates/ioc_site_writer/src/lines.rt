//! The lines of the text that is written.
use crate::dropping::Subject;
use std::alloc::{AllocError, Global};

/// What a line is of its statement.
#[derive(Clone, Copy, Debug, PartialEq, Eq)]
pub enum LineRole {
    /// Without it the statement is nothing.
    Head,
    /// It is an entry of a body.
    Entry,
    /// It is the end of a body.
    End,
}

/// A line of the text.
#[derive(Clone, Copy)]
pub struct Line<'a> {
    pub role: LineRole,
    /// The number of its statement.
    pub statement: usize,
    /// What is left out if it is.
    pub subject: Subject<'a>,
    /// How many bytes it has, its line feed among them.
    pub length: usize,
}

/// A text, and its lines.
#[derive(Drop)]
pub struct Lines<'a> {
    pub text: Vec<u8>,
    pub list: Vec<Line<'a>>,
}

impl<'a> Lines<'a> {
    /// Returns these without the line of this number, from 1, and with the head of a statement without all its
    /// lines, and what is left out by it, or `None` if there is no such line.
    ///
    /// # Errors
    ///
    /// [`AllocError`] if allocation fails.
    pub fn without(
        &self,
        alloc: Global,
        number: u64,
    ) -> Result<Option<(Self, Subject<'a>)>, AllocError> {
        let place = usize::try_from(number.saturating_sub(1)).unwrap_or(usize::MAX);
        let Some(removed) = self.list.get(place).copied() else {
            return Ok(None);
        };
        let mut text = Vec::new(alloc);
        let mut list = Vec::new(alloc);
        let mut rest = self.text.as_slice();
        for (at, line) in self.list.iter().enumerate() {
            let line = *line;
            let (front, behind) = rest.split_at_checked(line.length).unwrap_or((rest, &[]));
            let is_of_head = removed.role == LineRole::Head && line.statement == removed.statement;
            if at != place && !is_of_head {
                text.extend_from_slice(front)?;
                list.push(line)?;
            }
            rest = behind;
        }
        Ok(Some((Lines { text, list }, removed.subject)))
    }
}
