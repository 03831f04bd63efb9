//! Places in the lines of a text.
use crate::End;
use crate::token_lines::Lines;

/// A place in some lines.
#[derive(Clone, Copy)]
pub struct Cursor<'a> {
    /// The number of the line, counted from 1.
    pub line: u64,
    /// The rest of the line.
    pub rest: &'a [u8],
    /// The lines after it.
    pub behind: Lines<'a>,
    /// The reason why the lines end.
    pub end: End,
}
