//! Files that are being read.
ghost use Rattle.std.specs.Prelude.{◌≡◌, IfOk};
ghost use Rattle.ioc_site_lines.specs.Places.{place_of_rest};

use crate::findings::{joined, shown};
use crate::json::Json;
use crate::lexing::{extent_of, is_whole_word, item_extent_of};
use crate::line::Line;
use crate::token::{Kind, Token};
use ioc_dblex::{skip_gap, split_at_byte};
use ioc_site::Place;
use std::alloc::{AllocError, Global};
use std::mem;

/// What is said of a carriage return alone.
pub const LONE_RETURN: &[u8] = b"a carriage return without a line feed; put a line feed behind it";

/// What is said of a byte that is 0.
pub const ZERO_BYTE: &[u8] = b"a byte that is 0; drop it";

/// A file that is being read.
#[derive(Drop)]
pub struct OpenFile {
    pub number: u32,
    /// Whether it is a substitution file. Such a file's own macros aren't replaced.
    pub has_sets: bool,
    /// Whether the next line begins in a comment of C.
    pub is_in_comment: bool,
    text: Vec<u8>,
    /// Where the line as it is written begins, and where its end stands.
    from: usize,
    to: usize,
    /// Where the next line begins.
    behind: usize,
    /// The number of the line.
    line_number: u32,
    line: Line,
    /// Where the rest of the line begins.
    at: usize,
}

impl OpenFile {
    /// Begins with the first line, behind the byte order mark of UTF-8 if there is one. Lines are kept in this
    /// one.
    pub fn new(number: u32, text: Vec<u8>, has_sets: bool, line: Line) -> Self {
        let behind = if text.starts_with(b"\xef\xbb\xbf") {
            3
        } else {
            0
        };
        let mut line = line;
        line.clear();
        OpenFile {
            number,
            has_sets,
            is_in_comment: false,
            text,
            from: 0,
            to: 0,
            behind,
            line_number: 0,
            line,
            at: 0,
        }
    }

    /// Goes to the next line as it is written. Returns whether there is one.
    pub fn next_written(&mut self) -> bool {
        let rest = self.text.get(self.behind..).unwrap_or(&[]);
        if rest.is_empty() {
            return false;
        }
        let (line, end) = split_at_byte(b'\n', rest);
        let is_cut = !end.is_empty() && line.last().copied() == Some(b'\r');
        self.from = self.behind;
        self.to = self
            .behind
            .saturating_add(line.len())
            .saturating_sub(usize::from(is_cut));
        self.behind = self.behind.saturating_add(line.len()).saturating_add(1);
        self.line_number = self.line_number.saturating_add(1);
        true
    }

    /// Returns the line as it is written, without its end.
    pub fn written(&self) -> &[u8] {
        self.text.get(self.from..self.to).unwrap_or(&[])
    }

    /// Returns whether the line as it is written begins and has no comment, and has no byte that no text has.
    pub fn is_plain(&self) -> bool {
        let is_plain = |byte: &u8| !matches!(*byte, b'#' | b'/' | b'\r' | 0);
        !self.is_in_comment && self.written().iter().all(is_plain)
    }

    /// Returns where the line begins.
    pub fn start(&self) -> Place {
        Place {
            file: self.number,
            line: self.line_number,
            column: 1,
        }
    }

    /// Takes the line of which tokens were made. No byte is in it then.
    pub fn take_line(&mut self, alloc: Global) -> Line {
        let mut line = mem::replace(&mut self.line, Line::new(alloc));
        line.clear();
        line
    }

    /// Sets the line of which tokens are made.
    pub fn set_line(&mut self, line: Line) {
        self.line = line;
        self.at = 0;
    }

    /// Returns where the rest of the line begins.
    pub fn place(&self) -> Place
        ensures { result ≡ place_of_rest self.now }
    {
        Place {
            file: self.number,
            line: self.line_number,
            column: self.line.column(self.at),
        }
    }

    /// Passes blanks and a comment. Returns the byte behind them on the line.
    pub fn skip_blanks(&mut self) -> Option<u8> {
        let length = self.line.bytes.len();
        match skip_gap(self.line.from(self.at)) {
            [] | [b'#', ..] => {
                self.at = length;
                None
            }
            rest @ [next, ..] => {
                self.at = length.saturating_sub(rest.len());
                Some(*next)
            }
        }
    }

    /// Returns the next token of the line.
    ///
    /// # Errors
    ///
    /// [`AllocError`] if allocation fails.
    pub fn token(&mut self, alloc: Global) -> Result<Option<Token>, AllocError> {
        if self.skip_blanks().is_none() {
            return Ok(None);
        }
        Ok(Some(self.take(alloc)?))
    }

    /// Takes the token with which the rest of the line begins. Its place is there.
    fn take(&mut self, alloc: Global) -> Result<Token, AllocError>
        ensures { IfOk result (λ t. t.place ≡ place_of_rest self.old) }
    {
        let place = self.place();
        let rest = self.line.from(self.at);
        let extent = if self.has_sets {
            item_extent_of(rest)
        } else {
            extent_of(rest)
        };
        let end = extent.before.saturating_add(extent.length);
        let written = rest.get(extent.before..end).unwrap_or(&[]);
        let text = match extent.kind {
            Kind::Fault => fault_text(alloc, written)?,
            Kind::Sign(_) => Vec::new(alloc),
            Kind::Word | Kind::Quoted => written.to_vec(alloc)?,
        };
        self.at = self.at.saturating_add(extent.whole);
        let next = self.skip_blanks();
        let kind = extent.kind;
        Ok(Token {
            kind,
            text,
            place,
            next,
        })
    }

    /// Returns whether the rest of the line begins with a word that ends the line, or that `)` follows.
    pub fn is_at_whole_word(&self) -> bool {
        is_whole_word(self.line.from(self.at))
    }

    /// Adds the rest of the line to a value in JSON, up to the value's end. Returns whether it ends
    /// there.
    ///
    /// # Errors
    ///
    /// [`AllocError`] if allocation fails.
    pub fn add_json(&mut self, json: &mut Json) -> Result<bool, AllocError> {
        let mut at = self.at;
        let mut ends = false;
        for byte in self.line.from(self.at) {
            at = at.saturating_add(1);
            ends = json.add(*byte)?;
            if ends {
                break;
            }
        }
        self.at = at;
        Ok(ends)
    }

    /// Returns whether a record begins with the line.
    pub fn begins_record(&self) -> bool {
        let rest = self.line.from(0).trim_ascii_start();
        rest.starts_with(b"record(") || rest.starts_with(b"grecord(")
    }
}

/// Returns why no token begins with these bytes.
fn fault_text(alloc: Global, written: &[u8]) -> Result<Vec<u8>, AllocError> {
    if written.contains(&b'"') {
        return joined(
            alloc,
            &[b"the text that begins here isn't closed; put '\"' at its end, on this line"],
        );
    }
    let known: &[u8] = match written {
        [0xc2, 0xa0, ..] => b"a no-break space stands here; put a plain one in its place",
        [b'\r', ..] => LONE_RETURN,
        [0, ..] => ZERO_BYTE,
        _ => b"",
    };
    if !known.is_empty() {
        return known.to_vec(alloc);
    }
    joined(
        alloc,
        &[
            b"'",
            shown(written),
            b"' can't stand outside quotes; put the text in double quotes",
        ],
    )
}
