//! The tokens of the files that are open, one after the other.
ghost use Rattle.std.specs.Prelude.{◌≡◌, true, not, IfOk, OnOk};
ghost use Rattle.ioc_site_lines.specs.Places.{is_among};

use crate::closing::{Comment, block_end, clear, first_comment};
use crate::defining::parse_definitions;
use crate::escapes::unescaped;
use crate::expanding::Expander;
use crate::findings::Findings;
use crate::json::Json;
use crate::line::{Line, column_behind};
use crate::macros::Definition;
use crate::opened::{LONE_RETURN, OpenFile, ZERO_BYTE};
use crate::token::Token;
use ioc_dblex::{lacks, skip_gap, unescaped as unescaped_by_load};
use ioc_site::{Finding, Place, Word};
use std::alloc::{AllocError, Global};
use std::mem;

/// How many bytes the lines of all files may have with their macros replaced: 64 MiB.
const MOST_BYTES: u64 = 1 << 26;

/// The tokens of the files that are open. The last of these files is read first.
#[derive(Drop)]
pub struct Stream {
    /// What allocates.
    pub alloc: Global,
    open: Vec<OpenFile>,
    pub(crate) expander: Expander,
    /// What is found so far.
    pub findings: Findings,
    /// The next token, if it is made already.
    pub ahead: Option<Token>,
    /// What the lines of the next file are kept in.
    spare: Line,
}

impl Stream {
    /// Begins with no open file.
    pub fn new(alloc: Global) -> Self {
        Stream {
            alloc,
            open: Vec::new(alloc),
            expander: Expander::new(alloc, MOST_BYTES),
            findings: Findings::new(alloc),
            ahead: None,
            spare: Line::new(alloc),
        }
    }

    /// Begins to read a file, which is read up to its end before the files that are open, unless it is one of
    /// them. Returns whether it begins.
    ///
    /// # Errors
    ///
    /// [`AllocError`] if allocation fails.
    pub fn open_file(
        &mut self,
        number: u32,
        text: Vec<u8>,
        has_sets: bool,
    ) -> Result<bool, AllocError>
        ensures told { IfOk result (λ begins. begins ≡ not (is_among number self.old.open.items)) }
        ensures once { is_among number self.old.open.items ≡ true → OnOk result (self.new.open.items ≡ self.old.open.items) }
    {
        if self.is_open(number) {
            return Ok(false);
        }
        let line = mem::replace(&mut self.spare, Line::new(self.alloc));
        self.open.push(OpenFile::new(number, text, has_sets, line))?;
        Ok(true)
    }

    // Returns whether the file with this number is open.
    fn is_open(&self, number: u32) -> bool
        ensures { result ≡ is_among number self.now.open.items }
    {
        let mut rest = self.open.as_slice();
        while let [first, after @ ..] = rest {
            if first.number == number {
                return true;
            }
            rest = after;
        }
        false
    }

    /// Sets whether the files that are opened from now on are loaded alone: what a backslash and a bracket
    /// mean there is what they mean to the load of one text.
    pub fn set_alone(&mut self, is_alone: bool) {
        self.expander.is_alone = is_alone;
    }

    /// Returns whether the file is loaded alone.
    fn is_alone(&self) -> bool {
        self.expander.is_alone
    }

    /// Returns a name, a type or a path that is written so between quotes.
    ///
    /// # Errors
    ///
    /// [`AllocError`] if allocation fails.
    pub fn name_text(&self, written: Vec<u8>) -> Result<Vec<u8>, AllocError> {
        if self.is_alone() && !lacks(b'\\', &written) {
            unescaped_by_load(self.alloc, false, &written)
        } else {
            Ok(written)
        }
    }

    /// Returns a value that is written so between quotes.
    ///
    /// # Errors
    ///
    /// [`AllocError`] if allocation fails.
    pub fn value_text(&self, written: Vec<u8>) -> Result<Vec<u8>, AllocError> {
        if lacks(b'\\', &written) {
            Ok(written)
        } else if self.is_alone() {
            unescaped_by_load(self.alloc, true, &written)
        } else {
            unescaped(self.alloc, &written)
        }
    }

    /// Returns how many files are open.
    pub fn open_count(&self) -> usize {
        self.open.len()
    }

    /// Adds copies of definitions of macros, which take precedence.
    ///
    /// # Errors
    ///
    /// [`AllocError`] if allocation fails.
    pub fn define_all(&mut self, definitions: &[Definition]) -> Result<(), AllocError> {
        self.expander.macros.define_all(definitions)
    }

    /// Adds a definition of a macro, which takes precedence.
    ///
    /// # Errors
    ///
    /// [`AllocError`] if allocation fails.
    pub fn define(&mut self, definition: Definition) -> Result<(), AllocError> {
        self.expander.macros.define(definition)
    }

    /// Returns the number of definitions of macros.
    pub fn macro_count(&self) -> usize {
        self.expander.macros.count()
    }

    /// Drops the definitions of macros but the first ones, of this number.
    pub fn keep_macros(&mut self, count: usize) {
        self.expander.macros.keep(count);
    }

    /// Returns what was found.
    pub fn into_findings(self) -> Vec<Finding> {
        let Stream { findings, .. } = self;
        findings.into_list()
    }

    /// Reports bytes that no text has, and puts blanks in their place.
    fn check_bytes(&mut self, start: Place, written: &mut [u8]) -> Result<(), AllocError> {
        let mut place = start;
        let mut is_reported = false;
        for byte in written.iter_mut() {
            let text: &[u8] = match *byte {
                b'\r' => LONE_RETURN,
                0 => ZERO_BYTE,
                _ => b"",
            };
            if !text.is_empty() {
                *byte = b' ';
                if !is_reported {
                    is_reported = true;
                    self.findings.report(place, &[text])?;
                }
            }
            place.column = place.column.saturating_add(1);
        }
        Ok(())
    }

    /// Puts blanks in place of the comments of a file's line, which begins in one of C or doesn't, and reports
    /// those of C. In a substitution file, whose paths have slashes, these stand at the front of a line alone.
    /// Returns whether the next line begins in one.
    fn clear_comments(
        &mut self,
        file: &OpenFile,
        written: &mut Vec<u8>,
    ) -> Result<bool, AllocError> {
        if file.is_in_comment {
            let Some(end) = block_end(written) else {
                written.clear();
                return Ok(true);
            };
            clear(written.as_mut_slice(), 0, end);
        }
        for _ in 0..u64::MAX {
            let front = written.len().saturating_sub(skip_gap(written).len());
            let Some((at, comment)) = first_comment(self.alloc, written)? else {
                break;
            };
            if comment == Comment::Own {
                written.truncate(at);
                break;
            }
            if file.has_sets && at != front {
                break;
            }
            if self.pass_comment(file.start(), written, at, comment)? {
                return Ok(true);
            }
        }
        Ok(false)
    }

    /// Reports the comment of C at a byte of a line, and puts blanks in its place. Returns whether it goes
    /// on behind the line.
    fn pass_comment(
        &mut self,
        start: Place,
        written: &mut Vec<u8>,
        at: usize,
        comment: Comment,
    ) -> Result<bool, AllocError> {
        let column = column_behind(1, at);
        let place = Place { column, ..start };
        let text = b"no comment begins here; a comment begins with '#'";
        self.findings.report(place, &[text])?;
        let inside = at.saturating_add(2);
        let end = block_end(written.get(inside..).unwrap_or(&[]));
        match end {
            Some(end) if comment == Comment::Block => {
                clear(written.as_mut_slice(), at, inside.saturating_add(end));
                Ok(false)
            }
            _ => {
                written.truncate(at);
                Ok(comment == Comment::Block)
            }
        }
    }

    /// Reports what is wrong with the macros of a line.
    fn report_faults(&mut self, place: Place) -> Result<(), AllocError> {
        let faults = mem::replace(&mut self.expander.faults, Vec::new(self.alloc));
        for fault in faults {
            let place = Place {
                column: fault.column,
                ..place
            };
            self.findings.report_text(place, fault.text)?;
        }
        Ok(())
    }

    /// Defines the macros of `substitute "A=x,B=y"`, of which this is the text behind the word.
    fn substitute(&mut self, place: Place, text: &[u8]) -> Result<(), AllocError> {
        let quoted = match text.trim_ascii() {
            [b'"', inner @ .., b'"'] => inner,
            _ => {
                let text = b"substitute has no text in quotes; write substitute \"A=x,B=y\"";
                return self.findings.report(place, &[text]);
            }
        };
        let definitions = parse_definitions(self.alloc, quoted)?;
        if let Some(fault) = &definitions.fault {
            let parts = [
                b"'".as_slice(),
                fault.as_slice(),
                b"' defines no macro; write NAME=VALUE",
            ];
            self.findings.report(place, &parts)?;
        }
        self.expander.macros.define_all(definitions.list.as_slice())
    }

    /// Appends a line's text with its macros replaced, unless it is one that defines macros or is passed.
    fn add_replaced(
        &mut self,
        place: Place,
        code: &[u8],
        line: &mut Line,
    ) -> Result<(), AllocError> {
        let solid = skip_gap(code);
        if solid.starts_with(b"%") {
            return Ok(());
        }
        if let Some(text) = solid.strip_prefix(b"substitute")
            && matches!(text.first().copied(), Some(b' ' | b'\t' | b'"'))
            && (!self.is_alone() || text.trim_ascii().starts_with(b"\""))
        {
            return self.substitute(place, text);
        }
        self.expander.expand_line(code, line)?;
        self.report_faults(place)
    }

    /// Appends a file's line with its macros replaced and without its comments.
    fn add_line(&mut self, file: &mut OpenFile, line: &mut Line) -> Result<(), AllocError> {
        let start = file.start();
        if file.is_plain() {
            return self.add_uncommented(file, file.written(), line);
        }
        let mut written = file.written().to_vec(self.alloc)?;
        if !self.is_alone() {
            self.check_bytes(start, written.as_mut_slice())?;
        }
        file.is_in_comment = self.clear_comments(file, &mut written)?;
        self.add_uncommented(file, written.as_slice(), line)
    }

    /// Appends a file's line, which has no comment, with its macros replaced.
    fn add_uncommented(
        &mut self,
        file: &OpenFile,
        code: &[u8],
        line: &mut Line,
    ) -> Result<(), AllocError> {
        if file.has_sets {
            return line.push(code, 1, false);
        }
        self.add_replaced(file.start(), code, line)
    }

    /// Returns a file's name with its macros replaced, or `None` if they can't be. That is
    /// reported.
    ///
    /// # Errors
    ///
    /// [`AllocError`] if allocation fails.
    pub fn replaced_name(&mut self, name: &Word) -> Result<Option<Word>, AllocError> {
        let mut line = Line::new(self.alloc);
        self.expander.expand_line(name.text.as_slice(), &mut line)?;
        let faults = mem::replace(&mut self.expander.faults, Vec::new(self.alloc));
        let is_faulty = !faults.is_empty();
        for fault in faults {
            self.findings.report_text(name.place, fault.text)?;
        }
        if is_faulty {
            return Ok(None);
        }
        Ok(Some(Word {
            text: line.bytes,
            place: name.place,
            quoted: name.quoted,
        }))
    }

    /// Reports that lines have too many bytes, and ends all files.
    fn end_all(&mut self, place: Place) -> Result<(), AllocError> {
        self.open.truncate(0);
        let text = b"the lines up to here have more than 64 MiB; read fewer files at once";
        self.findings.report(place, &[text])
    }

    /// Goes to the next line of the last file. Returns whether there is one; if not, the file is ended.
    fn next_line(&mut self) -> Result<bool, AllocError> {
        let Some(mut file) = self.open.pop() else {
            return Ok(false);
        };
        let mut line = file.take_line(self.alloc);
        if !file.next_written() {
            self.spare = line;
            return Ok(false);
        }
        self.add_line(&mut file, &mut line)?;
        if self.expander.is_spent() {
            self.end_all(file.start())?;
            return Ok(false);
        }
        file.set_line(line);
        self.open.push(file)?;
        Ok(true)
    }

    /// Goes to the next byte that is no blank, on this line or on one behind it, and to the end of
    /// files that have none. Returns the byte.
    ///
    /// # Errors
    ///
    /// [`AllocError`] if allocation fails.
    pub fn next_byte(&mut self) -> Result<Option<u8>, AllocError> {
        for _ in 0..u64::MAX {
            let Some(file) = self.open.last_mut() else {
                break;
            };
            if let Some(byte) = file.skip_blanks() {
                return Ok(Some(byte));
            }
            self.next_line()?;
        }
        Ok(None)
    }

    /// Goes to the next byte, and returns whether a value in JSON begins there. A word in brackets is one
    /// for EPICS Base alone.
    ///
    /// # Errors
    ///
    /// [`AllocError`] if allocation fails.
    pub fn is_at_json(&mut self) -> Result<bool, AllocError> {
        let next = self.next_byte()?;
        let is_word = match self.open.last() {
            Some(file) => self.is_alone() && file.is_at_whole_word(),
            None => false,
        };
        Ok(next == Some(b'{') || (next == Some(b'[') && !is_word))
    }

    /// Returns whether a record begins with the line.
    fn is_at_record(&self) -> bool {
        match self.open.last() {
            Some(file) => file.begins_record(),
            None => false,
        }
    }

    /// Returns where the rest of the line begins, or `None` if no file is open.
    pub fn place(&self) -> Option<Place> {
        self.open.last().map(|file| file.place())
    }

    /// Reads JSON up to its end. Returns whether it has an end before the next record's statement.
    ///
    /// # Errors
    ///
    /// [`AllocError`] if allocation fails.
    pub fn read_json(&mut self, json: &mut Json) -> Result<bool, AllocError> {
        for _ in 0..u64::MAX {
            let Some(file) = self.open.last_mut() else {
                break;
            };
            if file.add_json(json)? {
                return Ok(!json.is_crossed);
            }
            if json.quote.is_some() {
                break;
            }
            json.text.push(b'\n')?;
            if !self.next_line()? || self.is_at_record() {
                break;
            }
        }
        Ok(false)
    }

    /// Makes the next token, if it isn't made yet.
    ///
    /// # Errors
    ///
    /// [`AllocError`] if allocation fails.
    pub fn look(&mut self) -> Result<(), AllocError> {
        if self.ahead.is_none()
            && self.next_byte()?.is_some()
            && let Some(file) = self.open.last_mut()
        {
            self.ahead = file.token(self.alloc)?;
        }
        Ok(())
    }
}
