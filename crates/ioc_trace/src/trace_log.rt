//! The lines that were traced and aren't printed yet.
use crate::lines::{Line, ShownAlarm};
use std::alloc::{AllocError, Global};
use std::cell::RefCell;
use std::mem;
use std::rc::Rc;

// How many lines are kept until they are taken.
const MAX_LINES: u64 = 65_536;

#[derive(Drop)]
struct Lines {
    alloc: Global,
    text: Vec<u8>,
    // The lines of the text.
    kept: u64,
    // The lines for which there was no place.
    left_out: u64,
    // The alarms that records showed when their requests began, of the requests that are open, the
    // innermost last.
    open: Vec<ShownAlarm>,
    // Whether memory has run out.
    is_broken: bool,
}

impl Lines {
    fn new(alloc: Global) -> Self {
        Lines {
            alloc,
            text: Vec::new(alloc),
            kept: 0,
            left_out: 0,
            open: Vec::new(alloc),
            is_broken: false,
        }
    }

    fn append(&mut self, line: &[u8]) -> Result<(), AllocError> {
        self.text.extend_from_slice(line)?;
        self.text.push(b'\n')?;
        Ok(())
    }

    // Appends a line, if there is a place for it.
    fn add(&mut self, line: &[u8]) {
        if self.kept >= MAX_LINES {
            self.left_out = self.left_out.saturating_add(1);
            return;
        }
        self.kept = self.kept.saturating_add(1);
        if self.append(line).is_err() {
            self.is_broken = true;
        }
    }

    // Opens a request of a record that shows this alarm.
    fn open(&mut self, alarm: ShownAlarm) {
        if self.open.push(alarm).is_err() {
            self.is_broken = true;
        }
    }

    // Returns the lines, and keeps none.
    fn take(&mut self) -> Result<Vec<u8>, AllocError> {
        if self.left_out > 0 {
            let mut line = Line::new();
            line.extend_cut(b"  (");
            line.extend_cut(itoa::Buffer::new().format(self.left_out).as_bytes());
            line.extend_cut(b" more lines)");
            self.append(line.as_slice())?;
        }
        if self.is_broken {
            return Err(AllocError);
        }
        self.kept = 0;
        self.left_out = 0;
        Ok(mem::replace(&mut self.text, Vec::new(self.alloc)))
    }
}

/// The lines that were traced since they were last taken. What holds the log writes to the same
/// lines as what it was shared with.
#[derive(Drop)]
pub struct TraceLog {
    lines: Rc<RefCell<Lines>>,
}

impl TraceLog {
    /// A log without lines.
    ///
    /// # Errors
    ///
    /// [`AllocError`] if allocation fails.
    pub fn new(alloc: Global) -> Result<Self, AllocError> {
        match Rc::new(alloc, RefCell::new(Lines::new(alloc))) {
            Ok(lines) => Ok(TraceLog { lines }),
            Err(_) => Err(AllocError),
        }
    }

    /// Returns a log with the same lines.
    ///
    /// # Errors
    ///
    /// [`AllocError`] if the log is shared too often.
    pub fn share(&self) -> Result<Self, AllocError> {
        let lines = self.lines.clone()?;
        Ok(TraceLog { lines })
    }

    /// Appends a line. If there is no memory for it, that is told when the lines are taken.
    pub fn add(&self, line: &Line) {
        if let Ok(mut lines) = self.lines.try_borrow_mut() {
            lines.add(line.as_slice());
        }
    }

    /// Opens a request of a record that shows this alarm. What is traced until it is closed was
    /// caused by it.
    pub fn open(&self, alarm: ShownAlarm) {
        if let Ok(mut lines) = self.lines.try_borrow_mut() {
            lines.open(alarm);
        }
    }

    /// Returns the alarm that the record of the innermost open request showed when it was opened.
    pub fn innermost(&self) -> Option<ShownAlarm> {
        match self.lines.try_borrow() {
            Ok(lines) => lines.open.last().copied(),
            Err(_) => None,
        }
    }

    /// Closes the innermost open request.
    pub fn close(&self) {
        if let Ok(mut lines) = self.lines.try_borrow_mut() {
            lines.open.pop();
        }
    }

    /// Returns the number of open requests.
    pub fn depth(&self) -> usize {
        match self.lines.try_borrow() {
            Ok(lines) => lines.open.len(),
            Err(_) => 0,
        }
    }

    /// Returns the lines that were traced since they were last taken. If there were more than
    /// 65,536, the number of the others is the last line.
    ///
    /// # Errors
    ///
    /// [`AllocError`] if allocation fails, or has failed for a line.
    pub fn take(&self) -> Result<Vec<u8>, AllocError> {
        match self.lines.try_borrow_mut() {
            Ok(mut lines) => lines.take(),
            Err(_) => Err(AllocError),
        }
    }
}
