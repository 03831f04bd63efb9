//! Audits of journals, read line by line.
ghost use Rattle.std.specs.Prelude.{IfOk, IfSome};
ghost use Rattle.std.specs.Prelude.{◌<◌};
ghost use Rattle.ioc_journal_audit.specs.Journal.{IsEnd, ReadsLine, Steps, Finds};

use crate::auditor::Auditor;
use crate::changes::Trace;
use crate::difference::Difference;
use ioc_journal_file::{LineError, parse};
use ioc_journal_lines::Seals;
use std::alloc::{AllocError, Global};
use std::io::{self, BufRead, Write};
use thiserror::Error;

/// Why an audit stopped before its end.
#[derive(Debug, Drop, Error)]
pub enum AuditFault {
    /// The journal couldn't be read.
    #[error("the journal can't be read: {0}")]
    Read(io::Error),
    /// A change couldn't be written.
    #[error("a change can't be written: {0}")]
    Write(io::Error),
    /// Allocation failed.
    #[error("out of memory")]
    Memory,
}

impl From<AllocError> for AuditFault {
    fn from(_e: AllocError) -> AuditFault {
        AuditFault::Memory
    }
}

/// What an audit has found.
#[derive(Drop)]
pub enum Audited {
    /// So many entries agree.
    Agree(u64),
    /// The entry on this line, from 1 on, is the first one that differs.
    Differs(u64, Difference),
    /// This line, from 1 on, is no entry.
    NoEntry(u64),
    /// So many entries agree, and the line behind them lacks its line feed: it is the last one, and
    /// wasn't written to its end.
    CutOff(u64),
}

/// The line that was read last, and the hash of those before it, if the journal has seals.
#[derive(Drop)]
pub struct LastLine {
    pub text: Vec<u8>,
    pub seals: Option<Seals>,
}

impl LastLine {
    /// No line was read yet.
    pub fn new(alloc: Global) -> Self {
        LastLine {
            text: Vec::new(alloc),
            seals: None,
        }
    }

    /// Covers the line that was read last, if the journal has seals.
    pub(crate) fn cover(&mut self) {
        cover(&mut self.seals, self.text.as_slice());
    }
}

// Covers a line, if the journal has seals.
fn cover(seals: &mut Option<Seals>, line: &[u8]) {
    if let Some(seals) = seals {
        seals.cover(line);
    }
}

// What comes of a line of a journal.
#[derive(Drop)]
enum Step {
    Agrees,
    Differs(Difference),
    NoEntry,
}

// Checks the entry of a line, which comes with its line feed.
fn check_line(alloc: Global, auditor: &mut Auditor, text: &[u8]) -> Result<Step, AuditFault>
    ensures { IfOk result (Steps auditor.old text.now auditor.new) }
{
    match parse(text, alloc) {
        Ok(line) => match auditor.check(line)? {
            None => Ok(Step::Agrees),
            Some(difference) => Ok(Step::Differs(difference)),
        },
        Err(LineError::NotALine) => Ok(Step::NoEntry),
        Err(LineError::NoMemory) => Err(AuditFault::Memory),
    }
}

// What is found where the line behind so many entries that agree is no entry.
fn ended(count: u64, text: &[u8]) -> Audited
    requires { count < 18446744073709551615 }
    ensures { IsEnd count text.now result }
{
    match text {
        [.., b'\n'] => Audited::NoEntry(count + 1),
        _ => Audited::CutOff(count),
    }
}

/// Reads the next line of a journal, with its line feed. Returns whether there is one.
pub(crate) fn next_line<R: BufRead>(journal: &mut R, text: &mut Vec<u8>) -> Result<bool, AuditFault>
    ensures { IfOk result (λ some. IfSome (R.remaining journal.old) (λ rest. ReadsLine rest some text.new.items
        (R.remaining journal.new))) }
{
    text.clear();
    match journal.read_until(b'\n', text) {
        Ok(_) => Ok(!text.as_slice().is_empty()),
        Err(e) => Err(AuditFault::Read(e)),
    }
}

// Writes what the entry of a line changes of traced records and of watched fields.
fn trace_line<W: Write>(
    alloc: Global,
    auditor: &Auditor,
    trace: &mut Option<Trace>,
    text: &[u8],
    out: &mut W,
) -> Result<(), AuditFault> {
    let Some(trace) = trace else {
        return Ok(());
    };
    let mut said = Vec::new(alloc);
    trace.add_changes(alloc, auditor.map(), text, &mut said)?;
    match out.write_all(said.as_slice()) {
        Ok(()) => Ok(()),
        Err(e) => Err(AuditFault::Write(e)),
    }
}

/// Checks the entries of a journal until its end, or as many as `most`, or until one differs or a line
/// is no entry, which is then the one that was read last. What the entries change of traced records and
/// of watched fields is written.
///
/// # Errors
///
/// [`AuditFault::Read`] if a read fails, [`AuditFault::Write`] if a write fails, and
/// [`AuditFault::Memory`] if allocation fails.
pub fn audit<R: BufRead, W: Write>(
    alloc: Global,
    auditor: &mut Auditor,
    journal: &mut R,
    last: &mut LastLine,
    most: u64,
    trace: &mut Option<Trace>,
    out: &mut W,
) -> Result<Audited, AuditFault>
    ensures { IfOk result (λ found. IfSome (R.remaining journal.old) (λ text.
        Finds auditor.old text most auditor.new found)) }
{
    let LastLine { text, seals } = last;
    let mut count = 0;
    while count < most {
        if !next_line(journal, text)? {
            return Ok(Audited::Agree(count));
        }
        match check_line(alloc, auditor, text.as_slice())? {
            Step::Agrees => {}
            Step::Differs(difference) => return Ok(Audited::Differs(count + 1, difference)),
            Step::NoEntry => return Ok(ended(count, text.as_slice())),
        }
        trace_line(alloc, auditor, trace, text.as_slice(), out)?;
        cover(seals, text.as_slice());
        count += 1;
    }
    Ok(Audited::Agree(count))
}
