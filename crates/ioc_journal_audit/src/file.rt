//! Audits of the files of journals: their headers, the saved values that their runs have taken, their
//! entries, their seals and their ends.
use crate::auditor::Auditor;
use crate::bases::{Bases, first_byte, read_bases};
use crate::changes::Trace;
use crate::items::{Items, read_items};
use crate::journal::{AuditFault, Audited, LastLine, audit, next_line};
use ioc_journal_file::{BaseItem, NextFile, next_of};
use ioc_journal_lines::{Header, Seals, end_of, header_of, seal_of};
use ioc_saved::SavedValue;
use std::alloc::Global;
use std::io::{BufRead, Write};

/// How the file of a journal ends.
#[derive(Clone, Copy, Debug, PartialEq, Eq)]
pub enum Tail {
    /// With the end of its run.
    Ended,
    /// With the name of the file in which the journal goes on.
    GoesOn,
    /// Without the end of its run.
    Running,
    /// With the end of its run or the name of the next file, but without a seal behind it.
    Unsealed,
    /// It has no header, and so nothing is known.
    Unknown,
    /// The audit stopped before.
    NotSeen,
}

/// The lines of a journal's file that are no entries.
#[derive(Clone, Copy)]
pub struct Frame {
    /// The place of the first entry.
    pub first: u64,
    /// How many entries there are before the line that was read last.
    pub entries: u64,
    /// How many lines before it are no entries.
    pub others: u64,
    /// How many of these are seals.
    pub seals: u64,
    /// How many entries stand behind the last seal.
    pub unsealed: u64,
    pub has_header: bool,
    /// Whether each record with a device link had a device of its own.
    pub has_own_devices: bool,
    pub is_sealed: bool,
    pub tail: Tail,
    /// The file in which the journal goes on, if it does.
    pub next: Option<NextFile>,
}

/// Why a file isn't the journal of a database.
#[derive(Clone, Copy, Debug, PartialEq, Eq)]
pub enum FileFault {
    /// There is no line.
    Empty,
    /// It is the journal of another database, whose text and macros have this hash.
    OtherDatabase([u8; 32]),
    /// The lines before the seal on this line aren't those that were sealed.
    Seal(u64),
    /// The end on this line, or the name of the next file, isn't behind the entries up to this place.
    End(u64, u64),
    /// This line stands behind the end.
    BehindEnd(u64),
}

/// What an audit of a file has found.
#[derive(Drop)]
pub enum FileFound {
    /// Its entries were checked. The lines of the file are counted from 1 on.
    Checked(Audited, Frame),
    Fault(FileFault),
}

/// The file of a journal up to its first entry.
#[derive(Drop)]
pub struct FileBegun {
    /// The saved values that its run has taken, in their order. The first one stands on line 2, and each
    /// of the others on the line behind the one before it.
    pub bases: Vec<SavedValue>,
    /// The lines of the base with which the file begins, if it goes on behind an earlier one. The first
    /// one stands on line 2.
    pub items: Vec<BaseItem>,
    last: LastLine,
    frame: Frame,
    // What was found, if no entries are to be checked.
    found: Option<FileFound>,
}

// What a line is that is no entry.
#[derive(Clone, Copy)]
enum Other {
    Seal,
    End(Tail),
    Fault(FileFault),
    Unknown,
}

impl Frame {
    // Nothing was read of a file without a header.
    fn without_header() -> Self {
        Frame {
            first: 0,
            entries: 0,
            others: 0,
            seals: 0,
            unsealed: 0,
            has_header: false,
            has_own_devices: false,
            is_sealed: false,
            tail: Tail::NotSeen,
            next: None,
        }
    }

    // The line of a header was read, and nothing behind it.
    fn behind(header: &Header) -> Self {
        Frame {
            first: header.first,
            others: 1,
            has_header: true,
            has_own_devices: header.has_own_devices,
            is_sealed: header.is_sealed,
            ..Frame::without_header()
        }
    }

    /// Returns the place behind the last entry.
    pub fn place(&self) -> u64 {
        self.first.saturating_add(self.entries)
    }

    // Returns how the file ends if no end stands behind its entries.
    fn without_end(&self) -> Tail {
        if self.has_header {
            Tail::Running
        } else {
            Tail::Unknown
        }
    }

    // Returns the number of the line that was read last.
    fn line(&self) -> u64 {
        self.entries.saturating_add(self.others).saturating_add(1)
    }

    // Counts these entries.
    fn count(&mut self, entries: u64) {
        self.entries = self.entries.saturating_add(entries);
        self.unsealed = self.unsealed.saturating_add(entries);
    }

    // Counts the lines of saved values or of a base behind a header. Returns what was found if the line
    // behind them begins as they do and is none.
    fn take_lines(&mut self, count: usize, is_broken: bool, last: &LastLine) -> Option<FileFound> {
        self.others = self.others.saturating_add(count as u64);
        if !is_broken {
            return None;
        }
        let audited = match last.text.as_slice() {
            [.., b'\n'] => Audited::NoEntry(0),
            _ => Audited::CutOff(0),
        };
        Some(self.found(audited))
    }

    // Counts a seal, if it is that of the lines before it.
    fn take_seal(&mut self, last: &mut LastLine, hash: &[u8; 32]) -> Result<Other, AuditFault> {
        let Some(seals) = &last.seals else {
            return Ok(Other::Unknown);
        };
        if *hash != seals.hash()? {
            return Ok(Other::Fault(FileFault::Seal(self.line())));
        }
        last.cover();
        self.others = self.others.saturating_add(1);
        self.seals = self.seals.saturating_add(1);
        self.unsealed = 0;
        Ok(Other::Seal)
    }

    // Counts the end of a run or the name of the next file, if it stands behind these entries.
    fn take_end(&mut self, last: &mut LastLine, place: u64, tail: Tail) -> Other {
        if place != self.place() {
            return Other::Fault(FileFault::End(self.line(), self.place()));
        }
        last.cover();
        self.others = self.others.saturating_add(1);
        Other::End(tail)
    }

    // Returns what the line that was read last is, and counts it.
    fn other(&mut self, alloc: Global, last: &mut LastLine) -> Result<Other, AuditFault> {
        if self.is_sealed
            && let Some(hash) = seal_of(alloc, &last.text)?
        {
            return self.take_seal(last, &hash);
        }
        if self.has_header
            && let Some(place) = end_of(alloc, &last.text)?
        {
            return Ok(self.take_end(last, place, Tail::Ended));
        }
        if self.has_header
            && let Some(next) = next_of(alloc, &last.text)?
        {
            let place = next.place;
            self.next = Some(next);
            return Ok(self.take_end(last, place, Tail::GoesOn));
        }
        Ok(Other::Unknown)
    }

    // Returns what an audit of the entries behind the last other line has found, in lines of the file.
    fn found(&mut self, audited: Audited) -> FileFound {
        let audited = match audited {
            Audited::Agree(count) => {
                self.count(count);
                Audited::Agree(self.entries)
            }
            Audited::Differs(line, difference) => {
                self.count(line.saturating_sub(1));
                Audited::Differs(self.line(), difference)
            }
            Audited::NoEntry(_) => Audited::NoEntry(self.line()),
            Audited::CutOff(count) => {
                self.count(count);
                Audited::CutOff(self.entries)
            }
        };
        FileFound::Checked(audited, *self)
    }
}

// Reads what follows the end of a run or the name of the next file: the last seal, if the journal has
// seals, and nothing else.
fn end<R: BufRead>(
    alloc: Global,
    journal: &mut R,
    last: &mut LastLine,
    frame: &mut Frame,
    tail: Tail,
) -> Result<FileFound, AuditFault> {
    frame.tail = tail;
    if frame.is_sealed {
        if !next_line(journal, &mut last.text)? {
            frame.tail = Tail::Unsealed;
            return Ok(FileFound::Checked(Audited::Agree(frame.entries), *frame));
        }
        let Some(hash) = seal_of(alloc, &last.text)? else {
            return Ok(FileFound::Fault(FileFault::BehindEnd(frame.line())));
        };
        if let Other::Fault(fault) = frame.take_seal(last, &hash)? {
            return Ok(FileFound::Fault(fault));
        }
    }
    if next_line(journal, &mut last.text)? {
        return Ok(FileFound::Fault(FileFault::BehindEnd(frame.line())));
    }
    Ok(FileFound::Checked(Audited::Agree(frame.entries), *frame))
}

// What the first line of a file is.
#[derive(Drop)]
enum Begun {
    Frame(Frame),
    Found(FileFound),
}

// Reads the header of a file, if it has one.
fn begin<R: BufRead>(
    alloc: Global,
    journal: &mut R,
    last: &mut LastLine,
    database: &[u8; 32],
) -> Result<Begun, AuditFault> {
    match first_byte(journal)? {
        None => return Ok(Begun::Found(FileFound::Fault(FileFault::Empty))),
        Some(b'0'..=b'9') => return Ok(Begun::Frame(Frame::without_header())),
        Some(_) => {}
    }
    next_line(journal, &mut last.text)?;
    let Some(header) = header_of(alloc, &last.text)? else {
        let audited = match last.text.as_slice() {
            [.., b'\n'] => Audited::NoEntry(1),
            _ => Audited::CutOff(0),
        };
        return Ok(Begun::Found(FileFound::Checked(audited, Frame::without_header())));
    };
    if header.database != *database {
        let fault = FileFault::OtherDatabase(header.database);
        return Ok(Begun::Found(FileFound::Fault(fault)));
    }
    let frame = Frame::behind(&header);
    if header.is_sealed {
        last.seals = Some(Seals::new());
    }
    last.cover();
    Ok(Begun::Frame(frame))
}

// Reads the lines behind a header: those of a base if the file goes on behind an earlier one, or else
// the saved values that the run has taken.
fn begin_entries<R: BufRead>(
    alloc: Global,
    journal: &mut R,
    last: LastLine,
    frame: Frame,
) -> Result<FileBegun, AuditFault> {
    let (mut last, mut frame) = (last, frame);
    if frame.first == 0 {
        let Bases { values, is_broken } = read_bases(alloc, journal, &mut last)?;
        let found = frame.take_lines(values.len(), is_broken, &last);
        return Ok(FileBegun {
            bases: values,
            items: Vec::new(alloc),
            last,
            frame,
            found,
        });
    }
    let Items { items, is_broken } = read_items(alloc, journal, &mut last)?;
    let found = frame.take_lines(items.len(), is_broken, &last);
    Ok(FileBegun {
        bases: Vec::new(alloc),
        items,
        last,
        frame,
        found,
    })
}

/// Reads the file of a journal up to its first entry: its header, which has to be that of the database
/// with this hash, and the saved values that its run has taken, or the base with which it begins.
///
/// # Errors
///
/// [`AuditFault::Read`] if a read fails, and [`AuditFault::Memory`] if allocation fails.
pub fn begin_file<R: BufRead>(
    alloc: Global,
    journal: &mut R,
    database: &[u8; 32],
) -> Result<FileBegun, AuditFault> {
    let mut last = LastLine::new(alloc);
    let (frame, found) = match begin(alloc, journal, &mut last, database)? {
        Begun::Frame(frame) => (frame, None),
        Begun::Found(found) => (Frame::without_header(), Some(found)),
    };
    if frame.has_header && found.is_none() {
        return begin_entries(alloc, journal, last, frame);
    }
    Ok(FileBegun {
        bases: Vec::new(alloc),
        items: Vec::new(alloc),
        last,
        frame,
        found,
    })
}

impl FileBegun {
    /// Returns the place of the first entry. It is above 0 exactly if the file goes on behind an earlier
    /// one.
    pub fn first(&self) -> u64 {
        self.frame.first
    }

    /// Returns whether each record with a device link had a device of its own. Otherwise a device that
    /// several records name was that of the first one.
    pub fn has_own_devices(&self) -> bool {
        self.frame.has_own_devices
    }

    /// Returns whether something is found already, so that no entries are to be checked.
    pub fn is_found(&self) -> bool {
        self.found.is_some()
    }
}

/// Audits the file of a journal that was begun, on a database that has the saved values, as [`audit`]
/// does its entries: each seal is that of the lines before it, and its end, if it has one, is that of the
/// entries before it and the last line, or the last but its seal.
///
/// # Errors
///
/// As [`audit`].
pub fn audit_file<R: BufRead, W: Write>(
    alloc: Global,
    auditor: &mut Auditor,
    begun: FileBegun,
    journal: &mut R,
    most: u64,
    trace: &mut Option<Trace>,
    out: &mut W,
) -> Result<FileFound, AuditFault> {
    let FileBegun {
        bases: _values,
        items: _items,
        mut last,
        mut frame,
        found,
    } = begun;
    if let Some(found) = found {
        return Ok(found);
    }
    for _ in 0..u64::MAX {
        let left = most.saturating_sub(frame.entries);
        let audited = audit(alloc, auditor, journal, &mut last, left, trace, out)?;
        match audited {
            Audited::NoEntry(line) => frame.count(line.saturating_sub(1)),
            Audited::Agree(count) if count < left => {
                frame.tail = frame.without_end();
                return Ok(frame.found(audited));
            }
            other => return Ok(frame.found(other)),
        }
        match frame.other(alloc, &mut last)? {
            Other::Seal => {}
            Other::End(tail) => return end(alloc, journal, &mut last, &mut frame, tail),
            Other::Fault(fault) => return Ok(FileFound::Fault(fault)),
            Other::Unknown => return Ok(frame.found(Audited::NoEntry(0))),
        }
    }
    Ok(FileFound::Checked(Audited::Agree(frame.entries), frame))
}
