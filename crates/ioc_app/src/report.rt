//! What is written at the end of a run.
use crate::fault::RunFault;
use crate::journal::JournalWriter;
use crate::streams::Streams;
use ioc_engine::{Device, EngineName, Report, StoppedRecord};
use ioc_files::ReplaceFiles;
use ioc_listing::add_line;
use ioc_main::{LineReply, tally_line};
use std::alloc::{AllocError, Global};
use std::io::Write;

// Appends the lines of these records.
fn add_lines<D>(lines: &mut Vec<u8>, records: &[StoppedRecord<D>]) -> Result<(), AllocError> {
    for stopped in records {
        add_line(lines, &stopped.fields)?;
    }
    Ok(())
}

// Returns the records of a report in the order of their numbers.
fn records_of<B: EngineName<D>, D: Device>(
    alloc: Global,
    report: Report<B, D>,
) -> Result<Vec<StoppedRecord<D>>, AllocError> {
    let mut records = report.into_records(alloc)?;
    records.sort_unstable_by_key(|stopped| stopped.number.index());
    Ok(records)
}

// Returns the line of the counts of a report.
fn counts_of<B: EngineName<D>, D: Device>(report: &Report<B, D>) -> LineReply {
    let undone = report
        .items_undone()
        .saturating_add(report.requests_dropped());
    tally_line(&report.tally(), report.dropped().saturating_add(undone))
}

// Returns the place behind the last entry of a report.
fn place_of<B: EngineName<D>, D: Device>(report: &Report<B, D>) -> u64 {
    let mut place = report.first_place();
    for next in place..u64::MAX {
        if report.entry_at(next).is_none() {
            break;
        }
        place = next.saturating_add(1);
    }
    place
}

// Returns the lines of these records and of the counts.
fn lines_of<D>(
    alloc: Global,
    records: &[StoppedRecord<D>],
    counts: &LineReply,
) -> Result<Vec<u8>, AllocError> {
    let mut lines = Vec::new(alloc);
    add_lines(&mut lines, records)?;
    lines.extend_from_slice(counts.as_slice())?;
    Ok(lines)
}

// Writes the entries of a report's journal that aren't written yet, if the journal is kept. If the
// run has ended early since they couldn't be, no more are written. Returns why the run has ended
// early, if it has.
fn write_journal<B: EngineName<D>, D: Device, J: Write + Drop>(
    report: &Report<B, D>,
    ran: Result<(), RunFault>,
    journal: &mut Option<JournalWriter<J>>,
) -> Result<(), RunFault> {
    match (ran, journal) {
        (Err(RunFault::Journal(reason)), _) => Err(RunFault::Journal(reason)),
        (ran, Some(writer)) => {
            let written = writer.write_rest(report);
            ran?;
            written
        }
        (ran, None) => ran,
    }
}

/// Writes what a run leaves: the rest of the journal if it is kept, the values that are saved if any are,
/// and, unless the run has ended early, the journal's end, a line for each record, in the order of the
/// database text, and the line of the counts of requests.
///
/// # Errors
///
/// Why the run has ended early. [`RunFault::Journal`], [`RunFault::Write`] or [`RunFault::Save`] if a
/// write fails. [`RunFault::Memory`] if allocation fails, or has failed for a request of a scan, which
/// was left out then.
pub fn end<B: EngineName<D>, D: Device, W: Write + Drop, J: Write + Drop, R: ReplaceFiles>(
    rt: &R,
    alloc: Global,
    report: Report<B, D>,
    ran: Result<(), RunFault>,
    streams: &mut Streams<'_, W, J>,
) -> Result<(), RunFault> {
    let kept = write_journal(&report, ran, streams.journal());
    let is_complete = report.refused() == 0;
    let counts = counts_of(&report);
    let place = match streams.saving {
        Some(_) => place_of(&report),
        None => 0,
    };
    let records = records_of(alloc, report);
    let saved = match (&records, streams.saving) {
        (Ok(records), Some(saving)) => saving.save_last(rt, alloc, records, place),
        _ => Ok(()),
    };
    kept?;
    if !is_complete {
        return Err(RunFault::Memory);
    }
    let lines = lines_of(alloc, &records?, &counts)?;
    if let Some(writer) = streams.journal() {
        writer.write_end()?;
    }
    streams.write_last(&lines)?;
    saved
}
