//! Records that process each other, and records that nothing processes.
use crate::links::{Followed, Lead};
use crate::scanning::{is_closed_loop, is_passive, is_processed_at_start, own_link};
use ioc_fields::{FieldSlot, OwnField, RecordType};
use ioc_links::Link;
use ioc_site_records::{Report, Shown, Site, SiteRecord};
use std::alloc::{AllocError, Global};
use std::fmt;

/// How many records of a cycle are named.
const MOST_NAMED: usize = 12;

/// How far a walk along links is with a record.
#[derive(Clone, Copy, PartialEq, Eq)]
enum Mark {
    New,
    /// It is at this place of the path.
    Open(usize),
    Done,
}

/// A record on the path of a walk.
#[derive(Clone, Copy)]
struct Step<'a> {
    record: usize,
    /// How many of its links the walk has taken.
    taken: usize,
    /// The link by which the walk came here.
    lead: Option<Lead<'a>>,
}

/// A walk along all links by which records request passive records.
#[derive(Drop)]
struct Walk<'s, 'a> {
    site: &'s Site<'a>,
    /// The links of each record.
    leads: Vec<Vec<Lead<'a>>>,
    marks: Vec<Mark>,
    path: Vec<Step<'a>>,
    /// How many turns the walk takes at most.
    turns: usize,
}

/// A cycle as it is shown: the names of its records with arrows between them.
#[derive(Clone, Copy)]
struct Cycle<'s, 'a> {
    site: &'s Site<'a>,
    steps: &'s [Step<'a>],
}

impl Cycle<'_, '_> {
    fn write_name<W: fmt::Write>(&self, number: usize, f: &mut fmt::Formatter<W>) -> fmt::Result {
        match self.site.records.get(number) {
            Some(record) => write!(f, "{}", Shown(record.name.text.as_slice())),
            None => Ok(()),
        }
    }
}

impl fmt::Display for Cycle<'_, '_> {
    fn fmt<W: fmt::Write>(&self, f: &mut fmt::Formatter<W>) -> fmt::Result {
        for step in self.steps.iter().take(MOST_NAMED) {
            self.write_name(step.record, f)?;
            f.write_str(" -> ")?;
        }
        if self.steps.len() > MOST_NAMED {
            f.write_str(".. -> ")?;
        }
        match self.steps.first() {
            Some(step) => self.write_name(step.record, f),
            None => Ok(()),
        }
    }
}

// Returns whether the link requests the record that it names.
fn requests(site: &Site<'_>, lead: &Lead<'_>) -> bool {
    let Some(record) = site.records.get(lead.to) else {
        return false;
    };
    lead.requests_always() || (lead.requests_passive() && is_passive(record))
}

impl<'s, 'a> Walk<'s, 'a> {
    fn new(site: &'s Site<'a>, leads: &[Lead<'a>], report: &Report) -> Result<Self, AllocError> {
        let alloc = report.alloc;
        let count = site.records.len();
        let mut of_records = Vec::new(alloc);
        for _ in 0..count {
            of_records.push(Vec::new(alloc))?;
        }
        for lead in leads {
            if requests(site, lead)
                && let Some(of_record) = of_records.get_mut(lead.from)
            {
                of_record.push(*lead)?;
            }
        }
        Ok(Walk {
            site,
            leads: of_records,
            marks: vec![in alloc; Mark::New; count]?,
            path: Vec::new(alloc),
            turns: count.saturating_add(leads.len()).saturating_add(1),
        })
    }

    // Goes to a record that the walk has not been at.
    fn open(&mut self, record: usize, lead: Option<Lead<'a>>) -> Result<(), AllocError> {
        if let Some(mark) = self.marks.get_mut(record) {
            *mark = Mark::Open(self.path.len());
        }
        self.path.push(Step {
            record,
            taken: 0,
            lead,
        })?;
        Ok(())
    }

    // Reports the cycle that the link closes, from the record at this place of the path on.
    fn report_cycle(
        &self,
        place: usize,
        lead: &Lead<'a>,
        report: &mut Report,
    ) -> Result<(), AllocError> {
        let Some(steps) = self.path.get(place..) else {
            return Ok(());
        };
        let onward = match steps.get(1) {
            Some(step) => step.lead.unwrap_or(*lead),
            None => *lead,
        };
        let site = self.site;
        let cycle = Cycle { site, steps };
        let text = format!(in report.alloc; "records process each other in a cycle: {cycle}")?;
        report.warning(onward.word.place, text)
    }

    // Returns the link of a record that the walk takes after so many others.
    fn lead_at(&self, record: usize, taken: usize) -> Option<Lead<'a>> {
        let of_record = self.leads.get(record)?;
        of_record.get(taken).copied()
    }

    // Leaves the record at the end of the path.
    fn leave(&mut self, record: usize) {
        if let Some(mark) = self.marks.get_mut(record) {
            *mark = Mark::Done;
        }
        self.path.pop();
    }

    // Takes the next link of the record at the end of the path, or leaves the record. Returns
    // whether there is a path.
    fn turn(&mut self, report: &mut Report) -> Result<bool, AllocError> {
        let Some(step) = self.path.last_mut() else {
            return Ok(false);
        };
        let (record, taken) = (step.record, step.taken);
        step.taken = taken.saturating_add(1);
        let Some(lead) = self.lead_at(record, taken) else {
            self.leave(record);
            return Ok(true);
        };
        match self.marks.get(lead.to).copied() {
            Some(Mark::New) => self.open(lead.to, Some(lead))?,
            Some(Mark::Open(place)) => self.report_cycle(place, &lead, report)?,
            Some(Mark::Done) | None => {}
        }
        Ok(true)
    }

    // Walks from the record to all that it leads to.
    fn walk_from(&mut self, record: usize, report: &mut Report) -> Result<(), AllocError> {
        if self.marks.get(record).copied() != Some(Mark::New) {
            return Ok(());
        }
        self.open(record, None)?;
        for _ in 0..self.turns {
            if !self.turn(report)? {
                return Ok(());
            }
        }
        Ok(())
    }
}

/// Reports the cycles of links by which records process each other.
///
/// # Errors
///
/// [`AllocError`] if allocation fails.
pub fn check_cycles(
    site: &Site<'_>,
    leads: &[Lead<'_>],
    report: &mut Report,
) -> Result<(), AllocError> {
    let mut walk = Walk::new(site, leads, report)?;
    for record in 0..site.records.len() {
        walk.walk_from(record, report)?;
    }
    Ok(())
}

// Returns whether a link that is there leads to a record or a device.
fn leads_on(link: Option<Link>) -> bool {
    matches!(link, Some(Link::Device(_) | Link::Database(..)))
}

// Returns whether one of INPA to INPL leads to a record.
fn has_input(record: &SiteRecord<'_>) -> bool {
    for index in 0..12 {
        if let Some(slot) = FieldSlot::from_index(index)
            && leads_on(own_link(record, OwnField::InputLink(slot)))
        {
            return true;
        }
    }
    false
}

// Returns whether the record has something to do that only processing does: an input reads its
// INP, an output follows its DOL, a calc, calcout or sel reads its inputs, and a fanout processes
// other records. A put to VAL, or to one of A to L, processes any other record.
fn has_work(record: &SiteRecord<'_>, record_type: RecordType) -> bool {
    match record_type {
        RecordType::Fanout => true,
        RecordType::Calc | RecordType::Calcout | RecordType::Sel => has_input(record),
        _ if record_type.reads_device() => leads_on(own_link(record, OwnField::Inp)),
        _ => is_closed_loop(record) && leads_on(own_link(record, OwnField::Dol)),
    }
}

// Returns the record that a text would lead to as a link.
fn named_by(site: &Site<'_>, text: &[u8]) -> Option<usize> {
    let solid = text.trim_ascii_start();
    let end = solid.iter().position(|byte| b" \t.".contains(byte));
    let name = solid.get(..end.unwrap_or(solid.len()))?;
    Some(site.find(name)?.record)
}

// Returns for each record whether a link requests it, or may be meant to.
fn requested(
    site: &Site<'_>,
    followed: &Followed<'_>,
    alloc: Global,
) -> Result<Vec<bool>, AllocError> {
    let mut all = vec![in alloc; false; site.records.len()]?;
    for lead in followed.leads.iter() {
        if requests(site, lead) {
            mark_place(all.as_mut_slice(), lead.to);
        }
    }
    for record in followed.meant.iter() {
        mark_place(all.as_mut_slice(), *record);
    }
    for word in site.suspects.iter() {
        if let Some(record) = named_by(site, word.text.as_slice()) {
            mark_place(all.as_mut_slice(), record);
        }
    }
    Ok(all)
}

// Marks one of the places.
fn mark_place(all: &mut [bool], place: usize) {
    if let Some(is_marked) = all.get_mut(place) {
        *is_marked = true;
    }
}

/// Reports records that have something to do and that nothing processes. Where not all of the text could
/// be read nothing is reported: it may have what processes them.
///
/// # Errors
///
/// [`AllocError`] if allocation fails.
pub fn check_unprocessed(
    site: &Site<'_>,
    followed: &Followed<'_>,
    report: &mut Report,
) -> Result<(), AllocError> {
    if report.lacks_records || site.lacks_entries {
        return Ok(());
    }
    let all = requested(site, followed, report.alloc)?;
    for (record, is_requested) in site.records.iter().zip(all.iter()) {
        let Some(record_type) = record.record_type else {
            continue;
        };
        let waits = is_passive(record) && !is_processed_at_start(record) && !*is_requested;
        if waits && !record.is_faulty && has_work(record, record_type) {
            let shown = Shown(record.name.text.as_slice());
            let text = format!(in report.alloc;
                "nothing processes record {shown}: its SCAN is Passive, and no FLNK or PP names it"
            )?;
            report.warning(record.name.place, text)?;
        }
    }
    Ok(())
}
