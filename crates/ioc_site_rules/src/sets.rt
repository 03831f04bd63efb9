//! The lock sets of a site: the records that links join.
use ioc_graph::{Edge, are_below, parts_of_all};
use ioc_names::RecordNo;
use ioc_site::Reading;
use ioc_site_fields::gather;
use ioc_site_links::{Followed, Lead, follow_links};
use ioc_site_records::{Report, Site, SiteRecord};
use std::alloc::{AllocError, Global};
use std::cmp::Reverse;

/// The records of a lock set by their numbers.
pub type LockSet = Vec<usize>;

// Returns for each of the records the number of the first record of its lock set.
fn first_records(
    alloc: Global,
    leads: &[Lead<'_>],
    count: usize,
) -> Result<Vec<usize>, AllocError> {
    let mut edges = Vec::new(alloc);
    for lead in leads {
        let (from, to) = (RecordNo::new(lead.from), RecordNo::new(lead.to));
        edges.push(Edge { from, to })?;
    }
    if are_below(edges.as_slice(), count) {
        parts_of_all(alloc, edges.as_slice(), count)
    } else {
        Ok(Vec::new(alloc))
    }
}

/// Returns the lock sets of this many records, in the order of their first records.
///
/// # Errors
///
/// [`AllocError`] if allocation fails.
pub fn lock_sets(
    alloc: Global,
    leads: &[Lead<'_>],
    count: usize,
) -> Result<Vec<LockSet>, AllocError> {
    let firsts = first_records(alloc, leads, count)?;
    let mut sets: Vec<LockSet> = Vec::new(alloc);
    let mut places = vec![in alloc; 0usize; count]?;
    for (record, first) in firsts.iter().enumerate() {
        if *first == record {
            if let Some(place) = places.get_mut(record) {
                *place = sets.len();
            }
            sets.push(Vec::new(alloc))?;
        }
        let place = places.get(*first).copied().unwrap_or(0);
        if let Some(set) = sets.get_mut(place) {
            set.push(record)?;
        }
    }
    Ok(sets)
}

// Appends how many records a lock set has.
fn add_count(alloc: Global, count: usize, out: &mut Vec<u8>) -> Result<(), AllocError> {
    if count == 1 {
        return out.extend_from_slice(b"1 record:");
    }
    let head = format!(in alloc; "{count} records:")?;
    out.extend_from_slice(head.as_bytes())
}

// Appends the name of a record.
fn add_name(record: &SiteRecord<'_>, out: &mut Vec<u8>) -> Result<(), AllocError> {
    out.push(b' ')?;
    out.extend_from_slice(record.name.text.as_slice())
}

// Appends the line of a lock set.
fn add_set(
    alloc: Global,
    site: &Site<'_>,
    set: &LockSet,
    out: &mut Vec<u8>,
) -> Result<(), AllocError> {
    add_count(alloc, set.len(), out)?;
    for number in set.iter() {
        if let Some(record) = site.records.get(*number) {
            add_name(record, out)?;
        }
    }
    out.push(b'\n')?;
    Ok(())
}

/// Appends a line for each lock set of the records that the statements give, the largest first, as
/// `3 records: a b c`.
///
/// # Errors
///
/// [`AllocError`] if allocation fails.
pub fn add_sets(alloc: Global, reading: &Reading, out: &mut Vec<u8>) -> Result<(), AllocError> {
    let mut report = Report::new(alloc, reading)?;
    let site = gather(reading, &mut report)?;
    let Followed { leads, .. } = follow_links(&site, &mut report)?;
    let mut sets = lock_sets(alloc, leads.as_slice(), site.records.len())?;
    sets.as_mut_slice()
        .sort_by_key(alloc, |set| Reverse(set.len()))?;
    for set in sets.iter() {
        add_set(alloc, &site, set, out)?;
    }
    Ok(())
}
