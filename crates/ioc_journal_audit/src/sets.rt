//! The lock sets of a database.
use ioc_commands::{add_to_set, begin_set, begin_sets, end_set, end_sets};
use ioc_fields::FieldNo;
use ioc_graph::{Edge, are_below, followers, parts_of_all};
use ioc_names::RecordNo;
use ioc_record::RecordKind;
use rec_types::Record;
use std::alloc::{AllocError, Global};

// Returns the record that a link field leads to, if there is one.
fn target_of(record: &Record, field: FieldNo) -> Option<RecordNo> {
    match record.link(field) {
        Some(link) => link.record_named(),
        None => None,
    }
}

// Adds an edge for each link of a record that leads to a record.
fn add_edges(edges: &mut Vec<Edge>, number: RecordNo, record: &Record) -> Result<(), AllocError> {
    for field in record.link_fields() {
        if let Some(target) = target_of(record, *field) {
            edges.push(Edge {
                from: number,
                to: target,
            })?;
        }
    }
    Ok(())
}

// Returns an edge for each link between these records, which are numbered from 0 on.
fn edges_of(alloc: Global, records: &[Record]) -> Result<Vec<Edge>, AllocError> {
    let mut edges = Vec::new(alloc);
    for number in 0..records.len() {
        add_edges(&mut edges, RecordNo::new(number), &records[number])?;
    }
    Ok(edges)
}

// Appends the names of a set, from its first record on. `next` has the record that follows each.
fn add_set(
    out: &mut Vec<u8>,
    records: &[Record],
    next: &[usize],
    first: usize,
) -> Result<(), AllocError> {
    let mut number = first;
    for _ in records {
        let (Some(record), Some(follower)) = (records.get(number), next.get(number)) else {
            break;
        };
        let name = record.common().name.as_slice();
        if number == first {
            begin_set(out, name)?;
        } else {
            add_to_set(out, name)?;
        }
        number = *follower;
    }
    end_set(out)
}

/// Appends a line with the sets of records that are joined by links, in the order of their first
/// records.
///
/// # Errors
///
/// [`AllocError`] if allocation fails.
pub fn add_sets(alloc: Global, records: &[Record], out: &mut Vec<u8>) -> Result<(), AllocError> {
    let edges = edges_of(alloc, records)?;
    begin_sets(out)?;
    if are_below(edges.as_slice(), records.len()) {
        let numbers = parts_of_all(alloc, edges.as_slice(), records.len())?;
        let next = followers(alloc, numbers.as_slice())?;
        for first in 0..numbers.len() {
            if numbers[first] == first {
                add_set(out, records, next.as_slice(), first)?;
            }
        }
    }
    end_sets(out)
}
