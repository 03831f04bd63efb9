//! The parts that links make of a loaded database.
ghost use Rattle.std.specs.Prelude.{◌↔◌, IfOk, IfSome, IsSome};
ghost use Rattle.ioc_set_records.specs.Joined.{IsClosed};
ghost use Rattle.ioc_set_records.specs.Linked.{links_in, AreParts};
ghost use Rattle.ioc_set_records.specs.LoadedEdges.{AreEdges};

use crate::links::add_links;
use crate::loaded::Loaded;
use ioc_graph::{Edge, are_below, parts_of_all};
use ioc_names::RecordNo;
use ioc_record::RecordKind;
use std::alloc::{AllocError, Global};

// Returns the edges of all links.
fn edges_of<K: RecordKind, D>(alloc: Global, all: &[Loaded<K, D>]) -> Result<Vec<Edge>, AllocError>
    ensures { IfOk result (λ edges. AreEdges (links_in K.rules all.now) edges.items) }
{
    let mut edges = Vec::new(alloc);
    for (number, loaded) in all.iter().enumerate() {
        add_links(&mut edges, RecordNo::new(number), &loaded.fields)?;
    }
    Ok(edges)
}

/// Returns the number of its part for each record of a database: two records have the same number
/// if and only if links join them. Returns `None` if a link leads to no record. The cost is nearly
/// proportional to the number of records and links.
///
/// # Errors
///
/// [`AllocError`] if allocation fails.
pub fn parts_of<K: RecordKind, D>(
    alloc: Global,
    all: &[Loaded<K, D>],
) -> Result<Option<Vec<usize>>, AllocError>
    ensures parts { IfOk result (λ found. IfSome found (λ parts. AreParts K.rules all.now parts.items)) }
    ensures within { IfOk result (λ found. IsSome found ↔ IsClosed (links_in K.rules all.now)) }
{
    let edges = edges_of(alloc, all)?;
    if !are_below(&edges, all.len()) {
        return Ok(None);
    }
    let parts = parts_of_all(alloc, &edges, all.len())?;
    Ok(Some(parts))
}
