//! The connected parts of a graph.
ghost use Rattle.std.specs.Prelude.{◌≡◌, ◌<◌, length, slice_index, All, Contains, IfOk, IsTrue, ◌↔◌};
ghost use Rattle.std.specs.List.Sorted.{IsStrictlyIncreasing};
ghost use Rattle.ioc_graph.specs.Parts.{ArePartsOf, all_below};
ghost use Rattle.ioc_graph.specs.Members.{part_numbers};

use crate::forest::{each_alone, join, settle};
use ioc_names::RecordNo;
use std::alloc::{AllocError, Global};

/// Two records that are joined by a link.
#[derive(Clone, Copy, PartialEq, Eq, Debug)]
pub struct Edge {
    pub from: RecordNo,
    pub to: RecordNo,
}

// Returns the index of the node, by binary search.
fn place_of(nodes: &[RecordNo], node: RecordNo) -> usize
    requires ascending { IsStrictlyIncreasing nodes.now }
    requires there { Contains nodes.now node }
    ensures within { result < length nodes.now }
    ensures found { slice_index nodes.now result ≡ node }
{
    let mut low = 0;
    let mut high = nodes.len();
    while low + 1 < high {
        let middle = low + (high - low) / 2;
        if nodes[middle].index() <= node.index() {
            low = middle;
        } else {
            high = middle;
        }
    }
    low
}

/// Returns the connected parts: for each node the number of its part, which is the index of the
/// part's first node. The time is nearly linear in the number of nodes and edges, except that each
/// end of an edge is looked up by binary search.
///
/// # Errors
///
/// [`AllocError`] if allocation fails. The returned list is the only allocation.
pub fn parts(alloc: Global, edges: &[Edge], nodes: &[RecordNo]) -> Result<Vec<usize>, AllocError>
    requires ascending { IsStrictlyIncreasing nodes.now }
    requires ends { All (λ e. Contains nodes.now e.from × Contains nodes.now e.to) edges.now }
    ensures { IfOk result (λ numbers. ArePartsOf edges.now nodes.now numbers.items) }
{
    let mut numbers = each_alone(alloc, nodes.len())?;
    let parents = numbers.as_mut_slice();
    for edge in edges {
        join(
            parents,
            place_of(nodes, edge.from),
            place_of(nodes, edge.to),
        );
    }
    settle(parents);
    Ok(numbers)
}

/// Returns the connected parts of the records 0 to `count - 1`: for each record the number of its
/// part, which is that of the part's first record. The time is nearly linear in the number of
/// records and edges.
///
/// # Errors
///
/// [`AllocError`] if allocation fails. The returned list is the only allocation.
pub fn parts_of_all(alloc: Global, edges: &[Edge], count: usize) -> Result<Vec<usize>, AllocError>
    requires ends { All (λ e. (e.from < count) × (e.to < count)) edges.now }
    ensures parts { IfOk result (λ numbers. ArePartsOf edges.now (all_below count) numbers.items) }
    ensures numbers { IfOk result (λ numbers. numbers.items ≡ part_numbers edges.now count) }
{
    let mut numbers = each_alone(alloc, count)?;
    let parents = numbers.as_mut_slice();
    for edge in edges {
        join(parents, edge.from.index(), edge.to.index());
    }
    settle(parents);
    Ok(numbers)
}

/// Returns whether all edges join records with numbers below `count`. See [`parts_of_all`].
pub fn are_below(edges: &[Edge], count: usize) -> bool
    ensures { IsTrue result ↔ All (λ e. (e.from < count) × (e.to < count)) edges.now }
{
    edges.iter().all(|edge| edge.from.index() < count && edge.to.index() < count)
}
