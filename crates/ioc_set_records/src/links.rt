//! The links of a set's records, and the parts that they join.
ghost use Rattle.std.specs.Prelude.{◌≡◌, ◌<◌, ◌++◌, length, map, true, is_some, All, Contains, IsTrue, ◌↔◌, OnOk, IfOk};
ghost use Rattle.std.specs.Prelude.{slice_set, slice_index_or};
ghost use Rattle.std.specs.Option.{option_copied};
ghost use Rattle.ioc_dbcommon.specs.Links.{named_by_field};
ghost use Rattle.ioc_record.specs.RecordRules.{targets};
ghost use Rattle.ioc_graph.specs.Parts.{ArePartsOf};
ghost use Rattle.ioc_set_records.specs.declared.slots.Slot.{Slot};
ghost use Rattle.ioc_set_records.specs.Edges.{edges_from, edges_in, slots_relinked};
ghost use Rattle.ioc_set_records.specs.Joined.{links_of, IsClosed};
ghost use Rattle.ioc_set_records.specs.Slots.{AreAscending, numbers_of, records_of};

use crate::slots::Slot;
use ioc_dbcommon::{LinkBox, LinkUse};
use ioc_fields::{FieldNo, name_of};
use ioc_graph::{Edge, parts};
use ioc_names::RecordNo;
use ioc_record::RecordKind;
use std::alloc::{AllocError, Global};

// Appends the edge of a link, if it is standing.
fn add_link(
    edges: &mut Vec<Edge>,
    number: RecordNo,
    link: Option<&LinkBox>,
) -> Result<(), AllocError>
    ensures { OnOk result (edges.new.items ≡ edges.old.items ++ edges_from number (named_by_field (option_copied link.entry))) }
{
    let Some(link) = link else {
        return Ok(());
    };
    let LinkUse::Standing(target) = link.in_use() else {
        return Ok(());
    };
    edges.push(Edge {
        from: number,
        to: target.number,
    })?;
    Ok(())
}

/// Appends the edges of a record's links.
///
/// # Errors
///
/// [`AllocError`] if allocation fails.
pub fn add_links<K: RecordKind>(
    edges: &mut Vec<Edge>,
    number: RecordNo,
    fields: &K,
) -> Result<(), AllocError>
    ensures { OnOk result (edges.new.items ≡ edges.old.items ++ edges_from number (targets K.rules fields.now)) }
{
    for field in fields.link_fields() {
        add_link(edges, number, fields.link(*field))?;
    }
    Ok(())
}

// Returns whether these are the same field. Each field has its own name.
fn is_same(one: FieldNo, other: FieldNo) -> bool
    ensures { IsTrue result ↔ one ≡ other }
{
    name_of(one) == name_of(other)
}

// Appends the edges of a record's links after one of them is set.
fn add_links_with<K: RecordKind>(
    edges: &mut Vec<Edge>,
    number: RecordNo,
    fields: &K,
    changed: FieldNo,
    link: &LinkBox,
) -> Result<(), AllocError>
    requires { is_some (K.rules.link fields.now changed) ≡ true }
    ensures { OnOk result (edges.new.items ≡ edges.old.items ++ edges_from number
        (targets K.rules (K.rules.with_link fields.now changed link.now))) }
{
    for field in fields.link_fields() {
        if is_same(*field, changed) {
            add_link(edges, number, Some(link))?;
        } else {
            add_link(edges, number, fields.link(*field))?;
        }
    }
    Ok(())
}

// Returns the edges of all links after one of them is set.
fn edges_with<K: RecordKind, D>(
    alloc: Global,
    slots: &[Slot<K, D>],
    place: usize,
    changed: FieldNo,
    link: &LinkBox,
) -> Result<Vec<Edge>, AllocError>
    requires { (s : Slot K D) → place < length slots.now → s ≡ slice_index_or slots.now place s → is_some (K.rules.link s.fields changed)
        ≡ true }
    ensures { IfOk result (λ edges. edges.items ≡ edges_in K.rules (slots_relinked K.rules slots.now place changed link.now)) }
{
    let mut edges = Vec::new(alloc);
    for (i, slot) in slots.iter().enumerate() {
        if i == place {
            add_links_with(&mut edges, slot.number, &slot.fields, changed, link)?;
        } else {
            add_links(&mut edges, slot.number, &slot.fields)?;
        }
    }
    Ok(edges)
}

/// Returns the edges of all links.
///
/// # Errors
///
/// [`AllocError`] if allocation fails.
pub fn edges_of<K: RecordKind, D>(
    alloc: Global,
    slots: &[Slot<K, D>],
) -> Result<Vec<Edge>, AllocError>
    ensures { IfOk result (λ edges. edges.items ≡ edges_in K.rules slots.now) }
{
    let mut edges = Vec::new(alloc);
    for slot in slots {
        add_links(&mut edges, slot.number, &slot.fields)?;
    }
    Ok(edges)
}

/// Returns the numbers of the records.
///
/// # Errors
///
/// [`AllocError`] if allocation fails.
pub fn numbers<K, D>(alloc: Global, slots: &[Slot<K, D>]) -> Result<Vec<RecordNo>, AllocError>
    ensures { IfOk result (λ numbers. numbers.items ≡ numbers_of slots.now) }
{
    slots.iter().map(|slot| slot.number).collect(alloc)
}

/// Returns the parts of the records after a link is set: the number of its part for each slot.
///
/// # Errors
///
/// [`AllocError`] if allocation fails.
pub fn parts_with<K: RecordKind, D>(
    alloc: Global,
    slots: &[Slot<K, D>],
    place: usize,
    changed: FieldNo,
    link: &LinkBox,
) -> Result<Vec<usize>, AllocError>
    requires ascending { AreAscending slots.now }
    requires field { (s : Slot K D) → place < length slots.now → s ≡ slice_index_or slots.now place s
        → is_some (K.rules.link s.fields changed) ≡ true }
    requires closed { IsClosed (links_of K.rules (records_of (slots_relinked K.rules slots.now place changed link.now))) }
    ensures { IfOk result (λ numbers. ArePartsOf (edges_in K.rules (slots_relinked K.rules slots.now place changed link.now))
        (numbers_of slots.now) numbers.items) }
{
    let edges = edges_with(alloc, slots, place, changed, link)?;
    let nodes = numbers(alloc, slots)?;
    parts(alloc, &edges, &nodes)
}
