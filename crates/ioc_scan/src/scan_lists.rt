//! The scan lists of a database.
ghost use Rattle.std.specs.Prelude.{◌≡◌, ◌↔◌, ◌⊎◌, ℕ, ◌<◌, ◌≤◌, ◌-◌, ◌^◌, ◌++◌, false, cond, Some, None, IfOk, IfSome, OnOk, OnErr};
ghost use Rattle.std.specs.Prelude.{IsTrue, length, vec_len};
ghost use Rattle.std.specs.BTreeMap.{BTreeMap, IsOrdered, get};
ghost use Rattle.std.specs.Ordering.{eq_by_cmp};
ghost use Rattle.ioc_scan.specs.contracts.position.PositionOrd.TheImpl as order_of;
ghost use Rattle.ioc_scan.specs.declared.list_name.ListName.{ListName};
ghost use Rattle.ioc_scan.specs.declared.list_name.Placement.{Placement};
ghost use Rattle.ioc_scan.specs.declared.position.Position.{Position};
ghost use Rattle.ioc_scan.specs.Scanned.{new_lists, placed, changed, InPhaseOrder};
ghost use Rattle.ioc_scan.specs.Standing.{standing};
ghost use Rattle.ioc_scan.specs.Walked.{walked};
ghost use Rattle.ioc_scan.specs.Members.{is_at_place, listed_at, IsPhase, AreIndexed, HasAll};

use crate::list_name::{ListName, Placement};
use crate::position::{ListEntry, Listed, Position};
use ioc_names::RecordNo;
use std::alloc::{AllocError, Global};
use std::collections::BTreeMap;
use std::marker::Model;

/// The scan lists: the place of each record, and the members of each list, in the order of PHAS.
/// Records with equal PHAS are in the order of adding. A change of a place never fails: if
/// allocation fails, the record's entry has its new place all the same, and the record joins the
/// other members before a list is walked.
#[derive(Drop)]
pub struct ScanLists {
    entries: Vec<ListEntry>,
    members: BTreeMap<Position, Listed>,
    last: u64,
    // Each record with a number below this is among the members if it is on a list. One from here
    // on may be missing there, because allocation failed.
    indexed: usize,
}

impl Model for ScanLists {
    ghost use Rattle.ioc_scan.specs.Scanned.{Scanned};
    ghost use Rattle.ioc_scan.specs.Members.{AreIndexed};
    ghost use Rattle.std.specs.Prelude.{length};

    ghost Value = { Scanned };

    ghost view = { λ s. record { entries = s.entries.items; last = s.last } };

    ghost invariant = { λ s. AreIndexed s.entries.items s.last s.indexed s.members };
}

impl ScanLists {
    /// Creates the lists for `count` records, none of which is on a list.
    ///
    /// # Errors
    ///
    /// [`AllocError`] if allocation fails.
    pub fn new(alloc: Global, count: usize) -> Result<Self, AllocError>
        ensures { IfOk result (λ s. s ≡ new_lists count) }
    {
        let mut entries = Vec::new(alloc);
        entries.resize(count, ListEntry::new())?;
        Ok(ScanLists {
            entries,
            members: BTreeMap::new(alloc),
            last: 0,
            indexed: count,
        })
    }

    /// Returns the number of records.
    pub fn len(&self) -> usize
        ensures { result ≡ length self.now.entries }
    {
        self.entries.len()
    }

    /// Returns whether an order number is left for a change.
    pub fn can_change(&self) -> bool
        ensures { IsTrue result ↔ (self.now.last < 2 ^ 64 - 1) }
    {
        self.last < u64::MAX
    }

    /// Changes the place of a record: removes it from its list, and adds it to the list of the new
    /// place after the records with the same PHAS. Changes of a record are numbered, and one with a
    /// lower number than one that was applied already is ignored. When the engine starts the number
    /// is 0.
    ///
    /// If allocation fails, the change is applied all the same, and the record joins the members of
    /// its list before a list is walked.
    pub fn change(&mut self, member: RecordNo, number: u64, place: Option<Placement>)
        requires known { member < length self.old.entries }
        requires room { self.old.last < 2 ^ 64 - 1 }
        ensures { self.new ≡ changed self.old member number place }
    {
        let before = self.entries[member.index()];
        if number < before.number {
            return;
        }
        let order = self.last + 1;
        self.indexed = put_or_leave(&mut self.members, member, &place, order, self.indexed);
        take_off(&mut self.members, &before.place, before.order);
        self.entries[member.index()] = ListEntry {
            number,
            place,
            order,
        };
        self.last = order;
    }

    /// Adds a record to the list of this place, after the records with the same PHAS, and removes
    /// it from the list that it is on. This isn't a numbered change: it doesn't affect which later
    /// changes are ignored.
    pub fn add(&mut self, member: RecordNo, place: Placement)
        requires known { member < length self.old.entries }
        requires room { self.old.last < 2 ^ 64 - 1 }
        ensures { self.new ≡ placed self.old member (Some place) }
    {
        let number = self.entries[member.index()].number;
        self.change(member, number, Some(place));
    }

    /// Removes a record from its list, if it is on one. This isn't a numbered change either.
    pub fn remove(&mut self, member: RecordNo)
        requires known { member < length self.old.entries }
        requires room { self.old.last < 2 ^ 64 - 1 }
        ensures { self.new ≡ placed self.old member None }
    {
        let number = self.entries[member.index()].number;
        self.change(member, number, None);
    }

    /// Replaces the contents of `into` with the members of the list, in the order of PHAS; those
    /// with equal PHAS are in the order of adding. It only allocates if the capacity isn't
    /// sufficient, or if allocation failed in a change before.
    ///
    /// # Errors
    ///
    /// [`AllocError`] if allocation fails; the contents of `into` are meaningless then.
    pub fn walk(&mut self, list: &ListName, into: &mut Vec<Listed>) -> Result<(), AllocError>
        ensures order { OnOk result (InPhaseOrder self.old list.now into.new.items) }
        ensures walked { OnOk result (into.new.items ≡ walked self.old list.now) }
        ensures same { self.new ≡ self.old }
    {
        index_list(
            &mut self.members,
            self.entries.as_slice(),
            &mut self.indexed,
            list,
        )?;
        into.clear();
        copy_list(&self.members, list, into)
    }
}

// Adds the records from this number on to the members of their lists. If allocation fails, that is
// an error only if one of those that are left is on this list.
fn index_list(
    members: &mut BTreeMap<Position, Listed>,
    entries: &[ListEntry],
    indexed: &mut usize,
    list: &ListName,
) -> Result<(), AllocError>
    ensures kept { (last : ℕ) → AreIndexed entries.now last indexed.old members.old → AreIndexed entries.now last indexed.new members.new }
    ensures all { OnOk result (HasAll entries.now indexed.new list.now) }
{
    match index_all(members, entries, indexed) {
        Ok(()) => Ok(()),
        Err(error) if is_any_on(entries, *indexed, list) => Err(error),
        Err(_) => Ok(()),
    }
}

// Returns whether a record from this number on is on the list.
fn is_any_on(entries: &[ListEntry], from: usize, list: &ListName) -> bool
    ensures { result ≡ false → HasAll entries.now from list.now }
{
    let mut number = from;
    while number < entries.len() {
        if is_on(&entries[number].place, list) {
            return true;
        }
        number += 1;
    }
    false
}

// Returns whether a place is on the list.
fn is_on(place: &Option<Placement>, list: &ListName) -> bool
    ensures { result ≡ false → (p : Placement) → place.now ≡ Some p → p.list ≡ list.now → ⊥ }
{
    match place {
        Some(place) => place.list == *list,
        None => false,
    }
}

// Adds the records from this number on to the members of their lists.
fn index_all(
    members: &mut BTreeMap<Position, Listed>,
    entries: &[ListEntry],
    indexed: &mut usize,
) -> Result<(), AllocError>
    ensures kept { (last : ℕ) → AreIndexed entries.now last indexed.old members.old → AreIndexed entries.now last indexed.new members.new }
    ensures all { OnOk result ((list : ListName) → HasAll entries.now indexed.new list) }
{
    while *indexed < entries.len() {
        let entry = &entries[*indexed];
        put_on(members, RecordNo::new(*indexed), &entry.place, entry.order)?;
        *indexed += 1;
    }
    Ok(())
}

// Adds a record to the list of its place, if it has one, where each record below `indexed` is among
// the members. Returns the number for which that is so then: at most the record's own if allocation
// fails.
fn put_or_leave(
    members: &mut BTreeMap<Position, Listed>,
    member: RecordNo,
    place: &Option<Placement>,
    order: u64,
    indexed: usize,
) -> usize
    ensures put { ((result ≡ indexed) × ((k : Position) → get order_of.ghosts.cmp members.new k
        ≡ cond (is_at_place place.now order k) (listed_at member place.now) (get order_of.ghosts.cmp members.old k)))
        ⊎ ((result ≤ indexed) × (result ≤ member)
        × ((k : Position) → get order_of.ghosts.cmp members.new k ≡ get order_of.ghosts.cmp members.old k)) }
    ensures phase { IfSome place.now (λ p. IsPhase p.phase) }
{
    match put_on(members, member, place, order) {
        Ok(()) => indexed,
        Err(_) => indexed.min(member.index()),
    }
}

// Appends the members of the list, in order.
fn copy_list(
    members: &BTreeMap<Position, Listed>,
    list: &ListName,
    into: &mut Vec<Listed>,
) -> Result<(), AllocError>
    ensures listed { OnOk result (into.new.items ≡ into.old.items ++ standing list.now members.now.entries) }
    ensures ordered { IsOrdered order_of.ghosts.cmp members.now }
{
    let low = Position {
        list: *list,
        phase: i16::MIN,
        order: 0,
    };
    let high = Position {
        list: *list,
        phase: i16::MAX,
        order: u64::MAX,
    };
    for (_, listed) in members.range(low..=high) {
        into.push(*listed)?;
    }
    Ok(())
}

// Adds a record to the list of its place, if it has one. The position is free.
fn put_on(
    members: &mut BTreeMap<Position, Listed>,
    member: RecordNo,
    place: &Option<Placement>,
    order: u64,
) -> Result<(), AllocError>
    ensures ok { OnOk result ((k : Position) → get order_of.ghosts.cmp members.new k
        ≡ cond (is_at_place place.now order k) (listed_at member place.now) (get order_of.ghosts.cmp members.old k)) }
    ensures err { OnErr result ((k : Position) → get order_of.ghosts.cmp members.new k ≡ get order_of.ghosts.cmp members.old k) }
    ensures phase { IfSome place.now (λ p. IsPhase p.phase) }
{
    if let Some(place) = place {
        insert(
            members,
            place.list,
            place.phase,
            order,
            Listed::of(member, place),
        )?;
    }
    Ok(())
}

// Removes the record at the place, if there is one, from its list.
fn take_off(members: &mut BTreeMap<Position, Listed>, place: &Option<Placement>, order: u64)
    ensures { (k : Position) → get order_of.ghosts.cmp members.new k ≡ cond (is_at_place place.now order k) None
        (get order_of.ghosts.cmp members.old k) }
{
    if let Some(place) = place {
        let _listed = members.remove(&Position::of(place, order));
    }
}

// Inserts a record at a position.
fn insert(
    members: &mut BTreeMap<Position, Listed>,
    list: ListName,
    phase: i16,
    order: u64,
    listed: Listed,
) -> Result<(), AllocError>
    ensures ok { OnOk result ((k : Position) → get order_of.ghosts.cmp members.new k
        ≡ cond (eq_by_cmp order_of.ghosts.cmp (record { list = list; phase = phase; order = order }) k) (Some listed)
        (get order_of.ghosts.cmp members.old k)) }
    ensures err { OnErr result (members.new.entries ≡ members.old.entries) }
    ensures phase { IsPhase phase }
{
    members.insert(Position { list, phase, order }, listed)?;
    Ok(())
}
