//! The scan lists of a loaded database.
ghost use Rattle.std.specs.Prelude.{◌≡◌, ◌<◌, ◌-◌, ◌^◌, length, IfOk};
ghost use Rattle.std.specs.List.{list_any};
ghost use Rattle.ioc_scan_rules.specs.Places.{place_of};
ghost use Rattle.ioc_scan_rules.specs.FirstLists.{added, first_lists, is_starter, starters, AreStarters};

use crate::places::{Occasion, may_be_listed, place_of};
use ioc_menus::Pini;
use ioc_names::RecordNo;
use ioc_record::RecordKind;
use ioc_scan::{ListName, Listed, ScanLists};
use std::alloc::{AllocError, Global};

// Adds a record to its list, if it has one.
#[inline(never)]
fn add_record<K: RecordKind>(lists: &mut ScanLists, number: RecordNo, item: &K, occasion: Occasion)
    requires known { number < length lists.old.entries }
    requires room { lists.old.last < 2 ^ 64 - 1 }
    ensures { lists.new ≡ added lists.old number (place_of K.rules occasion item.now) }
{
    if let Some(place) = place_of(item, occasion) {
        lists.add(number, place);
    }
}

/// Returns the lists with all records, added in the order of their numbers. Application Developer's
/// Guide, "Scanning Specification": scanInit.
///
/// # Errors
///
/// [`AllocError`] if allocation fails.
#[tactic(auto, unfolding(crate::specs::FirstLists::first_lists))]
pub fn first_lists<K: RecordKind>(
    alloc: Global,
    occasion: Occasion,
    records: &[K],
) -> Result<ScanLists, AllocError>
    ensures { IfOk result (λ s. s ≡ first_lists K.rules occasion records.now) }
{
    let mut lists = ScanLists::new(alloc, records.len())?;
    let mut rest = records;
    let mut number = 0;
    while let [item, others @ ..] = rest {
        if may_be_listed(item, occasion) {
            add_record(&mut lists, RecordNo::new(number), item, occasion);
        }
        number += 1;
        rest = others;
    }
    Ok(lists)
}

// Returns whether a record has PINI.
fn any_starts<K: RecordKind>(records: &[K]) -> bool
    ensures { result ≡ list_any (is_starter K.rules) records.now }
{
    let mut rest = records;
    while let [item, others @ ..] = rest {
        if item.common().scanning.at_start == Pini::Yes {
            return true;
        }
        rest = others;
    }
    false
}

/// Returns the records that are processed once at the start, in the order of PHAS, then of their
/// numbers. Lists are created only if there is such a record. Record Reference Manual, "Scan
/// Fields": PINI.
///
/// # Errors
///
/// [`AllocError`] if allocation fails.
#[tactic(auto, using(crate::proofs::Starting::none_starts, crate::proofs::StartOrder::none_are_starters))]
pub fn starters<K: RecordKind>(alloc: Global, records: &[K]) -> Result<Vec<Listed>, AllocError>
    ensures listed { IfOk result (λ listed. listed.items ≡ starters K.rules records.now) }
    ensures order { IfOk result (λ listed. AreStarters K.rules records.now listed.items) }
{
    if !any_starts(records) {
        return Ok(Vec::new(alloc));
    }
    listed_starters(alloc, records)
}

// Returns the records with PINI from their list.
#[tactic(auto, unfolding(crate::specs::FirstLists::starters))]
fn listed_starters<K: RecordKind>(alloc: Global, records: &[K]) -> Result<Vec<Listed>, AllocError>
    ensures listed { IfOk result (λ listed. listed.items ≡ starters K.rules records.now) }
    ensures order { IfOk result (λ listed. AreStarters K.rules records.now listed.items) }
{
    let mut lists = first_lists(alloc, Occasion::Starting, records)?;
    let mut listed = Vec::new(alloc);
    lists.walk(&ListName::Start, &mut listed)?;
    Ok(listed)
}
