//! The reply to the line `sets`.
ghost use Rattle.std.specs.Prelude.{◌≡◌, ◌<◌, ◌+◌, ◌-◌, ◌++◌, ◌∷◌, [], codes, length, slice_index, OnOk};
ghost use Rattle.rec_types.specs.Record.{record_rules};
ghost use Rattle.ioc_store.specs.OneMap.{world_of};
ghost use Rattle.ioc_graph.specs.Parts.{all_below};
ghost use Rattle.ioc_graph.specs.Members.{AreFirsts, AreFollowers};
ghost use Rattle.ioc_sim.specs.SeenMachine.{machine_of};
ghost use Rattle.ioc_main.specs.Sets.{name_at, part_words, parts_words, sets_line};

use ioc_commands::{add_to_set, begin_set, begin_sets, end_set, end_sets};
use ioc_graph::followers;
use ioc_names::RecordNo;
use ioc_record::RecordKind;
use ioc_sim::{Machine, Scripted};
use ioc_store::{OneMap, Store};
use rec_types::Record;
use std::alloc::{AllocError, Global};

// Returns the name of a record.
fn name_of(map: &OneMap<Record, Scripted>, number: usize) -> &[u8]
    requires { number < length map.now.records.items }
    ensures { result.now ≡ name_at record_rules (world_of map.now) number }
{
    map.record(RecordNo::new(number)).common().name.as_slice()
}

// Appends the names of a part, from its first record on. `next` has the record that follows each.
fn add_part(
    line: &mut Vec<u8>,
    map: &OneMap<Record, Scripted>,
    numbers: &[usize],
    next: &[usize],
    first: usize,
) -> Result<(), AllocError>
    requires there { first < length numbers.now }
    requires is_first { slice_index numbers.now first ≡ first }
    requires all { length numbers.now ≡ length map.now.records.items }
    requires follow { AreFollowers numbers.now next.now }
    ensures { OnOk result (line.new.items ≡ line.old.items ++ part_words record_rules (world_of map.now) numbers.now first) }
{
    begin_set(line, name_of(map, first))?;
    let mut number = next[first];
    while number < next.len() {
        add_to_set(line, name_of(map, number))?;
        number = next[number];
    }
    end_set(line)
}

// Appends the parts, in the order of their first records.
fn add_parts(
    line: &mut Vec<u8>,
    map: &OneMap<Record, Scripted>,
    numbers: &[usize],
    next: &[usize],
) -> Result<(), AllocError>
    requires all { length numbers.now ≡ length map.now.records.items }
    requires follow { AreFollowers numbers.now next.now }
    ensures { OnOk result (line.new.items
        ≡ line.old.items ++ parts_words record_rules (world_of map.now) numbers.now (all_below (length numbers.now))) }
{
    let mut number = 0;
    while number < numbers.len() {
        if numbers[number] == number {
            add_part(line, map, numbers, next, number)?;
        }
        number += 1;
    }
    Ok(())
}

/// Appends the line of the connected parts of a database, including the line feed. Takes time close
/// to the number of records and links, and of the bytes of the line.
///
/// # Errors
///
/// [`AllocError`] if allocation fails.
#[tactic(auto, unfolding(crate::specs::Sets::sets_line))]
pub fn say_sets(alloc: Global, machine: &Machine, line: &mut Vec<u8>) -> Result<(), AllocError>
    requires { line.old.items ≡ [] }
    ensures { OnOk result (line.new.items ≡ sets_line record_rules (machine_of machine.now).world) }
{
    let numbers = machine.parts()?;
    let next = followers(alloc, numbers.as_slice())?;
    begin_sets(line)?;
    add_parts(line, machine.map(), numbers.as_slice(), next.as_slice())?;
    end_sets(line)
}
