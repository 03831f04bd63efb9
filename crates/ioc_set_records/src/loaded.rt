//! Assignment of records to sets by the numbers of their parts.
ghost use Rattle.std.specs.Prelude.{◌≡◌, ◌<◌, ℕ, length, replicate, All, IfOk, OnOk, IsSome, slice_index_or, slice_set};
ghost use Rattle.std.specs.FinMap as map;
ghost use Rattle.ioc_set_records.specs.Contents.{nothing};
ghost use Rattle.ioc_set_records.specs.Dealing.{AreDealt, with_loaded};

use crate::Members;
use ioc_names::RecordNo;
use std::alloc::{AllocError, Global};

/// A record of a loaded database, with a copy for its base, and its device, if it has one.
#[derive(Drop)]
pub struct Loaded<K, D> {
    pub fields: K,
    pub base: K,
    pub device: Option<D>,
}

// Counts the records of each part.
fn count_up(sizes: &mut [usize], parts: &[usize])
    ensures { length sizes.new ≡ length sizes.old }
{
    for part in parts {
        if let Some(size) = sizes.get_mut(*part) {
            *size = size.wrapping_add(1);
        }
    }
}

// Creates one empty set for each record, with room for exactly the records of its part: a database
// may have as many parts as records.
fn empty_sets<K: Drop, D: Drop>(
    alloc: Global,
    parts: &[usize],
) -> Result<Vec<Members<K, D>>, AllocError>
    ensures { IfOk result (λ sets. sets.items ≡ replicate (length parts.now) nothing) }
{
    let count = parts.len();
    let mut sizes = Vec::with_capacity(alloc, count)?;
    sizes.resize(count, 0usize)?;
    let sizes = sizes.as_mut_slice();
    count_up(sizes, parts);
    let mut sets = Vec::with_capacity(alloc, count)?;
    for place in 0..count {
        sets.push(Members::with_room(alloc, sizes[place])?)?;
    }
    Ok(sets)
}

// Adds a record to the set of its part.
fn add_to<K: Drop, D: Drop>(
    sets: &mut [Members<K, D>],
    part: usize,
    number: RecordNo,
    loaded: Loaded<K, D>,
) -> Result<(), AllocError>
    requires there { part < length sets.old }
    requires above { (q : ℕ) → IsSome (map.get (slice_index_or sets.old part nothing).records q) → q < number }
    requires same { loaded.base ≡ loaded.fields }
    ensures { OnOk result (sets.new ≡ slice_set sets.old part (with_loaded (slice_index_or sets.old part nothing) number loaded)) }
{
    let Loaded {
        fields,
        base,
        device,
    } = loaded;
    sets[part].add(number, fields, base, device)
}

/// Assigns the records of a database to sets: each to the set of its part, with its index as its
/// number. The copies become the bases. The cost is proportional to the number of records.
///
/// # Errors
///
/// [`AllocError`] if allocation fails.
pub fn deal<K: Drop, D: Drop>(
    alloc: Global,
    all: Vec<Loaded<K, D>>,
    parts: &[usize],
) -> Result<Vec<Members<K, D>>, AllocError>
    requires same { All (λ loaded. loaded.base ≡ loaded.fields) all.items }
    requires one_each { length parts.now ≡ length all.items }
    requires below { All (λ part. part < length parts.now) parts.now }
    ensures { IfOk result (λ sets. AreDealt all.items parts.now sets.items) }
{
    let mut sets = empty_sets(alloc, parts)?;
    let by_part = sets.as_mut_slice();
    let mut left = all.into_iter();
    for (number, part) in parts.iter().enumerate() {
        let Some(loaded) = left.next() else {
            unreachable!()
        };
        add_to(by_part, *part, RecordNo::new(number), loaded)?;
    }
    Ok(sets)
}
