//! The records of a loaded database.
ghost use Rattle.std.specs.Prelude.{◌≡◌, None, drop, map, slice_index_or, All, IfOk};
ghost use Rattle.std.specs.Vec.Iter.{into_iter_items};
ghost use Rattle.ioc_engine_core.specs.Loading.{HaveDevices};

use ioc_record::RecordKind;
use ioc_set_records::Loaded;
use std::alloc::{AllocError, Global};
use std::vec::IntoIter;

// Returns the next device, or `None` if that place has none or is past the last.
fn next_device<D: Drop>(beside: &mut IntoIter<Option<D>>) -> Option<D>
    ensures first { result ≡ slice_index_or (into_iter_items beside.old) 0 None }
    ensures left { into_iter_items beside.new ≡ drop 1 (into_iter_items beside.old) }
{
    match beside.next() {
        Some(device) => device,
        None => None,
    }
}

/// Returns the records of a database, each with a copy of itself as its base and with the device at
/// its place, if there is one.
///
/// # Errors
///
/// [`AllocError`] if allocation fails.
pub fn with_copies<K: RecordKind + Drop, D: Drop>(
    alloc: Global,
    records: Vec<K>,
    devices: Vec<Option<D>>,
) -> Result<Vec<Loaded<K, D>>, AllocError>
    ensures copies { IfOk result (λ all. All (λ l. l.base ≡ l.fields) all.items) }
    ensures records { IfOk result (λ all. map (λ l. l.fields) all.items ≡ records.items) }
    ensures devices { IfOk result (λ all. HaveDevices all.items devices.items) }
{
    let count = records.len();
    let mut all = Vec::with_capacity(alloc, count)?;
    let mut left = records.into_iter();
    let mut beside = devices.into_iter();
    for _ in 0..count {
        let Some(fields) = left.next() else {
            unreachable!()
        };
        let base = fields.copy(alloc)?;
        let device = next_device(&mut beside);
        all.push(Loaded {
            fields,
            base,
            device,
        })?;
    }
    Ok(all)
}
