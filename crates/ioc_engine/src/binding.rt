//! Devices and the records that own them.
ghost use Rattle.std.specs.Prelude.{◌≡◌, ◌<◌, ◌∷◌, ◌++◌, ℕ, None, Some, [], IfOk, OnOk, if◌then◌else◌};
ghost use Rattle.std.specs.Prelude.{slice_index_or, slice_set, length, replicate};
ghost use Rattle.ioc_dbfile.specs.OwnerTable.{owner_in};
ghost use Rattle.ioc_dbfile.specs.OwnDevices.{holder};
ghost use Rattle.ioc_engine.specs.Binding.{device_of, spare_of, is_free, bound_to, spare_with};

use ioc_dbfile::{DeviceName, OwnDevices, Owners};
use ioc_names::RecordNo;
use std::alloc::{AllocError, Global};

/// Devices beside the records that own them, by the records' numbers, and those that no record has,
/// each with the key under which it was given: its name, or the number of its record.
#[derive(Drop)]
pub struct Bound<K, D> {
    pub devices: Vec<Option<D>>,
    pub spare: Vec<(K, D)>,
}

// Returns whether there is such a record and it has no device yet.
fn is_free<D>(bound: &[Option<D>], number: RecordNo) -> bool
    ensures { result ≡ is_free bound.now number }
{
    number.index() < bound.len() && bound[number.index()].is_none()
}

// Gives a device to its owner, or adds it to the spare ones.
fn bind_one<K: Drop, D: Drop>(
    bound: &mut Bound<K, D>,
    owner: Option<RecordNo>,
    key: K,
    device: D,
) -> Result<(), AllocError>
    ensures devices { OnOk result (bound.new.devices.items ≡ bound_to owner device bound.old.devices.items) }
    ensures spare { OnOk result (bound.new.spare.items ≡ spare_with owner (key, device) bound.old.devices.items bound.old.spare.items) }
{
    let Some(number) = owner else {
        bound.spare.push((key, device))?;
        return Ok(());
    };
    if is_free(bound.devices.as_slice(), number) {
        bound.devices[number.index()] = Some(device);
    } else {
        bound.spare.push((key, device))?;
    }
    Ok(())
}

// Returns `count` places without a device.
fn no_devices<D: Drop>(alloc: Global, count: usize) -> Result<Vec<Option<D>>, AllocError>
    ensures { IfOk result (λ v. v.items ≡ replicate count None) }
{
    let mut places = Vec::with_capacity(alloc, count)?;
    for _ in 0..count {
        places.push(None)?;
    }
    Ok(places)
}

/// Gives each device to the record that owns its name: the first record with a link `@` and this
/// name. If several devices have the same name the first one counts. The other ones, and those
/// whose name no record owns, are spare.
///
/// # Errors
///
/// [`AllocError`] if allocation fails.
pub fn bind<D: Drop>(
    alloc: Global,
    owners: &Owners,
    count: usize,
    devices: Vec<(DeviceName, D)>,
) -> Result<Bound<DeviceName, D>, AllocError>
    ensures count { IfOk result (λ b. length b.devices.items ≡ count) }
    ensures devices { IfOk result (λ b. (n : ℕ) → n < count
        → slice_index_or b.devices.items n None ≡ device_of (owner_in owners.now) devices.items n) }
    ensures spare { IfOk result (λ b. b.spare.items ≡ spare_of (owner_in owners.now) count [] devices.items) }
{
    let mut bound = Bound {
        devices: no_devices(alloc, count)?,
        spare: Vec::new(alloc),
    };
    for (name, device) in devices {
        let owner = owners.owner(&name);
        bind_one(&mut bound, owner, name, device)?;
    }
    Ok(bound)
}

/// Gives each device to the record with its number, if that record has a device of its own. If several
/// devices are for the same record the first one counts. The other ones, and those for records without
/// a device, are spare.
///
/// # Errors
///
/// [`AllocError`] if allocation fails.
pub fn bind_own<D: Drop>(
    alloc: Global,
    own: &OwnDevices,
    count: usize,
    devices: Vec<(RecordNo, D)>,
) -> Result<Bound<RecordNo, D>, AllocError>
    ensures count { IfOk result (λ b. length b.devices.items ≡ count) }
    ensures devices { IfOk result (λ b. (n : ℕ) → n < count
        → slice_index_or b.devices.items n None ≡ device_of (holder own.now.names.items) devices.items n) }
    ensures spare { IfOk result (λ b. b.spare.items ≡ spare_of (holder own.now.names.items) count [] devices.items) }
{
    let mut bound = Bound {
        devices: no_devices(alloc, count)?,
        spare: Vec::new(alloc),
    };
    for (number, device) in devices {
        let owner = own.holder(number);
        bind_one(&mut bound, owner, number, device)?;
    }
    Ok(bound)
}
