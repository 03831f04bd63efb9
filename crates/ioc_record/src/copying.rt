//! Copies of the common fields, and how they are copied between records with the same links without
//! allocating.
ghost use Rattle.std.specs.Prelude.{◌≡◌, IfOk};

use ioc_dbcommon::Common;
use std::alloc::{AllocError, Global};

/// Copies the fields.
///
/// # Errors
///
/// [`AllocError`] if allocation fails.
pub fn copy_common(alloc: Global, common: &Common) -> Result<Common, AllocError>
    ensures { IfOk result (λ copy. copy ≡ common.now) }
{
    let disable_link = common.disable_link.copy(alloc)?;
    let forward_link = common.forward_link.copy(alloc)?;
    Ok(Common {
        name: common.name,
        description: common.description,
        access_group: common.access_group,
        condition: common.condition,
        scanning: common.scanning,
        disabling: common.disabling,
        disable_link,
        forward_link,
        process: common.process,
        lock_count: common.lock_count,
        active: common.active,
        by_put: common.by_put,
        reprocess: common.reprocess,
        time: common.time,
        pending: common.pending,
        last_pending: common.last_pending,
        last_change: common.last_change,
        notification: common.notification,
    })
}

/// Copies the common fields of another record with the same links. It never allocates.
pub fn match_common(common: &mut Common, other: &Common)
    requires disable_link { common.old.disable_link ≡ other.now.disable_link }
    requires forward_link { common.old.forward_link ≡ other.now.forward_link }
    ensures { common.new ≡ other.now }
{
    common.name = other.name;
    common.description = other.description;
    common.access_group = other.access_group;
    common.condition = other.condition;
    common.scanning = other.scanning;
    common.disabling = other.disabling;
    common.process = other.process;
    common.lock_count = other.lock_count;
    common.active = other.active;
    common.by_put = other.by_put;
    common.reprocess = other.reprocess;
    common.time = other.time;
    common.pending = other.pending;
    common.last_pending = other.last_pending;
    common.last_change = other.last_change;
    common.notification = other.notification;
}
