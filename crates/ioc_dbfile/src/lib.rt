//! Database texts: the records that they define, or the first fault.
//!
//! The statements of a text (`ioc_dbparse`) fill a database; at its end each link is resolved,
//! and constants are put. EPICS Application Developer's Guide, "Database Definition".
#![tactic(auto)]

pub mod database;
pub mod database_builder;
pub mod finish;
pub mod loading;
mod new_records;
pub mod own_devices;
pub mod owners;

pub use database::Database;
pub use database_builder::{DatabaseBuilder, MAX_RECORDS};
pub use finish::{leads_to, target_field, types_of};
pub use ioc_dblex::{MAX_BYTES, Macros};
pub use loading::load;
pub use own_devices::{DeviceOwners, OwnDevices, device_named, own_devices_of};
pub use owners::{DeviceName, Owners, owners_of, owns_device};
