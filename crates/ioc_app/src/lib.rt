//! The run of the program `ioc`, in which one thread scans the records of a database or answers the
//! lines of a console, or both, while others serve the requests that wait.
#![tactic(auto)]

mod caller;
mod console;
mod fault;
mod going_on;
mod journal;
mod journal_text;
mod kinds;
mod live;
mod pace;
mod reading;
mod report;
mod running;
mod saving;
mod streams;
mod task;
mod watching;

pub use console::Console;
pub use fault::RunFault;
pub use going_on::Sizes;
pub use ioc_journal_lines::{Header, database_hash};
pub use running::{JournalFile, Outputs, Plant, PlantDevices, ioc_run};
pub use saving::Saving;
pub use task::{Task, Ticks};
