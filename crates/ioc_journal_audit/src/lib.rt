//! Audits of journals: the entries of a journal are made again on one map, each with the answers
//! that its devices gave, and compared.
#![tactic(auto)]

mod auditor;
mod bases;
mod changes;
mod counts;
mod difference;
mod file;
mod items;
mod journal;
mod laws;
mod played_map;
mod redo;
mod resuming;
mod same;
mod sets;
mod watching;

pub use auditor::Auditor;
pub use changes::Trace;
pub use difference::Difference;
pub use file::{FileBegun, FileFault, FileFound, Frame, Tail, audit_file, begin_file};
pub use journal::{AuditFault, Audited, LastLine, audit};
pub use played_map::{PlayedMap, Playing};
pub use sets::add_sets;
pub use watching::Watching;
