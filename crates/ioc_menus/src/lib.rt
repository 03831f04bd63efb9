//! The menus of record fields, with the numbers and the texts of their choices.
//! Record Reference Manual, "Menu Types" and "Fields Common to All Record Types".
#![tactic(auto)]

pub mod dopt;
pub mod ivoa;
pub mod laws;
pub mod linr;
pub mod menu;
mod numbers;
pub mod oif;
pub mod omsl;
pub mod oopt;
pub mod pini;
pub mod priority;
pub mod scan;
pub mod selm;
pub mod selmode;
pub mod severity;
pub mod status;

pub use dopt::Dopt;
pub use ivoa::Ivoa;
pub use linr::Linr;
pub use menu::{Menu, choice, choices, text};
pub use oif::Oif;
pub use omsl::Omsl;
pub use oopt::Oopt;
pub use pini::Pini;
pub use priority::Priority;
pub use scan::Scan;
pub use selm::Selm;
pub use selmode::Selmode;
pub use severity::Severity;
pub use status::Status;
