//! Link texts: the links that they spell, and the canonical spelling of each link.
//!
//! Record Reference Manual, "Database Concepts: Address Specification"; Application Developer's
//! Guide, "Database Links".
#![tactic(auto)]

mod class;
mod grammar;
pub mod link;
pub mod parsing;
pub mod printing;
mod words;

pub use grammar::is_record_name;
pub use link::{Flags, Link, LinkKind, MAX_DEVICE_BYTES, MAX_LINK_BYTES, Mode, Target};
pub use parsing::parse;
pub use printing::{print, printed_is_read};
