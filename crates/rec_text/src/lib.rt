//! The record types whose value is a text: stringin and stringout.
#![tactic(auto)]

pub mod stringin;
pub mod stringout;
pub mod text_body;
pub mod text_input;

pub use stringin::Stringin;
pub use stringout::Stringout;
pub use text_body::{TextBody, TextKind};
pub use text_input::TextInput;
