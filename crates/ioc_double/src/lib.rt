//! IEEE 754 doubles as values of fields: one NaN, equality by bits, whole numbers and texts.
#![tactic(auto)]

pub mod decimal;
pub mod digits;
pub mod double;
mod exact;
mod fixed;
mod groups;
pub mod laws;
pub mod number;
mod pieces;
mod rounded;
mod rounding;
mod scientific;
pub mod shortest;
pub mod spelled;
pub mod text;

pub use decimal::decimal_length;
pub use digits::Digits;
pub use double::Double;
pub use shortest::{ExactText, exact_text};
pub use spelled::double_of_text;
pub use text::{DoubleText, text_of_double};
