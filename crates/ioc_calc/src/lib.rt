//! Expressions of the calc records: the text of an expression, the program that it is compiled to,
//! and its run on the inputs A to L.
//!
//! Record Reference Manual, "Calculation Record", "CALC Expression".
//!
//! [`compile`] gives a [`Program`] exactly for the texts that have a tree by the grammar, and
//! [`Program::run`] returns what the tree means. The functions whose result no standard fixes to the
//! last digit, such as SIN, are left out by name ([`LeftOut`]), and so is a power whose exponent isn't
//! a whole number from 0 to 64 written in the text: so a run gives the same on every machine.
#![tactic(auto)]

mod bits;
mod compiling;
mod expression;
mod grammar;
pub mod laws;
mod lexer;
mod operations;
mod operators;
mod parser;
mod program;
mod scan;
mod stack;
mod tables;
mod token;
mod wholes;
mod words;

pub use compiling::{CalcFault, CalcFaultKind};
pub use expression::compile;
pub use program::Program;
pub use token::LeftOut;
