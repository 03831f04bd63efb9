//! The lines of a site's database files: comments are dropped, macros replaced, and what is left is
//! made into tokens, each with the place from which it comes. Mistakes are found at their places.
#![tactic(auto)]

mod closing;
mod defining;
mod escapes;
mod expanding;
mod findings;
mod json;
mod lexing;
mod line;
mod macros;
mod opened;
mod stream;
mod token;

pub use defining::{Definitions, parse_definitions, split_bare};
pub use findings::{Findings, joined, shown};
pub use json::Json;
pub use macros::Definition;
pub use stream::Stream;
pub use token::{Keyword, Kind, Token, keyword_of};
