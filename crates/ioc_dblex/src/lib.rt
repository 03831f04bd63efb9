//! The lines of a database text, each without its comment and its line end and with its macros
//! replaced, stored in one piece, and the token at the front of a line.
//!
//! EPICS Application Developer's Guide, "Database Definition".
//!
//! The tokens of a database text, each with the line on which it begins, and their texts. The first
//! fault is itself the last token.
//!
//! EPICS Application Developer's Guide, "Database Definition".
#![tactic(auto)]

mod bytes;
pub mod cursor;
pub mod escaped_text;
mod expansion;
pub mod laws;
mod lexer;
mod lines;
pub mod macros;
mod replacement;
mod search;
pub mod texts;
pub mod token;
pub mod token_lines;
pub mod tokens;

pub use bytes::{escapes, skip_gap, split_quoted, split_word};
pub use escaped_text::{TokenText, control_of, read_escapes, unescaped};
pub use expansion::{MAX_BYTES, expand};
pub use lexer::{behind_sign, is_fault, token_at};
pub use macros::Macros;
pub use search::{lacks, split_at_byte};
pub use texts::{End, Texts};
pub use token::{Token, TokenKind};
pub use tokens::Tokens;
