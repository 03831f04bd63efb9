//! Writes the records of a site's files as one database text that `load` of `ioc_dbfile` takes, and says
//! which texts it takes as they stand.
#![tactic(auto)]

mod dropping;
mod lines;
mod loading;
mod quoting;
mod spelling;
mod types;
mod writer;

pub use dropping::{Reason, Subject};
pub use loading::refusal;
pub use types::{Standing, Types};
pub use writer::{Written, write_database};
