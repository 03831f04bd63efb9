//! The fields that lines watch: what was told last of each, and which line is due when a look has shown
//! it again.
#![tactic(auto)]

mod content;
mod last_told;
mod line;
mod observed;
mod rule;
mod watch;
mod watches;
mod word;

pub use content::{FieldShown, RecordShown, content_of};
pub use last_told::LastTold;
pub use observed::{Observed, Posts};
pub use rule::{Rule, rule_of};
pub use watch::Watch;
pub use watches::{Removal, Watches};
pub use word::WatchWord;
