//! Sessions of `ioc-replay`: runs of a script that tell more than the replies. They compare replies
//! with what the script expects, print each line with its number, explain why a line is refused, and
//! prompt a user.
#![tactic(auto)]

mod arguments;
mod dialogue;
mod directory;
mod exchange;
mod expectation;
mod explanation;
mod kinds;
mod runs;
mod tested;
mod testing;
mod user_line;
mod verdict;

pub use arguments::{Arguments, Manner};
pub use expectation::{Expectations, Failure};
pub use runs::run_dialogue;
pub use testing::test_script;
pub use verdict::{FAILED, Verdict, ending};
