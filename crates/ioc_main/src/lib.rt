//! Runs of a database text and a script of requests, which are answered line by line, and the lines
//! of replies.
#![tactic(auto)]

mod answering;
mod counts;
mod fault;
mod fields;
mod lines;
mod replay;
mod reply_line;
mod runs;
mod session;
mod sets;
mod writing;

pub use counts::{count_line, ended_line, notify_line, tally_line};
pub use fault::{LineFault, RunFault, ScriptFault, WriteFault, whole_run};
pub use lines::{LineBuffer, run_script};
pub use replay::Replay;
pub use reply_line::{LineReply, say_refusal, say_reply};
pub use runs::run;
pub use session::{PROMPT, PendingOutput, Session};
pub use writing::write_text;
