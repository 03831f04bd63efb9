//! Traces: what the requests of an event do, as lines of text.
#![tactic(auto)]

mod lines;
mod trace_log;
mod traced_map;

pub use trace_log::TraceLog;
pub use traced_map::TracedMap;
