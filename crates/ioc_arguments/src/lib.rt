//! What the command line of `ioc` asks for.
#![tactic(auto)]

mod arguments;

pub use arguments::{
    Args, Devices, MAX_SAVE_SECONDS, MAX_TICKS, MAX_WORKERS, Mode, PROGRAM, SAVE_SECONDS, SaveArgs,
    ioc_args,
};
