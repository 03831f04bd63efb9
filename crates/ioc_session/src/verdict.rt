//! How a run with expectations ends.
ghost use Rattle.std.specs.Prelude.{◌≡◌, ◌↔◌, []};

use crate::expectation::Expectations;
use ioc_command_line::{Ending, Stop, Stream};
use std::io::Write;

/// Whether what was expected came.
#[derive(Clone, Copy, Debug, PartialEq, Eq)]
pub enum Verdict {
    /// Each expectation was met, if there were any.
    Passed,
    /// Some expectation failed.
    Failed,
}

/// The exit status of a run in which an expectation failed.
pub const FAILED: u8 = 5;

impl Verdict {
    ghost use Rattle.ioc_session.specs.declared.verdict.Verdict.TheVariants.{Passed};

    /// Returns the verdict of these expectations.
    pub fn of(expectations: &Expectations) -> Self
        ensures { (result ≡ Passed) ↔ (expectations.now.failures.items ≡ []) }
    {
        if expectations.failures.is_empty() {
            Verdict::Passed
        } else {
            Verdict::Failed
        }
    }
}

/// Returns the ending of a program whose run has this verdict.
pub fn ending(program: &'static str, ended: Result<Verdict, Stop>) -> Ending {
    match ended {
        Ok(Verdict::Passed) => Ending::of(program, Ok(())),
        Ok(Verdict::Failed) => Ending {
            program,
            status: FAILED,
            stream: Stream::Error,
            told: None,
        },
        Err(stop) => Ending::of(program, Err(stop)),
    }
}
