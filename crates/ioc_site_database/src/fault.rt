//! Why a site's files give no database, and how a program ends then.
ghost use Rattle.std.specs.Prelude.{◌≡◌};

use ioc_command_line::{Ending, Stop, Stream};
use std::alloc::AllocError;

/// Why a site's files give no database.
#[derive(Drop)]
pub enum SiteFault {
    /// There are mistakes in the files. The text has a line for each.
    Mistakes(String),
    /// The program stops for another reason.
    Other(Stop),
}

/// Converts a reason for which a program stops.
impl From<Stop> for SiteFault {
    ghost use Rattle.ioc_site_database.specs.declared.fault.SiteFault.TheVariants.{Other};

    ghost from_gives = { λ stop fault. fault ≡ Other stop };

    fn from(stop: Stop) -> SiteFault {
        SiteFault::Other(stop)
    }
}

/// Converts a failed allocation.
impl From<AllocError> for SiteFault {
    fn from(e: AllocError) -> SiteFault {
        SiteFault::Other(Stop::from(e))
    }
}

impl SiteFault {
    /// Returns the ending of a program. Its status is 1 if there are mistakes in the files, as that of a
    /// database text that is refused.
    pub fn ending(self, program: &'static str) -> Ending {
        match self {
            SiteFault::Mistakes(text) => Ending {
                program,
                status: 1,
                stream: Stream::Error,
                told: Some(Stop::Refused(text)),
            },
            SiteFault::Other(stop) => Ending::of(program, Err(stop)),
        }
    }
}

/// Returns the ending of a program for the result of a run.
pub fn ended(program: &'static str, ran: Result<(), SiteFault>) -> Ending {
    match ran {
        Ok(()) => Ending::of(program, Ok(())),
        Err(fault) => fault.ending(program),
    }
}
