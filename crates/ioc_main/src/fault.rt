//! The faults of a run.
ghost use Rattle.std.specs.Prelude.{◌≡◌};
ghost use Rattle.ioc_main.specs.Faults.{whole_run};

use ioc_command_line::{FileRole, Reason, Stage, Stop};
use ioc_values::{DbFault, LoadError};
use std::alloc::AllocError;
use std::io;

/// Why a run stopped before the end of its script.
#[derive(Clone, Copy, Debug, PartialEq, Eq)]
pub enum RunFault {
    /// The database text is invalid.
    BadDb(DbFault),
    /// The script couldn't be read.
    Read(Reason),
    /// A reply couldn't be written.
    Write,
    /// Allocation failed.
    Memory(Stage),
}

/// The reason why a script stopped before its end.
#[derive(Clone, Copy, Debug, PartialEq, Eq)]
pub enum ScriptFault {
    /// The script couldn't be read.
    Read(Reason),
    /// A reply couldn't be written.
    Write,
    /// Allocation failed.
    Memory,
}

/// The reason why a line wasn't answered.
#[derive(Clone, Copy, Debug, PartialEq, Eq)]
pub enum LineFault {
    /// Its reply couldn't be written.
    Write,
    /// Allocation failed.
    Memory,
}

/// The writer took no byte, or returned an error.
#[derive(Clone, Copy, Debug, PartialEq, Eq)]
pub struct WriteFault;

impl From<WriteFault> for LineFault {
    ghost use Rattle.ioc_main.specs.declared.fault.LineFault.TheVariants.{Write};

    ghost from_gives = { λ e fault. fault ≡ Write };

    fn from(_fault: WriteFault) -> LineFault {
        LineFault::Write
    }
}

impl From<AllocError> for LineFault {
    ghost use Rattle.ioc_main.specs.declared.fault.LineFault.TheVariants.{Memory};

    ghost from_gives = { λ _ fault. fault ≡ Memory };

    fn from(_e: AllocError) -> LineFault {
        LineFault::Memory
    }
}

impl From<LineFault> for ScriptFault {
    ghost use Rattle.ioc_main.specs.Faults.{script_fault_of};

    ghost from_gives = { λ e fault. fault ≡ script_fault_of e };

    fn from(e: LineFault) -> ScriptFault {
        match e {
            LineFault::Write => ScriptFault::Write,
            LineFault::Memory => ScriptFault::Memory,
        }
    }
}

impl From<ScriptFault> for RunFault {
    ghost use Rattle.ioc_main.specs.Faults.{run_fault_of};

    ghost from_gives = { λ e fault. fault ≡ run_fault_of e };

    fn from(e: ScriptFault) -> RunFault {
        match e {
            ScriptFault::Read(reason) => RunFault::Read(reason),
            ScriptFault::Write => RunFault::Write,
            ScriptFault::Memory => RunFault::Memory(Stage::Line),
        }
    }
}

/// Converts a failed allocation of a load.
impl From<AllocError> for RunFault {
    ghost use Rattle.ioc_command_line.specs.declared.ending.Stage.TheVariants.{Loading};
    ghost use Rattle.ioc_main.specs.declared.fault.RunFault.TheVariants.{Memory};

    ghost from_gives = { λ _ fault. fault ≡ Memory Loading };

    fn from(_e: AllocError) -> RunFault {
        RunFault::Memory(Stage::Loading)
    }
}

/// Converts the error of a load.
impl From<LoadError> for RunFault {
    ghost use Rattle.ioc_main.specs.Faults.{fault_of};

    ghost from_gives = { λ e fault. fault ≡ fault_of e };

    fn from(e: LoadError) -> RunFault {
        match e {
            LoadError::BadDb(fault) => RunFault::BadDb(fault),
            LoadError::NoMemory => RunFault::Memory(Stage::Loading),
        }
    }
}

/// Returns the result of a run of the script with this path whose output was then flushed. The
/// replies before a fault are written all the same, and the first fault counts.
pub fn whole_run(
    ran: Result<(), RunFault>,
    flushed: io::Result<()>,
    script: String,
) -> Result<(), Stop>
    ensures { result ≡ whole_run ran flushed script }
{
    match ran {
        Ok(()) => match flushed {
            Ok(()) => Ok(()),
            Err(e) => Err(Stop::Write(Reason::of(&e))),
        },
        Err(RunFault::Write) => match flushed {
            Ok(()) => Err(Stop::Write(Reason::Other)),
            Err(e) => Err(Stop::Write(Reason::of(&e))),
        },
        Err(RunFault::BadDb(fault)) => Err(Stop::BadDb(fault)),
        Err(RunFault::Read(reason)) => Err(Stop::Unreadable(FileRole::Script, script, reason)),
        Err(RunFault::Memory(stage)) => Err(Stop::Memory(stage)),
    }
}
