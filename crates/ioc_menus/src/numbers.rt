//! The numbers of the choices, which are counted from 0 in the order of each menu. Record
//! Reference Manual, "Menu Types".
ghost use Rattle.std.specs.Prelude.{◌≡◌, slice_get};
ghost use Rattle.ioc_menus.specs.Numbers.{severity_number, severities, status_number, statuses, scan_number, scans};
ghost use Rattle.ioc_menus.specs.Numbers.{priority_number, priorities, pini_number, pinis, omsl_number, omsls, ivoa_number};
ghost use Rattle.ioc_menus.specs.Numbers.{ivoas, selm_number, selms, linr_number, linrs, oif_number, oifs, oopt_number, oopts};
ghost use Rattle.ioc_menus.specs.Numbers.{dopt_number, dopts, selmode_number, selmodes, IsNumbered};

use crate::dopt::Dopt;
use crate::ivoa::Ivoa;
use crate::linr::Linr;
use crate::oif::Oif;
use crate::omsl::Omsl;
use crate::oopt::Oopt;
use crate::pini::Pini;
use crate::priority::Priority;
use crate::scan::Scan;
use crate::selm::Selm;
use crate::selmode::Selmode;
use crate::severity::Severity;
use crate::status::Status;

static SEVERITIES: [Severity; 4] = [
    Severity::NoAlarm,
    Severity::Minor,
    Severity::Major,
    Severity::Invalid,
];

static STATUSES: [Status; 22] = [
    Status::NoAlarm,
    Status::Read,
    Status::Write,
    Status::Hihi,
    Status::High,
    Status::Lolo,
    Status::Low,
    Status::State,
    Status::Cos,
    Status::Comm,
    Status::Timeout,
    Status::HwLimit,
    Status::Calc,
    Status::Scan,
    Status::Link,
    Status::Soft,
    Status::BadSub,
    Status::Udf,
    Status::Disable,
    Status::Simm,
    Status::ReadAccess,
    Status::WriteAccess,
];

static SCANS: [Scan; 10] = [
    Scan::Passive,
    Scan::Event,
    Scan::IoIntr,
    Scan::TenSeconds,
    Scan::FiveSeconds,
    Scan::TwoSeconds,
    Scan::OneSecond,
    Scan::HalfSecond,
    Scan::FifthSecond,
    Scan::TenthSecond,
];

static PRIORITIES: [Priority; 3] = [Priority::Low, Priority::Medium, Priority::High];

static PINIS: [Pini; 2] = [Pini::No, Pini::Yes];

static OMSLS: [Omsl; 2] = [Omsl::Supervisory, Omsl::ClosedLoop];

static IVOAS: [Ivoa; 3] = [
    Ivoa::ContinueNormally,
    Ivoa::DontDriveOutputs,
    Ivoa::SetOutputToIvov,
];

static SELMS: [Selm; 3] = [Selm::All, Selm::Specified, Selm::Mask];

static LINRS: [Linr; 3] = [Linr::NoConversion, Linr::Slope, Linr::Linear];

static OIFS: [Oif; 2] = [Oif::Full, Oif::Incremental];

static OOPTS: [Oopt; 6] = [
    Oopt::EveryTime,
    Oopt::OnChange,
    Oopt::WhenZero,
    Oopt::WhenNonZero,
    Oopt::TransitionToZero,
    Oopt::TransitionToNonZero,
];

static DOPTS: [Dopt; 2] = [Dopt::UseCalc, Dopt::UseOcal];

static SELMODES: [Selmode; 4] = [
    Selmode::Specified,
    Selmode::HighSignal,
    Selmode::LowSignal,
    Selmode::MedianSignal,
];

// Returns the choice with this number among the choices of a menu.
#[inline]
fn choice_at<C: Copy>(choices: &[C], number: u16) -> Option<C>
    ensures { result ≡ slice_get choices.now number }
{
    choices.get(number as usize).copied()
}

impl Severity {
    /// Returns the number of the choice, counted from 0.
    pub fn number(self) -> u16
        ensures { result ≡ severity_number self }
    {
        self as u16
    }

    /// Returns the choice with this number, or `None` if there is none.
    pub fn from_number(number: u16) -> Option<Self>
        ensures value { result ≡ slice_get severities number }
        ensures numbered { IsNumbered severity_number number result }
    {
        choice_at(&SEVERITIES, number)
    }
}

impl Status {
    /// Returns the number of the choice, counted from 0.
    pub fn number(self) -> u16
        ensures { result ≡ status_number self }
    {
        self as u16
    }

    /// Returns the choice with this number, or `None` if there is none.
    pub fn from_number(number: u16) -> Option<Self>
        ensures value { result ≡ slice_get statuses number }
        ensures numbered { IsNumbered status_number number result }
    {
        choice_at(&STATUSES, number)
    }
}

impl Scan {
    /// Returns the number of the choice, counted from 0.
    pub fn number(self) -> u16
        ensures { result ≡ scan_number self }
    {
        self as u16
    }

    /// Returns the choice with this number, or `None` if there is none.
    pub fn from_number(number: u16) -> Option<Self>
        ensures value { result ≡ slice_get scans number }
        ensures numbered { IsNumbered scan_number number result }
    {
        choice_at(&SCANS, number)
    }
}

impl Priority {
    /// Returns the number of the choice, counted from 0.
    pub fn number(self) -> u16
        ensures { result ≡ priority_number self }
    {
        self as u16
    }

    /// Returns the choice with this number, or `None` if there is none.
    pub fn from_number(number: u16) -> Option<Self>
        ensures value { result ≡ slice_get priorities number }
        ensures numbered { IsNumbered priority_number number result }
    {
        choice_at(&PRIORITIES, number)
    }
}

impl Pini {
    /// Returns the number of the choice, counted from 0.
    pub fn number(self) -> u16
        ensures { result ≡ pini_number self }
    {
        self as u16
    }

    /// Returns the choice with this number, or `None` if there is none.
    pub fn from_number(number: u16) -> Option<Self>
        ensures value { result ≡ slice_get pinis number }
        ensures numbered { IsNumbered pini_number number result }
    {
        choice_at(&PINIS, number)
    }
}

impl Omsl {
    /// Returns the number of the choice, counted from 0.
    pub fn number(self) -> u16
        ensures { result ≡ omsl_number self }
    {
        self as u16
    }

    /// Returns the choice with this number, or `None` if there is none.
    pub fn from_number(number: u16) -> Option<Self>
        ensures value { result ≡ slice_get omsls number }
        ensures numbered { IsNumbered omsl_number number result }
    {
        choice_at(&OMSLS, number)
    }
}

impl Ivoa {
    /// Returns the number of the choice, counted from 0.
    pub fn number(self) -> u16
        ensures { result ≡ ivoa_number self }
    {
        self as u16
    }

    /// Returns the choice with this number, or `None` if there is none.
    pub fn from_number(number: u16) -> Option<Self>
        ensures value { result ≡ slice_get ivoas number }
        ensures numbered { IsNumbered ivoa_number number result }
    {
        choice_at(&IVOAS, number)
    }
}

impl Selm {
    /// Returns the number of the choice, counted from 0.
    pub fn number(self) -> u16
        ensures { result ≡ selm_number self }
    {
        self as u16
    }

    /// Returns the choice with this number, or `None` if there is none.
    pub fn from_number(number: u16) -> Option<Self>
        ensures value { result ≡ slice_get selms number }
        ensures numbered { IsNumbered selm_number number result }
    {
        choice_at(&SELMS, number)
    }
}

impl Linr {
    /// Returns the number of the choice, counted from 0.
    pub fn number(self) -> u16
        ensures { result ≡ linr_number self }
    {
        self as u16
    }

    /// Returns the choice with this number, or `None` if there is none.
    pub fn from_number(number: u16) -> Option<Self>
        ensures value { result ≡ slice_get linrs number }
        ensures numbered { IsNumbered linr_number number result }
    {
        choice_at(&LINRS, number)
    }
}

impl Oif {
    /// Returns the number of the choice, counted from 0.
    pub fn number(self) -> u16
        ensures { result ≡ oif_number self }
    {
        self as u16
    }

    /// Returns the choice with this number, or `None` if there is none.
    pub fn from_number(number: u16) -> Option<Self>
        ensures value { result ≡ slice_get oifs number }
        ensures numbered { IsNumbered oif_number number result }
    {
        choice_at(&OIFS, number)
    }
}

impl Oopt {
    /// Returns the number of the choice, counted from 0.
    pub fn number(self) -> u16
        ensures { result ≡ oopt_number self }
    {
        self as u16
    }

    /// Returns the choice with this number, or `None` if there is none.
    pub fn from_number(number: u16) -> Option<Self>
        ensures value { result ≡ slice_get oopts number }
        ensures numbered { IsNumbered oopt_number number result }
    {
        choice_at(&OOPTS, number)
    }
}

impl Dopt {
    /// Returns the number of the choice, counted from 0.
    pub fn number(self) -> u16
        ensures { result ≡ dopt_number self }
    {
        self as u16
    }

    /// Returns the choice with this number, or `None` if there is none.
    pub fn from_number(number: u16) -> Option<Self>
        ensures value { result ≡ slice_get dopts number }
        ensures numbered { IsNumbered dopt_number number result }
    {
        choice_at(&DOPTS, number)
    }
}

impl Selmode {
    /// Returns the number of the choice, counted from 0.
    pub fn number(self) -> u16
        ensures { result ≡ selmode_number self }
    {
        self as u16
    }

    /// Returns the choice with this number, or `None` if there is none.
    pub fn from_number(number: u16) -> Option<Self>
        ensures value { result ≡ slice_get selmodes number }
        ensures numbered { IsNumbered selmode_number number result }
    {
        choice_at(&SELMODES, number)
    }
}
