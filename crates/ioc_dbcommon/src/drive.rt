//! The fields that control the output of the output types.
ghost use Rattle.std.specs.Prelude.{◌≡◌, IfOk};
ghost use Rattle.std.specs.Option.{option_copied};
ghost use Rattle.std.specs.Prelude.{IsTrue};
ghost use Rattle.ioc_dbcommon.specs.Wants.{need_of, link_wanted, puts_out};
ghost use Rattle.ioc_dbcommon.specs.Drive.{new_drive, drive_link, drive_with_link, drive_get, drive_stored, drive_begin, drives};
ghost use Rattle.ioc_dbcommon.specs.Drive.{sets, written};

use crate::body::{Need, Output};
use crate::condition::Condition;
use crate::link_box::LinkBox;
use crate::link_field::LinkUse;
use crate::parts::{ivoa_in, omsl_in};
use ioc_fields::OwnField;
use ioc_menus::{Ivoa, Omsl, Severity};
use ioc_values::Value;
use std::alloc::{AllocError, Global};

/// OUT, DOL, OMSL and IVOA. Record Reference Manual, "Output Specification" and "Invalid Output
/// Action".
#[derive(Drop)]
pub struct Drive {
    /// OUT.
    pub output: LinkBox,
    /// DOL.
    pub desired: LinkBox,
    /// OMSL.
    pub mode: Omsl,
    /// IVOA.
    pub on_invalid: Ivoa,
}

/// Returns whether IVOA says that the output is set to IVOV, because of a raised INVALID alarm.
#[tactic(auto, unfolding(crate::specs::Drive::sets))]
pub fn sets(on_invalid: Ivoa, condition: &Condition) -> bool
    ensures { result ≡ sets on_invalid condition.now }
{
    match (condition.alarms.new_severity, on_invalid) {
        (Severity::Invalid, Ivoa::SetOutputToIvov) => true,
        _ => false,
    }
}

/// Returns whether the output is driven. It isn't if an INVALID alarm is raised and IVOA says so.
#[tactic(auto, unfolding(crate::specs::Drive::drives))]
pub fn drives(on_invalid: Ivoa, condition: &Condition) -> bool
    ensures { result ≡ drives on_invalid condition.now }
{
    match (condition.alarms.new_severity, on_invalid) {
        (Severity::Invalid, Ivoa::DontDriveOutputs) => false,
        _ => true,
    }
}

impl LinkBox {
    /// Writes a value to the output that the link leads to. Returns false, with `output` unchanged, if
    /// it leads nowhere.
    #[tactic(auto, unfolding(crate::specs::Drive::written))]
    pub fn write(&self, value: Value, output: &mut Output) -> bool
        ensures puts_out { result ≡ puts_out (written self.now value) }
        ensures output { IsTrue result → output.new ≡ written self.now value }
    {
        match self.in_use() {
            LinkUse::Unused => return false,
            LinkUse::OwnDevice => *output = Output::WriteDevice(value),
            link => *output = Output::WriteLink(link, value),
        }
        true
    }
}

impl Drive {
    /// Creates the fields of a new record.
    #[tactic(auto, unfolding(crate::specs::Drive::new_drive))]
    pub fn new() -> Self
        ensures { result ≡ new_drive }
    {
        Drive {
            output: LinkBox::empty(),
            desired: LinkBox::empty(),
            mode: Omsl::Supervisory,
            on_invalid: Ivoa::ContinueNormally,
        }
    }

    /// Copies the fields.
    ///
    /// # Errors
    ///
    /// [`AllocError`] if allocation fails.
    pub fn copy(&self, alloc: Global) -> Result<Self, AllocError>
        ensures { IfOk result (λ copy. copy ≡ self.now) }
    {
        let output = self.output.copy(alloc)?;
        let desired = self.desired.copy(alloc)?;
        Ok(Drive {
            output,
            desired,
            mode: self.mode,
            on_invalid: self.on_invalid,
        })
    }

    /// Copies the fields of `other`, which must have the same links. It never allocates.
    pub fn copy_from(&mut self, other: &Drive)
        requires output { self.old.output ≡ other.now.output }
        requires desired { self.old.desired ≡ other.now.desired }
        ensures { self.new ≡ other.now }
    {
        self.mode = other.mode;
        self.on_invalid = other.on_invalid;
    }

    pub fn link(&self, field: OwnField) -> Option<&LinkBox>
        ensures { option_copied result ≡ drive_link self.now.output self.now.desired field }
    {
        match field {
            OwnField::Out => Some(&self.output),
            OwnField::Dol => Some(&self.desired),
            _ => None,
        }
    }

    #[tactic(auto, unfolding(crate::specs::Drive::drive_with_link))]
    pub fn set_link(&mut self, field: OwnField, link: LinkBox)
        ensures { self.new ≡ drive_with_link self.old field link }
    {
        match field {
            OwnField::Out => self.output = link,
            OwnField::Dol => self.desired = link,
            _ => {}
        }
    }

    #[tactic(auto, unfolding(crate::specs::Drive::drive_get))]
    pub fn get(&self, field: OwnField) -> Option<Value>
        ensures { result ≡ drive_get self.now field }
    {
        match field {
            OwnField::Omsl => Some(Value::Enum(self.mode.number())),
            OwnField::Ivoa => Some(Value::Enum(self.on_invalid.number())),
            _ => None,
        }
    }

    #[tactic(auto, unfolding(crate::specs::Drive::drive_stored))]
    pub fn store(&mut self, field: OwnField, value: Value)
        ensures { self.new ≡ drive_stored self.old field value }
    {
        match field {
            OwnField::Omsl => self.mode = omsl_in(value).unwrap_or(self.mode),
            OwnField::Ivoa => self.on_invalid = ivoa_in(value).unwrap_or(self.on_invalid),
            _ => {}
        }
    }

    /// Returns what is needed first: DOL in a closed loop.
    #[tactic(auto, unfolding(crate::specs::Drive::drive_begin))]
    pub fn begin(&self) -> Need
        ensures { result ≡ need_of (drive_begin self.now.mode self.now.desired) }
    {
        match self.mode {
            Omsl::ClosedLoop => self.desired.need(),
            Omsl::Supervisory => Need::Nothing,
        }
    }

    /// Returns the link that is read, if there is one.
    #[tactic(auto, unfolding(crate::specs::Drive::drive_begin))]
    pub fn wanted_link(&self) -> LinkUse
        ensures { result ≡ link_wanted (drive_begin self.now.mode self.now.desired) }
    {
        match self.mode {
            Omsl::ClosedLoop => self.desired.in_use(),
            Omsl::Supervisory => LinkUse::Unused,
        }
    }

    /// Returns whether the output is set to IVOV because of a raised INVALID alarm.
    pub fn sets(&self, condition: &Condition) -> bool
        ensures { result ≡ sets self.now.on_invalid condition.now }
    {
        sets(self.on_invalid, condition)
    }

    /// Returns whether the output is driven. It isn't if an INVALID alarm is raised and IVOA says
    /// so.
    pub fn drives(&self, condition: &Condition) -> bool
        ensures { result ≡ drives self.now.on_invalid condition.now }
    {
        drives(self.on_invalid, condition)
    }

    /// Writes a value to the output that OUT leads to. Returns false, with `output` unchanged, if
    /// OUT leads nowhere.
    pub fn write(&self, value: Value, output: &mut Output) -> bool
        ensures puts_out { result ≡ puts_out (written self.now.output value) }
        ensures output { IsTrue result → output.new ≡ written self.now.output value }
    {
        self.output.write(value, output)
    }
}
