//! Whether a binary type reads or writes RVAL or VAL, and the input that each receives.
ghost use Rattle.std.specs.Prelude.{◌≡◌};
ghost use Rattle.ioc_dbcommon.specs.Raw.{is_raw_soft, is_raw, raw_came, state_came, raw_constant, state_constant};

use crate::body::Got;
use crate::condition::Condition;
use crate::link_box::LinkBox;
use crate::parts::{ulong_in, ushort_in};
use ioc_values::{Kind, Range, of_number};

impl Condition {
    /// Returns whether DTYP is `Raw Soft Channel`, by which an analog type reads or writes RVAL in
    /// place of the value in engineering units.
    pub fn is_raw_soft(&self) -> bool
        ensures { result ≡ is_raw_soft self.now }
    {
        self.device_type.as_slice() == b"Raw Soft Channel".as_slice()
    }
}

#[tactic(auto, unfolding(crate::specs::Raw::is_raw))]
impl LinkBox {
    /// Returns whether the raw value is read or written through this link. It is if the link names
    /// a device, or if DTYP is `Raw Soft Channel`. Record Reference Manual, "Device Support for
    /// Soft Records".
    pub fn is_raw(&self, condition: &Condition) -> bool
        ensures { result ≡ is_raw self.now.link condition.now }
    {
        self.is_device() || condition.is_raw_soft()
    }
}

/// Returns the new RVAL for an input: the old RVAL if there was no input, or `None` after a fault.
pub fn raw_came(got: &Got, raw: u32) -> Option<u32>
    ensures { result ≡ raw_came got.now raw }
{
    match got {
        Got::Value(value) => Some(ulong_in(*value).unwrap_or(raw)),
        Got::Nothing => Some(raw),
        Got::Fault => None,
    }
}

/// Returns the new VAL for an input, or `None` if there was no input or after a fault.
pub fn state_came(got: &Got, state: u16) -> Option<u16>
    ensures { result ≡ state_came got.now state }
{
    match got {
        Got::Value(value) => Some(ushort_in(*value).unwrap_or(state)),
        Got::Nothing | Got::Fault => None,
    }
}

/// Returns a constant as RVAL, or `None` if it is below 0 or above 4294967295.
#[tactic(auto, unfolding(ioc_values::specs::Conversion::sort_of))]
pub fn raw_constant(constant: i64) -> Option<u32>
    ensures { result ≡ raw_constant constant }
{
    ulong_in(of_number(Kind::Number(Range::ULong), constant)?)
}

/// Returns a constant as VAL, or `None` if it is below 0 or above 65535.
#[tactic(auto, unfolding(ioc_values::specs::Conversion::sort_of))]
pub fn state_constant(constant: i64) -> Option<u16>
    ensures { result ≡ state_constant constant }
{
    ushort_in(of_number(Kind::Number(Range::UShort), constant)?)
}
