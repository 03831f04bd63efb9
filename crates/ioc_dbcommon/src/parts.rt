//! The parts of a converted value, by the kind of the field that it is for.
ghost use Rattle.std.specs.Prelude.{◌≡◌};
ghost use Rattle.ioc_dbcommon.specs.Parts.{long_in, int64_in, ulong_in, short_in, ushort_in, uchar_in, state_in, double_in};
ghost use Rattle.ioc_dbcommon.specs.Parts.{text_in, severity_in, omsl_in, ivoa_in, scan_in, pini_in, priority_in, linr_in};
ghost use Rattle.ioc_dbcommon.specs.Parts.{oif_in, oopt_in, dopt_in, selmode_in};

use ioc_menus::{Dopt, Ivoa, Linr, Oif, Omsl, Oopt, Pini, Priority, Scan, Selmode, Severity};
use ioc_values::{Double, Text, Value};

/// Returns the number of a Long.
pub fn long_in(value: Value) -> Option<i32>
    ensures { result ≡ long_in value }
{
    if let Value::Long(number) = value {
        Some(number)
    } else {
        None
    }
}

/// Returns the number of an Int64.
pub fn int64_in(value: Value) -> Option<i64>
    ensures { result ≡ int64_in value }
{
    if let Value::Int64(number) = value {
        Some(number)
    } else {
        None
    }
}

/// Returns the number of a ULong.
pub fn ulong_in(value: Value) -> Option<u32>
    ensures { result ≡ ulong_in value }
{
    if let Value::ULong(number) = value {
        Some(number)
    } else {
        None
    }
}

/// Returns the number of a Short.
pub fn short_in(value: Value) -> Option<i16>
    ensures { result ≡ short_in value }
{
    if let Value::Short(number) = value {
        Some(number)
    } else {
        None
    }
}

/// Returns the number of a UShort.
pub fn ushort_in(value: Value) -> Option<u16>
    ensures { result ≡ ushort_in value }
{
    if let Value::UShort(number) = value {
        Some(number)
    } else {
        None
    }
}

/// Returns the number of a UChar.
pub fn uchar_in(value: Value) -> Option<u8>
    ensures { result ≡ uchar_in value }
{
    if let Value::UChar(number) = value {
        Some(number)
    } else {
        None
    }
}

/// Returns the number of a state or a choice.
pub fn state_in(value: Value) -> Option<u16>
    ensures { result ≡ state_in value }
{
    if let Value::Enum(number) = value {
        Some(number)
    } else {
        None
    }
}

/// Returns the double of a Double.
pub fn double_in(value: Value) -> Option<Double>
    ensures { result ≡ double_in value }
{
    if let Value::Double(number) = value {
        Some(number)
    } else {
        None
    }
}

/// Returns the text of a text value.
pub fn text_in(value: Value) -> Option<Text>
    ensures { result ≡ text_in value }
{
    if let Value::Text(text) = value {
        Some(text)
    } else {
        None
    }
}

/// Returns the severity of a value for a severity field.
pub fn severity_in(value: Value) -> Option<Severity>
    ensures { result ≡ severity_in value }
{
    if let Value::Enum(number) = value {
        Severity::from_number(number)
    } else {
        None
    }
}

/// Returns the OMSL choice of a value.
pub fn omsl_in(value: Value) -> Option<Omsl>
    ensures { result ≡ omsl_in value }
{
    if let Value::Enum(number) = value {
        Omsl::from_number(number)
    } else {
        None
    }
}

/// Returns the IVOA choice of a value.
pub fn ivoa_in(value: Value) -> Option<Ivoa>
    ensures { result ≡ ivoa_in value }
{
    if let Value::Enum(number) = value {
        Ivoa::from_number(number)
    } else {
        None
    }
}

/// Returns the SCAN choice of a value.
pub fn scan_in(value: Value) -> Option<Scan>
    ensures { result ≡ scan_in value }
{
    if let Value::Enum(number) = value {
        Scan::from_number(number)
    } else {
        None
    }
}

/// Returns the PINI choice of a value.
pub fn pini_in(value: Value) -> Option<Pini>
    ensures { result ≡ pini_in value }
{
    if let Value::Enum(number) = value {
        Pini::from_number(number)
    } else {
        None
    }
}

/// Returns the PRIO choice of a value.
pub fn priority_in(value: Value) -> Option<Priority>
    ensures { result ≡ priority_in value }
{
    if let Value::Enum(number) = value {
        Priority::from_number(number)
    } else {
        None
    }
}

/// Returns the LINR choice of a value.
pub fn linr_in(value: Value) -> Option<Linr>
    ensures { result ≡ linr_in value }
{
    if let Value::Enum(number) = value {
        Linr::from_number(number)
    } else {
        None
    }
}

/// Returns the OIF choice of a value.
pub fn oif_in(value: Value) -> Option<Oif>
    ensures { result ≡ oif_in value }
{
    if let Value::Enum(number) = value {
        Oif::from_number(number)
    } else {
        None
    }
}

/// Returns the OOPT choice of a value.
pub fn oopt_in(value: Value) -> Option<Oopt>
    ensures { result ≡ oopt_in value }
{
    if let Value::Enum(number) = value {
        Oopt::from_number(number)
    } else {
        None
    }
}

/// Returns the DOPT choice of a value.
pub fn dopt_in(value: Value) -> Option<Dopt>
    ensures { result ≡ dopt_in value }
{
    if let Value::Enum(number) = value {
        Dopt::from_number(number)
    } else {
        None
    }
}

/// Returns the SELM choice of a value for a sel.
pub fn selmode_in(value: Value) -> Option<Selmode>
    ensures { result ≡ selmode_in value }
{
    if let Value::Enum(number) = value {
        Selmode::from_number(number)
    } else {
        None
    }
}
