//! The choices of LINR of ai and ao. Record Reference Manual, "Analog Input Record", "Linear
//! Conversions".

/// How a raw value and a value in engineering units are converted.
#[derive(Clone, Copy, PartialEq, Eq, Debug)]
pub enum Linr {
    /// ESLO and EOFF aren't used.
    NoConversion,
    Slope,
    /// The same as `Slope`, since no device support makes ESLO and EOFF of EGUF and EGUL.
    Linear,
}
