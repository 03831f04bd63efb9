//! The conversion between the raw value and the value in engineering units.
ghost use Rattle.std.specs.Prelude.{◌≡◌};
ghost use Rattle.ioc_double.specs.Size.{whole_double};
ghost use Rattle.rec_analog.specs.Scale.{new_scale, scale_get, scale_stored, adjusted, engineering, unscaled, unadjusted};
ghost use Rattle.rec_analog.specs.Scale.{half_away, long_of, raw_of};

use ioc_dbcommon::{double_in, linr_in, long_in, ulong_in};
use ioc_fields::OwnField;
use ioc_menus::Linr;
use ioc_values::{Double, Value};
use std::num::saturating_f64_to_i32;

const HALF: f64 = 0.5;

/// RVAL, and the fields by which it is converted. Record Reference Manual, "Analog Input Record",
/// "Linear Conversions".
#[derive(Clone, Copy, Drop)]
pub struct Scale {
    /// LINR.
    pub linearization: Linr,
    /// EGUF and EGUL, which are stored without effect.
    pub full: Double,
    pub low: Double,
    /// ESLO and EOFF.
    pub slope: Double,
    pub offset: Double,
    /// ASLO and AOFF.
    pub adjusting_slope: Double,
    pub adjusting_offset: Double,
    /// ROFF.
    pub raw_offset: u32,
    /// RVAL.
    pub raw: i32,
}

/// Returns 0.
fn zero() -> f64
    ensures { result ≡ whole_double 0 }
{
    f64::from(0i32)
}

/// Returns the number with a half added, or taken away if it is below 0.
#[tactic(auto, unfolding(crate::specs::Scale::half_away))]
fn half_away(number: f64) -> f64
    ensures { result ≡ half_away number }
{
    if zero() <= number {
        number + HALF
    } else {
        number - HALF
    }
}

/// Returns the number cut toward 0 and to the ends of 32 bits with a sign; NaN gives the lowest one.
#[tactic(auto, unfolding(crate::specs::Scale::long_of))]
fn long_of(number: f64) -> i32
    ensures { result ≡ long_of number }
{
    if number.is_nan() {
        i32::MIN
    } else {
        saturating_f64_to_i32(number)
    }
}

impl Scale {
    /// Creates the fields of a new record: ESLO and ASLO are 1, and all others 0.
    #[tactic(auto, unfolding(crate::specs::Scale::new_scale))]
    pub fn new() -> Self
        ensures { result ≡ new_scale }
    {
        Scale {
            linearization: Linr::NoConversion,
            full: Double::from(0i32),
            low: Double::from(0i32),
            slope: Double::from(1i32),
            offset: Double::from(0i32),
            adjusting_slope: Double::from(1i32),
            adjusting_offset: Double::from(0i32),
            raw_offset: 0,
            raw: 0,
        }
    }

    /// Returns the value of one of these fields.
    #[tactic(auto, unfolding(crate::specs::Scale::scale_get))]
    pub fn get(&self, field: OwnField) -> Option<Value>
        ensures { result ≡ scale_get self.now field }
    {
        Some(match field {
            OwnField::Linr => Value::Enum(self.linearization.number()),
            OwnField::Eguf => Value::Double(self.full),
            OwnField::Egul => Value::Double(self.low),
            OwnField::Eslo => Value::Double(self.slope),
            OwnField::Eoff => Value::Double(self.offset),
            OwnField::Aslo => Value::Double(self.adjusting_slope),
            OwnField::Aoff => Value::Double(self.adjusting_offset),
            OwnField::Roff => Value::ULong(self.raw_offset),
            OwnField::Rval => Value::Long(self.raw),
            _ => return None,
        })
    }

    /// Stores a value that was converted for one of these fields.
    #[tactic(auto, unfolding(crate::specs::Scale::scale_stored))]
    pub fn store(&mut self, field: OwnField, value: Value)
        ensures { self.new ≡ scale_stored self.old field value }
    {
        match field {
            OwnField::Linr => self.linearization = linr_in(value).unwrap_or(self.linearization),
            OwnField::Eguf => self.full = double_in(value).unwrap_or(self.full),
            OwnField::Egul => self.low = double_in(value).unwrap_or(self.low),
            OwnField::Eslo => self.slope = double_in(value).unwrap_or(self.slope),
            OwnField::Eoff => self.offset = double_in(value).unwrap_or(self.offset),
            OwnField::Aslo => self.adjusting_slope = double_in(value).unwrap_or(
                self.adjusting_slope,
            ),
            OwnField::Aoff => self.adjusting_offset = double_in(value).unwrap_or(
                self.adjusting_offset,
            ),
            OwnField::Roff => self.raw_offset = ulong_in(value).unwrap_or(self.raw_offset),
            OwnField::Rval => self.raw = long_in(value).unwrap_or(self.raw),
            _ => {}
        }
    }

    /// Returns RVAL with ROFF added, multiplied by ASLO unless that is 0, and with AOFF added.
    #[tactic(auto, unfolding(crate::specs::Scale::adjusted))]
    fn adjusted(&self) -> f64
        ensures { result ≡ adjusted self.now }
    {
        let moved = f64::from(self.raw) + f64::from(self.raw_offset);
        let slope = self.adjusting_slope.number();
        let sloped = if slope == zero() {
            moved
        } else {
            moved * slope
        };
        sloped + self.adjusting_offset.number()
    }

    /// Returns the value in engineering units of RVAL.
    #[tactic(auto, unfolding(crate::specs::Scale::engineering))]
    pub fn engineering(&self) -> Double
        ensures { result ≡ engineering self.now }
    {
        let adjusted = self.adjusted();
        Double::new(match self.linearization {
            Linr::NoConversion => adjusted,
            Linr::Slope | Linr::Linear => adjusted * self.slope.number() + self.offset.number(),
        })
    }

    /// Returns a value in engineering units without ESLO and EOFF: 0 if ESLO is 0.
    #[tactic(auto, unfolding(crate::specs::Scale::unscaled))]
    fn unscaled(&self, value: f64) -> f64
        ensures { result ≡ unscaled self.now value }
    {
        let slope = self.slope.number();
        match self.linearization {
            Linr::NoConversion => value,
            Linr::Slope | Linr::Linear => {
                if slope == zero() {
                    zero()
                } else {
                    (value - self.offset.number()) / slope
                }
            }
        }
    }

    /// Returns a value without AOFF, and without ASLO unless that is 0.
    #[tactic(auto, unfolding(crate::specs::Scale::unadjusted))]
    fn unadjusted(&self, value: f64) -> f64
        ensures { result ≡ unadjusted self.now value }
    {
        let moved = value - self.adjusting_offset.number();
        let slope = self.adjusting_slope.number();
        if slope == zero() {
            moved
        } else {
            moved / slope
        }
    }

    /// Returns the raw value of a value in engineering units, rounded with a half away from 0.
    #[tactic(auto, unfolding(crate::specs::Scale::raw_of))]
    pub fn raw_of(&self, value: Double) -> i32
        ensures { result ≡ raw_of self.now value }
    {
        let raw = half_away(self.unadjusted(self.unscaled(value.number())));
        long_of(raw).wrapping_sub(self.raw_offset.cast_signed())
    }
}
