//! Whether a change of a value is sent to monitors.
ghost use Rattle.std.specs.Prelude.{◌≡◌, false};
ghost use Rattle.std.specs.Float.Ieee.{inf};
ghost use Rattle.rec_analog.specs.Deadband.{jump, change, exceeds};

use ioc_values::Double;

/// Returns the positive infinity.
fn infinity() -> f64
    ensures { result ≡ inf false }
{
    f64::INFINITY
}

/// Returns how far a value has moved that was NaN or infinite, or is now: 0 if it is the same, and else
/// an infinity.
#[tactic(auto, unfolding(crate::specs::Deadband::jump))]
fn jump(old: Double, new: Double) -> f64
    ensures { result ≡ jump old new }
{
    if old == new {
        f64::from(0i32)
    } else {
        infinity()
    }
}

/// Returns how far a value has moved: the size of the difference of two finite values; an infinity
/// where one alone is NaN or infinite, or where they are unlike infinities; and else 0.
#[tactic(auto, unfolding(crate::specs::Deadband::change))]
fn change(old: Double, new: Double) -> f64
    ensures { result ≡ change old new }
{
    if old.number().is_finite() && new.number().is_finite() {
        (old.number() - new.number()).abs()
    } else {
        jump(old, new)
    }
}

/// Returns whether a value has moved by more than a deadband. It has for each deadband below 0, and
/// for none that is NaN. Record Reference Manual, "Monitor Parameters".
#[tactic(auto, unfolding(crate::specs::Deadband::exceeds))]
pub fn exceeds(old: Double, new: Double, band: Double) -> bool
    ensures { result ≡ exceeds old new band }
{
    band.number() < change(old, new)
}
