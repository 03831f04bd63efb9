//! Deadbands.
ghost use Rattle.std.specs.Prelude.{◌≡◌, ◌-ℤ◌, ◌+ℤ◌, int_lt};
ghost use Rattle.ioc_monitor.specs.Monitors.{is_beyond};

// Returns whether a value is above another one by more than a deadband. Every sum of two 64-bit values fits 128 bits, so it doesn't
// wrap.
fn is_above(band: i64, last: i64, now: i64) -> bool
    ensures { result ≡ int_lt (last +ℤ band) now }
{
    let edge = last as i128 + band as i128;
    edge < now as i128
}

// Returns whether a value is below another one by more than a deadband.
fn is_below(band: i64, last: i64, now: i64) -> bool
    ensures { result ≡ int_lt now (last -ℤ band) }
{
    let edge = last as i128 - band as i128;
    (now as i128) < edge
}

/// Returns whether a value lies beyond a deadband around the value that was posted last. The sums are exact. A deadband below 0 lets
/// each value through, also one that hasn't changed, and a deadband of 0 each value that has changed.
#[tactic(auto, unfolding(crate::specs::Monitors::is_beyond))]
pub fn is_beyond(band: i64, last: i64, now: i64) -> bool
    ensures { result ≡ is_beyond band last now }
{
    band < 0 || (is_above(band, last, now) || is_below(band, last, now))
}
