//! When the ticks of a clock are due.
ghost use Rattle.std.specs.Prelude.{◌≡◌, ◌<◌, ◌+◌, ◌-◌, ◌*◌, ◌/◌, ◌^◌, max};

/// The number of nanoseconds from one tick to the next: a tenth of a second.
pub const TICK: u64 = 100_000_000;

/// The next tick that is walked, and how many before it are left out because they are past.
#[derive(Clone, Copy)]
pub struct Next {
    pub tick: u64,
    pub missed: u64,
}

/// How the ticks of a clock went so far.
#[derive(Clone, Copy)]
pub struct Pace {
    /// How many ticks were walked.
    pub ticks: u64,
    /// How many were left out.
    pub missed: u64,
    /// How many nanoseconds after its time the last one began.
    pub late: u64,
}

/// Returns the tick after the last one that was walked, so many nanoseconds after the start: the
/// one after it, or, if later ones are due already, the last of these. So ticks don't drift, and
/// none is made up for.
pub fn next_tick(last: u64, elapsed: u64) -> Next
    ensures tick { last < 2 ^ 64 - 1 → result.tick ≡ max (last + 1) (elapsed / 100_000_000) }
    ensures missed { last < 2 ^ 64 - 1 → last + 1 + result.missed ≡ result.tick }
{
    let due = elapsed / TICK;
    let after = last.saturating_add(1);
    if due > after {
        return Next {
            tick: due,
            missed: due - after,
        };
    }
    Next {
        tick: after,
        missed: 0,
    }
}

/// Returns how many nanoseconds it takes from this moment, so many nanoseconds after the start, until
/// a tick is due; 0 if it is.
pub fn wait_for(tick: u64, elapsed: u64) -> u64
    ensures { tick * 100_000_000 < 2 ^ 64 → result ≡ tick * 100_000_000 - elapsed }
{
    tick.saturating_mul(TICK).saturating_sub(elapsed)
}

impl Pace {
    /// No tick was walked yet.
    pub fn new() -> Self {
        Pace {
            ticks: 0,
            missed: 0,
            late: 0,
        }
    }

    /// Counts a tick that begins so many nanoseconds after the start.
    pub fn count(&mut self, next: Next, elapsed: u64) {
        self.ticks = self.ticks.saturating_add(1);
        self.missed = self.missed.saturating_add(next.missed);
        self.late = elapsed.saturating_sub(next.tick.saturating_mul(TICK));
    }
}
