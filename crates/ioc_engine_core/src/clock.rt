//! Clocks, which give events their time stamps.
ghost use Rattle.std.specs.Prelude.{◌≡◌};

/// A clock that gives the time stamps of calls, which records show in TIME. A call on a record reads
/// it while the lock of the record's set is held. Every time is allowed: the next one may be the
/// same or an earlier one. If no thread is given an earlier time than one that was given before, the
/// TIME of a record never falls.
///
/// The ghost item `gives` is for contracts: it relates a clock to the times that it may give, and
/// the contract of a call names a time that the engine's clock may give. A clock that leaves it out
/// may give any time.
///
/// ```rust
/// struct WholeSeconds(FixedClock);
///
/// impl Clock for WholeSeconds {
///     fn now(&self) -> u64 {
///         self.0.now() / 1_000_000_000 * 1_000_000_000
///     }
/// }
/// ```
pub trait Clock {
    ghost use Rattle.std.specs.Prelude.{ℕ};

    /// Relates a clock to a time that it may give.
    ghost gives: { Self → ℕ → Type 0 } = { λ _ _. Unit {0} };

    /// Returns the present time in nanoseconds since 1970-01-01 00:00 UTC.
    fn now(&self) -> u64
        ensures { gives self.now result };
}

/// A clock that always gives one time, in nanoseconds since 1970-01-01 00:00 UTC.
///
/// ```rust
/// // 2001-09-09 01:46:40 UTC.
/// let clock = FixedClock(1_000_000_000_000_000_000);
/// let Started { engine, .. } = Engine::<B, _, _>::start(rt, alloc, seed, clock, Limits::default())?;
/// ```
#[derive(Clone, Copy, PartialEq, Eq, Debug)]
pub struct FixedClock(pub u64);

impl Clock for FixedClock {
    ghost gives = { λ clock time. time ≡ clock.0 };

    fn now(&self) -> u64 {
        self.0
    }
}
