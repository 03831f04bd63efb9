//! Engines that are lent to a program.
ghost use Rattle.std.specs.Prelude.{◌≡◌, ◌⊎◌, [], IfOk, IfErr, OnOk};
ghost use Rattle.ioc_values.specs.declared.error.IocError.TheVariants.{BadValue, JournalFull, NoMemory, Stopped};
ghost use Rattle.ioc_journal.specs.Account.{calls, calls_by};
ghost use Rattle.ioc_journal.specs.Places.{AreAllowed};
ghost use Rattle.ioc_engine.specs.Named.{IsNamedBy};

use crate::desk::Desk;
use crate::engine::Engine;
use crate::engine_name::EngineName;
use crate::seed::Seed;
use crate::starting::Started;
use ioc_device::Device;
use ioc_engine_core::Clock;
use ioc_journal::Limits;
use ioc_values::IocError;
use std::alloc::Global;
use std::marker::Brand;
use std::sync::Wait;

/// What a program does with an engine that [`with_engine`] lends to it: `D` is the type of the
/// devices, `C` that of the clock, `R` that of the handle by which calls wait, and `T` that of what
/// it returns.
///
/// The ghost item `needs` is for contracts: what the work may rely on about the names and types of the
/// database, and about the limits, which [`with_engine`] requires of the seed and of the limits that
/// it is given. Work that leaves it out relies on nothing.
///
/// ```rust
/// struct Copying;
///
/// impl<R: Wait> EngineWork<Tank, CountingClock, R, Result<(), IocError>> for Copying {
///     fn work<B: EngineName<Tank> + Send + Sync>(
///         self,
///         rt: &R,
///         engine: &Engine<B, Tank, CountingClock>,
///         desk: &mut Desk<B, Tank>,
///     ) -> Result<(), IocError> {
///         engine.process(rt, desk, engine.record(b"copy")?)?;
///         Ok(())
///     }
/// }
/// ```
pub trait EngineWork<D: Device, C: Clock + Drop, R: Wait, T> {
    ghost use Rattle.ioc_engine.specs.declared.lookup.Lookup.{Lookup};
    ghost use Rattle.ioc_journal.specs.declared.limits.Limits.{Limits};

    /// Relates the work to the names and types of the database, and to the limits of the engine, with
    /// which it may be done.
    ghost needs: { Self → Lookup → Limits → Type 0 } = { λ _ _ _. Unit {0} };

    /// Relates the work to what it may return.
    ghost gives: { Self → T → Type 0 } = { λ _ _. Unit {0} };

    /// Does the work by a desk, which has made no call yet. Other threads open desks of their own.
    fn work<B: EngineName<D> + Send + Sync>(
        self,
        rt: &R,
        engine: &Engine<B, D, C>,
        desk: &mut Desk<B, D>,
    ) -> T
        requires needs { needs self engine.now.lookup engine.now.limits }
        requires new { (desk.old.account.next ≡ 0) × (calls_by desk.old.account.number (calls desk.old.account.seen) ≡ []) }
        ensures { gives self result };
}

// Starts an engine of any name, lends it with a desk to the work, and drops both.
fn lend<
    B: EngineName<D> + Send + Sync,
    D: Device,
    C: Clock + Drop,
    R: Wait,
    T,
    W: EngineWork<D, C, R, T> + Drop,
>(rt: &R, alloc: Global, seed: Seed<D>, clock: C, limits: Limits, work: W) -> Result<T, IocError>
    requires named { IsNamedBy B.table B.base B.devices B.places B.tickets B.counts seed }
    requires needs { W.needs work seed.lookup limits }
    ensures done { IfOk result (W.gives work) }
    ensures limits { OnOk result (AreAllowed limits) }
    ensures refused { IfErr result (λ error. ((error ≡ BadValue) × (AreAllowed limits → ⊥))
        ⊎ ((error ≡ NoMemory) ⊎ ((error ≡ JournalFull) ⊎ (error ≡ Stopped)))) }
{
    let Started { engine, .. } = Engine::<B, D, C>::start(rt, alloc, seed, clock, limits)?;
    let mut desk = engine.desk(rt)?;
    Ok(work.work(rt, &engine, &mut desk))
}

/// Starts an engine as [`Engine::start`] does, lends it with a desk to the work, and drops both.
/// Returns what the work returned. A program that owns an engine is checked for minutes more: each
/// part of the engine ends in a function of the program then, which has a proof of its own. And it
/// says in its contracts which engine it is, which this function does for the program.
///
/// # Errors
///
/// Those of [`Engine::start`] and of [`Engine::desk`].
pub fn with_engine<D: Device, C: Clock + Drop, R: Wait, T, W: EngineWork<D, C, R, T> + Drop>(
    rt: &R,
    alloc: Global,
    seed: Seed<D>,
    clock: C,
    limits: Limits,
    work: W,
) -> Result<T, IocError>
    requires needs { W.needs work seed.lookup limits }
    ensures done { IfOk result (W.gives work) }
    ensures limits { OnOk result (AreAllowed limits) }
    ensures refused { IfErr result (λ error. ((error ≡ BadValue) × (AreAllowed limits → ⊥))
        ⊎ ((error ≡ NoMemory) ⊎ ((error ≡ JournalFull) ⊎ (error ≡ Stopped)))) }
{
    lend::<Brand, D, C, R, T, W>(rt, alloc, seed, clock, limits, work)
}
