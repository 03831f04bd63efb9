//! The start of an engine.
ghost use Rattle.std.specs.Prelude.{◌≡◌, ◌↔◌, ◌⊎◌, [], None, length, map, IfOk, IfErr, IfSome, OnOk};
ghost use Rattle.rec_types.specs.Record.{record_rules};
ghost use Rattle.ioc_values.specs.declared.error.IocError.TheVariants.{BadValue, JournalFull, NoMemory};
ghost use Rattle.ioc_journal.specs.Places.{AreAllowed};
ghost use Rattle.ioc_engine.specs.Named.{IsNamedBy};
ghost use Rattle.ioc_engine.specs.Started.{HasStarted};

use crate::desk::Desk;
use crate::engine::Engine;
use crate::engine_lookup::EngineLookup;
use crate::engine_name::EngineName;
use crate::seed::Seed;
use ioc_device::Device;
use ioc_engine_core::{Clock, StartError, start};
use ioc_journal::Limits;
use ioc_scan::Listed;
use ioc_values::IocError;
use rec_types::Record;
use std::alloc::Global;
use std::sync::Wait;

/// An engine that was started, and the desk that has requested its records with PINI. There is no
/// desk if no record has PINI.
#[derive(Drop)]
pub struct Started<B: EngineName<D>, D: Device, C: Drop> {
    pub engine: Engine<B, D, C>,
    pub desk: Option<Desk<B, D>>,
}

impl<B: EngineName<D>, D: Device, C: Clock + Drop> Engine<B, D, C> {
    /// Starts an engine. Each record with PINI is requested once, in the order of PHAS, then of
    /// their numbers, by a desk that the engine opens for it. The journal takes as many calls as the
    /// limits allow, and its memory grows with the calls.
    ///
    /// # Errors
    ///
    /// [`IocError::BadValue`] if a limit is out of range. [`IocError::NoMemory`] if allocation
    /// fails. [`IocError::JournalFull`] if the journal has no place for the requests of PINI.
    /// Database and devices are dropped then.
    pub fn start<R: Wait>(
        rt: &R,
        alloc: Global,
        seed: Seed<D>,
        clock: C,
        limits: Limits,
    ) -> Result<Started<B, D, C>, IocError>
        requires named { IsNamedBy B.table B.base B.devices B.places B.tickets B.counts seed }
        ensures records { IfOk result (λ s. s.engine.core.count ≡ length seed.records.items) }
        ensures names { IfOk result (λ s. s.engine.lookup ≡ seed.lookup) }
        ensures clock { IfOk result (λ s. s.engine.clock ≡ clock) }
        ensures kept_limits { IfOk result (λ s. s.engine.limits ≡ limits) }
        ensures desk { IfOk result (λ s. s.desk ≡ None ↔ seed.starters.items ≡ []) }
        ensures pini { IfOk result (λ s. IfSome s.desk (λ desk. HasStarted D record_rules B.base D.gives s.engine.core.history
            (C.gives clock) (map (λ l. l.number) seed.starters.items) desk.account)) }
        ensures limits { OnOk result (AreAllowed limits) }
        ensures refused { IfErr result (λ error. ((error ≡ BadValue) × (AreAllowed limits → ⊥))
            ⊎ ((error ≡ NoMemory) ⊎ (error ≡ JournalFull))) }
    {
        let Seed {
            cell,
            master,
            places,
            tickets,
            counts,
            records,
            lookup,
            lists,
            starters,
            spare: _,
            spare_own: _,
        } = seed;
        let core = match start::<Record, B, D>(
            alloc, cell, master, places, tickets, counts, records, lists, limits,
        ) {
            Ok(core) => core,
            Err(StartError::BadValue) => return Err(IocError::BadValue),
            Err(StartError::NoMemory) => return Err(IocError::NoMemory),
            Err(StartError::NotAtRest) => unreachable!(),
            Err(StartError::LinkLeaves) => unreachable!(),
        };
        let engine = Engine {
            core,
            lookup: EngineLookup::new(lookup),
            clock,
            alloc,
            limits,
        };
        match engine.request_starters(rt, starters.as_slice()) {
            Ok(desk) => Ok(Started { engine, desk }),
            Err(IocError::NoMemory) => Err(IocError::NoMemory),
            Err(_) => Err(IocError::JournalFull),
        }
    }

    // Requests each of these records once, by a new desk. Opens none if there are no records.
    fn request_starters<R: Wait>(
        &self,
        rt: &R,
        starters: &[Listed],
    ) -> Result<Option<Desk<B, D>>, IocError>
        ensures desk { IfOk result (λ desk. desk ≡ None ↔ starters.now ≡ []) }
        ensures pini { IfOk result (λ desk. IfSome desk (λ desk. HasStarted D record_rules B.base D.gives self.now.core.history
            (C.gives self.now.clock) (map (λ l. l.number) starters.now) desk.account)) }
    {
        if starters.is_empty() {
            return Ok(None);
        }
        let desk = self.desk_of_starters(rt, starters)?;
        Ok(Some(desk))
    }

    // Requests each of these records once, by a new desk.
    fn desk_of_starters<R: Wait>(&self, rt: &R, starters: &[Listed]) -> Result<Desk<B, D>, IocError>
        ensures { IfOk result (λ desk. HasStarted D record_rules B.base D.gives self.now.core.history
            (C.gives self.now.clock) (map (λ l. l.number) starters.now) desk.account) }
    {
        let mut desk = self.desk(rt)?;
        self.core.request_all(rt, &mut desk, starters, &self.clock)?;
        Ok(desk)
    }
}
