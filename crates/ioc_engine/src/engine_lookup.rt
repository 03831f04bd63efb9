//! What the names of an engine lead to.
ghost use Rattle.std.specs.Prelude.{◌≡◌, length};
ghost use Rattle.ioc_engine.specs.Types.{AreTypesOf};

use crate::engine_name::EngineName;
use crate::lookup::Lookup;
use std::marker::{Model, PhantomData};

/// What the names of an engine lead to. The types are those that its records had at the load.
/// Contracts see the table of names, types and owners.
#[derive(Drop)]
pub struct EngineLookup<B: EngineName<D>, D> {
    inside: Lookup,
    of: PhantomData<B>,
    devices: PhantomData<D>,
}

impl<B: EngineName<D>, D> Model for EngineLookup<B, D> {
    ghost use Rattle.ioc_engine.specs.declared.lookup.Lookup.{Lookup};
    ghost use Rattle.ioc_engine.specs.contracts.lookup.Lookup as lookup_row;

    ghost Value = { Lookup };

    ghost coded = { lookup_row.the_row.coded };

    ghost use Rattle.std.specs.Prelude.{length};
    ghost use Rattle.ioc_engine.specs.Types.{AreTypesOf};

    ghost view = { λ l. l.inside };

    ghost invariant = { λ l. AreTypesOf B.base (length l.inside.types.items) l.inside.types.items };
}

impl<B: EngineName<D>, D> EngineLookup<B, D> {
    /// The table of an engine, whose types are those of the load.
    pub fn new(inside: Lookup) -> Self
        requires types { AreTypesOf B.base (length inside.types.items) inside.types.items }
        ensures { result ≡ inside }
    {
        EngineLookup {
            inside,
            of: PhantomData,
            devices: PhantomData,
        }
    }

    /// Returns the table.
    pub fn get(&self) -> &Lookup
        ensures table { result.now ≡ self.now }
        ensures types { AreTypesOf B.base (length self.now.types.items) self.now.types.items }
    {
        &self.inside
    }
}
