//! The name of an engine.
use ioc_journaled_set::SetsName;
use rec_types::Record;
use std::marker::Brand;

/// Names an engine with devices of type `D`: contracts tell the receipts and desks of one engine
/// from those of another by it.
///
/// A program does its work with an engine in a function that is generic over a name, with
/// [`Engine::start`](crate::Engine::start)'s `requires` as its own, and calls this function with
/// [`Brand`] for the name. A file in the program's `proofs` picks what the name stands for: the
/// seed that the engine is started with. `engine_example` is such a program.
pub trait EngineName<D>: SetsName<Record, D> {}

impl<D> EngineName<D> for Brand {}
