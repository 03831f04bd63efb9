//! Desks.
use ioc_engine_core;
use rec_types::Record;

/// A caller of an engine, with the memory that its calls need. It makes one call after another:
/// each of its calls comes later in the journal than those before. A thread opens a desk of its own
/// by [`Engine::desk`](crate::Engine::desk).
///
/// ```rust
/// let mut desk = engine.desk(rt)?;
/// let level = engine.channel(b"level")?;
/// let (reply, _receipt) = engine.put_notify(rt, &mut desk, level, Input::from_text(b"5"))?;
/// // Whether the put has ended by the call that began it.
/// let is_done = match reply {
///     Reply::Notify(number) => desk.ended().contains(&number),
///     _ => false,
/// };
/// ```
pub type Desk<B, D> = ioc_engine_core::Desk<Record, B, D>;
