//! Looks at watched records.
use crate::fault::RunFault;
use ioc_engine::{Desk, Device, Engine, EngineName, FieldSeen, IocError};
use ioc_names::RecordNo;
use ioc_watches::{FieldShown, Watches};
use std::alloc::{AllocError, Global};
use std::sync::Wait;

// Returns what a look has shown, as watched fields have it.
fn shown_by(alloc: Global, seen: &[FieldSeen]) -> Result<Vec<FieldShown>, AllocError> {
    let mut shown = Vec::with_capacity(alloc, seen.len())?;
    for field in seen {
        shown.push(FieldShown {
            text: field.text,
            value: field.value,
        })?;
    }
    Ok(shown)
}

/// Looks at a record if fields of it are watched, and appends the lines that are due. The desk has seen
/// all calls then that the lines tell of.
///
/// # Errors
///
/// [`RunFault::Memory`] if allocation fails.
pub fn add_changes<B: EngineName<D>, D: Device, C: Drop, R: Wait>(
    rt: &R,
    alloc: Global,
    engine: &Engine<B, D, C>,
    desk: &mut Desk<B, D>,
    number: RecordNo,
    watches: &mut Watches,
    lines: &mut Vec<u8>,
) -> Result<(), RunFault> {
    let fields = watches.fields(alloc, number)?;
    if fields.is_empty() {
        return Ok(());
    }
    let seen = match engine.look(rt, desk, number, &fields) {
        Ok(seen) => seen,
        Err(IocError::NoMemory) => return Err(RunFault::Memory),
        Err(_) => return Ok(()),
    };
    let shown = shown_by(alloc, &seen)?;
    Ok(watches.add_lines(lines, number, &shown)?)
}

/// Looks at each watched record that may have changed since it was told last, and appends the lines that
/// are due. Nothing is done if no field is watched.
///
/// # Errors
///
/// [`RunFault::Memory`] if allocation fails.
pub fn add_marked<B: EngineName<D>, D: Device, C: Drop, R: Wait>(
    rt: &R,
    alloc: Global,
    engine: &Engine<B, D, C>,
    desk: &mut Desk<B, D>,
    watches: &mut Watches,
    lines: &mut Vec<u8>,
) -> Result<(), RunFault> {
    if watches.is_empty() {
        return Ok(());
    }
    for number in &engine.take_marked(rt)? {
        add_changes(rt, alloc, engine, desk, *number, watches, lines)?;
    }
    Ok(())
}
