//! The locks of all sets, and the home of each record.
ghost use Rattle.std.specs.Prelude.{◌≡◌, ◌<◌, ◌≤◌, Contains, OnOk, IfOk, IfErr};
ghost use Rattle.std.specs.Sync.Mutex.{mutex_guard_value};
ghost use Rattle.ioc_values.specs.declared.error.IocError.TheVariants.{NoRecord};
ghost use Rattle.ioc_topology.specs.Change.{IsRefused};

use crate::cell_keys::CellKeys;
use crate::locked::Locked;
use crate::marks::Marks;
use crossbeam_utils::CachePadded;
use ioc_names::RecordNo;
use ioc_values::IocError;
use std::alloc::{AllocError, Global};
use std::marker::Model;
use std::sync::atomic::{AtomicBool, AtomicU64, Ordering};
use std::sync::{Mutex, MutexGuard, OnceLock, Wait};

// The home of a record whose set wasn't added yet. No cell has this key.
const NOWHERE: u64 = u64::MAX;

// The number of times that a record is looked for before its caller waits for the topology guard.
const LOOKS: u32 = 64;

/// A place for a set under its lock. Once made, the lock stays until the directory is dropped. It
/// is boxed, so that a cell that isn't made takes little memory, and padded, so that calls on
/// different sets don't write to the same line of memory.
pub(crate) type SetCell<S> = OnceLock<Box<CachePadded<Mutex<S>>>>;

/// The lock of a cell, with the key of the cell.
#[derive(Drop)]
pub(crate) struct KeyedCell<'a, S: Locked> {
    pub(crate) key: usize,
    pub(crate) lock: &'a Mutex<S>,
}

/// The locks of all sets, and the home of each record. Contracts see the number of records that it
/// was made for.
///
/// There is room for a cell for each record, and for two more during a link change. A cell that was
/// left is used again with the same lock. Callers that still wait for this lock don't find their
/// record there, and look again.
///
/// Each cell has a flag. It is raised and lowered only while the lock of the cell is held. Whenever
/// this lock is free and the set [may be taken](Locked::may_be_taken), the flag is up.
///
/// Who holds the topology guard locks the cell of a set only by attempts, and gives the guard up
/// before it waits for a set that is [busy](crate::Busy). A cell without a set may be locked at any
/// time, because other callers release its lock at once. The list of free cells is locked only
/// briefly. A caller that looks for a record holds no lock when it waits for the topology guard.
#[derive(Drop)]
pub struct Directory<S: Locked> {
    // The key of the cell of each record's set. It may be out of date by the time it is used.
    pub(crate) homes: Vec<AtomicU64>,
    pub(crate) cells: Vec<SetCell<S>>,
    pub(crate) flags: Vec<AtomicBool>,
    // The keys of the cells that have a set. Used only under the topology guard.
    pub(crate) keys: Mutex<CellKeys<S>>,
    pub(crate) topology: Mutex<()>,
    // Used only by `gather`.
    pub(crate) marks: Marks,
}

impl<S: Locked> Model for Directory<S> {
    ghost use Rattle.std.specs.Prelude.{ℕ, length};

    ghost Value = { ℕ };

    ghost view = { λ d. length d.homes.items };
}

impl<S: Locked> Directory<S> {
    /// Creates a directory for the records with the numbers below `count`, without sets. It has
    /// room for a set of each record, and for the marks that [`gather`](Directory::gather) needs.
    ///
    /// # Errors
    ///
    /// [`AllocError`] if allocation fails.
    pub fn new(alloc: Global, count: usize) -> Result<Directory<S>, AllocError>
        ensures { IfOk result (λ d. d ≡ count) }
    {
        let Some(most) = count.checked_add(2) else {
            return Err(AllocError);
        };
        let mut homes = Vec::with_capacity(alloc, count)?;
        for _ in 0..count {
            homes.push_reserved(AtomicU64::new(NOWHERE));
        }
        let (cells, flags) = empty_cells(alloc, most)?;
        Ok(Directory {
            homes,
            cells,
            flags,
            keys: Mutex::new(CellKeys::new(alloc)),
            topology: Mutex::new(()),
            marks: Marks::new(alloc, count)?,
        })
    }

    /// Returns the number of records that the directory was made for, which have the numbers below
    /// it.
    pub fn len(&self) -> usize
        ensures { result ≡ self.now }
    {
        self.homes.len()
    }

    /// Adds a set, in a cell that has none and becomes the home of its records. The room that
    /// [`gather`](Directory::gather) needs for it is allocated first.
    ///
    /// # Errors
    ///
    /// [`AllocError`] if allocation fails, or if there are more sets than records; the directory is
    /// unchanged then, and the set is dropped.
    pub fn add(&mut self, alloc: Global, set: S) -> Result<(), AllocError>
        ensures { self.new ≡ self.old }
    {
        let place = self.keys.get_mut().take(alloc, self.cells.as_slice())?;
        let key = place.key;
        if let Some(cell) = set_in(self.cells.as_mut_slice(), key) {
            *cell = set;
            set_homes(&self.homes, cell, key);
            let may_be_taken = cell.may_be_taken();
            self.set_flag(key, may_be_taken);
        }
        Ok(())
    }

    /// Returns the lock of the cell with a key, if it was made.
    #[inline(always)]
    pub(crate) fn lock_at(&self, key: usize) -> Option<&Mutex<S>> {
        match self.cells.get(key) {
            Some(cell) => match cell.get() {
                Some(lock) => Some(lock),
                None => None,
            },
            None => None,
        }
    }

    /// Returns the place of a record, or `None` if its set wasn't added yet.
    #[inline(always)]
    pub(crate) fn place_of(&self, number: RecordNo) -> Result<Option<KeyedCell<'_, S>>, IocError>
        ensures known { OnOk result (number < self.now) }
        ensures refused { IfErr result (IsRefused self.now number) }
    {
        let Some(home) = self.homes.get(number.index()) else {
            return Err(IocError::NoRecord);
        };
        let key = home.load(Ordering::SeqCst) as usize;
        match self.lock_at(key) {
            Some(lock) => Ok(Some(KeyedCell { key, lock })),
            None => Ok(None),
        }
    }

    /// Locks the set of a record. While it is being moved, the set is looked for again. The caller
    /// holds no lock of the directory, because this may wait for the topology guard. Waits forever
    /// if no set with the record was added.
    ///
    /// # Errors
    ///
    /// [`IocError::NoRecord`] if the directory was made for fewer records.
    #[inline(always)]
    pub fn lock_set<R: Wait>(&self, rt: &R, number: RecordNo) -> Result<MutexGuard<'_, S>, IocError>
        ensures here { IfOk result (λ set. Contains (S.numbers (mutex_guard_value set)) number) }
        ensures sound { IfOk result (λ set. S.sound (mutex_guard_value set)) }
        ensures known { OnOk result (number < self.now) }
        ensures refused { IfErr result (IsRefused self.now number) }
    {
        for _ in rt.forever() {
            if let Some(place) = self.place_of(number)? {
                let set = place.lock.lock(rt);
                if set.has(number) {
                    set.is_sound();
                    return Ok(set);
                }
            }
            self.wait_while_moved(rt, number);
        }
        unreachable!()
    }

    // Looks for the set of a record again while it is being moved: at once, because a link change
    // moves a record quickly. Sets that were taken out of their cells stay out for longer, but only
    // under the topology guard. So after several looks in vain the caller sleeps until the guard is
    // free, and releases it at once. This isn't inlined, so that `lock_set` stays small where it is.
    #[inline(never)]
    fn wait_while_moved<R: Wait>(&self, rt: &R, number: RecordNo) {
        for _ in 0..LOOKS {
            if let Ok(Some(place)) = self.place_of(number) {
                if place.lock.lock(rt).has(number) {
                    return;
                }
            }
        }
        drop(self.guard_topology(rt));
    }
}

// Returns cells without locks, and their flags.
fn empty_cells<S: Locked>(
    alloc: Global,
    most: usize,
) -> Result<(Vec<SetCell<S>>, Vec<AtomicBool>), AllocError> {
    let mut cells = Vec::with_capacity(alloc, most)?;
    let mut flags = Vec::with_capacity(alloc, most)?;
    for _ in 0..most {
        cells.push_reserved(OnceLock::new());
        flags.push_reserved(AtomicBool::new(false));
    }
    Ok((cells, flags))
}

/// Returns the set in the cell with a key, if it was made.
pub(crate) fn set_in<S: Locked>(cells: &mut [SetCell<S>], key: usize) -> Option<&mut S> {
    Some(cells.get_mut(key)?.get_mut()?.get_mut())
}

/// Makes the cell with this key the home of a set's records.
pub(crate) fn set_homes<S: Locked>(homes: &[AtomicU64], set: &S, key: usize) {
    for place in 0..set.len() {
        if let Some(home) = homes.get(set.number_at(place).index()) {
            home.store(key as u64, Ordering::SeqCst);
        }
    }
}
