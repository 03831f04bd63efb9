//! The flags of cells, which show without a lock which sets may be taken out of their cells.
use crate::directory::{Directory, KeyedCell};
use crate::locked::Locked;
use ioc_names::RecordNo;
use std::alloc::{AllocError, Global};
use std::sync::Wait;
use std::sync::atomic::Ordering;

impl<S: Locked> Directory<S> {
    /// Raises the flag of a record's set, before a call after which the set may be taken. The
    /// caller holds the lock of the set.
    pub fn raise_flag(&self, number: RecordNo) {
        if let Some(home) = self.homes.get(number.index()) {
            self.set_flag(home.load(Ordering::SeqCst) as usize, true);
        }
    }

    /// Raises or lowers the flag of a record's set, as it is after a call. The caller holds the
    /// lock of the set.
    pub fn settle_flag(&self, number: RecordNo, set: &S) {
        if let Some(home) = self.homes.get(number.index()) {
            self.set_flag(home.load(Ordering::SeqCst) as usize, set.may_be_taken());
        }
    }

    /// Raises or lowers the flag of a cell. The caller holds the lock of the cell.
    pub(crate) fn set_flag(&self, key: usize, is_up: bool) {
        if let Some(flag) = self.flags.get(key) {
            if flag.load(Ordering::SeqCst) != is_up {
                flag.store(is_up, Ordering::SeqCst);
            }
        }
    }

    /// Returns the cells whose flags are up. The caller holds the topology guard.
    pub(crate) fn flagged<R: Wait>(
        &self,
        rt: &R,
        alloc: Global,
    ) -> Result<Vec<KeyedCell<'_, S>>, AllocError> {
        let bound = self.keys.lock(rt).bound();
        let mut flagged = Vec::new(alloc);
        for (key, flag) in self.flags.iter().enumerate().take(bound) {
            if flag.load(Ordering::SeqCst) {
                if let Some(lock) = self.lock_at(key) {
                    flagged.push(KeyedCell { key, lock })?;
                }
            }
        }
        Ok(flagged)
    }
}
