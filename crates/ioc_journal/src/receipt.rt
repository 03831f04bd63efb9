//! A place in the journal.
ghost use Rattle.std.specs.Prelude.{◌≡◌, ◌+◌, length};
ghost use Rattle.ioc_journal.specs.Account.{IsAccount};

use crate::KeyPass;
use crate::journal_name::JournalName;
use ioc_record::RecordKind;
use std::marker::{Model, PhantomData};

/// The trace of a call in the journal. Contracts see the journal's list up to that call.
#[derive(Drop)]
pub struct Receipt<K: RecordKind, B: JournalName<K>> {
    pub(crate) place: u64,
    pub(crate) pass: KeyPass,
    pub(crate) of: PhantomData<B>,
    pub(crate) kind: PhantomData<K>,
}

impl<K: RecordKind, B: JournalName<K>> Model for Receipt<K, B> {
    ghost use Rattle.std.specs.Prelude.{List};
    ghost use Rattle.ioc_journal.specs.declared.entry.Note.{Note};

    ghost Value = { List Note };

    ghost use Rattle.crossbeam_utils.specs.Seq.{cell_view};
    ghost use Rattle.ioc_journal.specs.Desks.{IsReceipt};

    ghost view = { λ r. (cell_view r.pass).seen };

    ghost invariant = { λ r. IsReceipt K.rules B.base B.table r.pass.table_id (cell_view r.pass) r.place };
}

impl<K: RecordKind, B: JournalName<K>> Receipt<K, B> {
    /// Returns the place of the call in the journal's list, from 0 on.
    pub fn place(&self) -> u64
        ensures place { length self.now ≡ result + 1 }
        ensures legal { IsAccount K.rules B.base self.now }
    {
        self.place
    }
}
