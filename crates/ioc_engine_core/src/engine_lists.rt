//! The scan lists of an engine.
ghost use Rattle.std.specs.Prelude.{OnOk};
ghost use Rattle.ioc_engine_core.specs.Lists.{AreListsOf, AreMembers};

use ioc_journal::JournalName;
use ioc_record::RecordKind;
use ioc_scan::{ListName, Listed, ScanLists};
use ioc_scan_rules::{Asked, calls, take_item};
use ioc_store::OutboxItem;
use std::alloc::AllocError;
use std::marker::{Model, PhantomData};

/// The scan lists of the engine `B`: those of its records at the load, as changes have left them since.
#[derive(Drop)]
pub struct EngineLists<K: RecordKind, B: JournalName<K>> {
    lists: ScanLists,
    of: PhantomData<B>,
    kind: PhantomData<K>,
}

impl<K: RecordKind, B: JournalName<K>> Model for EngineLists<K, B> {
    ghost use Rattle.ioc_scan.specs.Scanned.{Scanned};
    ghost use Rattle.ioc_engine_core.specs.Lists.{AreListsOf};

    ghost Value = { Scanned };

    ghost view = { λ e. e.lists };

    ghost invariant = { λ e. AreListsOf K.rules B.base e.lists };
}

impl<K: RecordKind, B: JournalName<K>> EngineLists<K, B> {
    /// Takes the lists of the records at the load.
    pub fn new(lists: ScanLists) -> Self
        requires { AreListsOf K.rules B.base lists }
    {
        EngineLists {
            lists,
            of: PhantomData,
            kind: PhantomData,
        }
    }

    /// Takes an item that an event has sent, as [`take_item`] does.
    ///
    /// # Errors
    ///
    /// [`AllocError`] if allocation fails for the list of a posted event; the contents of `walked` are
    /// meaningless then.
    pub fn take(
        &mut self,
        item: &OutboxItem,
        walked: &mut Vec<Listed>,
    ) -> Result<Asked, AllocError> {
        take_item(&mut self.lists, item, walked)
    }

    /// Replaces the contents of `walked` with the records of a list, if there is one, in the order of
    /// PHAS.
    ///
    /// # Errors
    ///
    /// [`AllocError`] if allocation fails; the contents of `walked` are meaningless then.
    pub fn walk(
        &mut self,
        list: Option<ListName>,
        walked: &mut Vec<Listed>,
    ) -> Result<(), AllocError>
        ensures { OnOk result (AreMembers K.rules B.base list walked.new.items) }
    {
        calls(&mut self.lists, list, walked)
    }
}
