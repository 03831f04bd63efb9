//! Divides the keys that one pass took over among several passes again.
ghost use Rattle.std.specs.Prelude.{◌≡◌, ◌<◌, ◌++◌, ℕ, [], length, slice_index_or};
ghost use Rattle.std.specs.List.{AllPairs};
ghost use Rattle.crossbeam_utils.specs.Seq.{cell_view};
ghost use Rattle.ioc_journal.specs.Key.{Key, Has};
ghost use Rattle.ioc_journal.specs.Line.{holder};
ghost use Rattle.ioc_journal.specs.Legal.{notifications_key};
ghost use Rattle.ioc_journal.specs.Covering.{Cover};
ghost use Rattle.ioc_journal.specs.Account.{IsHolder, puts_key};
ghost use Rattle.ioc_set.specs.SetState.{SetState, now_of};
ghost use Rattle.ioc_journaled_set.specs.GiveUpLaws.{ShareNone};
ghost use Rattle.ioc_journaled_set.specs.Passes.{Slot, keys_of, other_keys, IsDealt};

use ioc_journal::{Cell, KeyPass, Keys, pass};
use ioc_record::RecordKind;
use ioc_set::LockSet;
use std::marker::Brand;

// Moves some of the keys of a pass to a new one.
fn give<P: Keys>(cell: &Cell, keeper: &mut KeyPass) -> KeyPass
    requires table { keeper.old.table_id ≡ cell.now.table.shared.table_id }
    requires holder { IsHolder (cell_view keeper.old) }
    requires within { (key : Key) → Has key (P.keys ++ P.rest) → Has key (cell_view keeper.old).owns }
    requires apart { (key : Key) → Has key P.keys → Has key P.rest → ⊥ }
    ensures kept { (keeper.new.table_id ≡ keeper.old.table_id) × (cell_view keeper.new ≡ holder (cell_view keeper.old).seen P.rest) }
    ensures given { (result.table_id ≡ keeper.old.table_id) × (cell_view result ≡ holder (cell_view keeper.old).seen P.keys) }
{
    pass::part::<P>(cell, keeper)
}

// Moves the keys of a set's records to a new pass.
fn give_records<P: Keys, K: RecordKind, D>(
    cell: &Cell,
    keeper: &mut KeyPass,
    set: &LockSet<K, D>,
) -> KeyPass
    requires table { keeper.old.table_id ≡ cell.now.table.shared.table_id }
    requires holder { IsHolder (cell_view keeper.old) }
    requires covers { Cover (cell_view keeper.old).owns (now_of set.now) }
    requires keys { (P.keys ≡ keys_of set.now) × (P.rest ≡ other_keys set.now (cell_view keeper.old).owns) }
    ensures kept { (keeper.new.table_id ≡ keeper.old.table_id) × (cell_view keeper.new ≡ holder (cell_view keeper.old).seen P.rest) }
    ensures given { (result.table_id ≡ keeper.old.table_id) × (cell_view result ≡ holder (cell_view keeper.old).seen P.keys) }
{
    let _ = set;
    give::<P>(cell, keeper)
}

// Drops all keys but that of the puts with notification.
fn keep_puts<P: Keys>(cell: &Cell, keeper: &mut KeyPass)
    requires table { keeper.old.table_id ≡ cell.now.table.shared.table_id }
    requires holder { IsHolder (cell_view keeper.old) }
    requires there { Has notifications_key (cell_view keeper.old).owns }
    requires keys { (P.keys ≡ puts_key) × (P.rest ≡ []) }
    ensures { (keeper.new.table_id ≡ keeper.old.table_id) × (cell_view keeper.new ≡ holder (cell_view keeper.old).seen puts_key) }
{
    let own = give::<P>(cell, keeper);
    *keeper = own;
}

/// Assigns the keys of each set's records to the pass beside it. `keeper` owns all of them before,
/// and only the key of the puts with notification afterwards.
pub fn deal_all<K: RecordKind, D>(
    cell: &Cell,
    keeper: &mut KeyPass,
    sets: &[LockSet<K, D>],
    passes: &mut [Option<KeyPass>],
)
    requires table { keeper.old.table_id ≡ cell.now.table.shared.table_id }
    requires holder { IsHolder (cell_view keeper.old) }
    requires there { Has notifications_key (cell_view keeper.old).owns }
    requires covers { (i : ℕ) (d : SetState K D) → i < length sets.now
        → Cover (cell_view keeper.old).owns (now_of (slice_index_or sets.now i d)) }
    requires apart { AllPairs ShareNone sets.now }
    requires beside { length passes.old ≡ length sets.now }
    ensures keeper { (keeper.new.table_id ≡ keeper.old.table_id) × (cell_view keeper.new ≡ holder (cell_view keeper.old).seen puts_key) }
    ensures dealt { (i : ℕ) (d : SetState K D) (e : Slot) → i < length sets.now
        → IsDealt keeper.old.table_id (cell_view keeper.old).seen (slice_index_or sets.now i d)
        (slice_index_or passes.new i e) }
{
    for i in 0..sets.len() {
        let own = give_records::<Brand, K, D>(cell, keeper, &sets[i]);
        passes[i] = Some(own);
    }
    keep_puts::<Brand>(cell, keeper);
}
