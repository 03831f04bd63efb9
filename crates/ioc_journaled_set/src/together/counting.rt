//! The count of a put with notification in several sets together.
ghost use Rattle.std.specs.Prelude.{◌≡◌, ◌≤◌, ◌^◌, ◌↔◌, IsTrue, IfNone};
ghost use Rattle.std.specs.Option.{IfSome};
ghost use Rattle.ioc_notify.specs.Living.{is_live};
ghost use Rattle.ioc_journaled_set.specs.GiveUpLaws.{holders_in_all};
ghost use Rattle.ioc_journaled_set.specs.Sets.{IsLiveOnEach};

use ioc_notify::{NotifyId, holders_by};
use ioc_record::RecordKind;
use ioc_set::LockSet;

/// Returns the count of a put with notification in these sets together, or `None` if it doesn't fit
/// in 64 bits.
pub fn total_in<K: RecordKind, D>(sets: &[LockSet<K, D>], number: NotifyId) -> Option<u64>
    ensures total { IfSome result (λ total. total ≡ holders_in_all number sets.now) }
    ensures too_many { IfNone result (2 ^ 64 ≤ holders_in_all number sets.now) }
{
    let mut total: u64 = 0;
    for set in sets {
        total = total.checked_add(holders_by(set.live_puts(), number))?;
    }
    Some(total)
}

// Returns whether a put with notification is live on a set.
fn is_live_on<K: RecordKind, D>(set: &LockSet<K, D>, number: NotifyId) -> bool
    ensures { result ≡ is_live number set.now.live }
{
    set.live_puts().iter().any(|line| line.number == number)
}

/// Returns whether a put with notification is live on each of these sets.
pub fn all_live<K: RecordKind, D>(sets: &[LockSet<K, D>], number: NotifyId) -> bool
    ensures { IsTrue result ↔ IsLiveOnEach number sets.now }
{
    for set in sets {
        if !is_live_on(set, number) {
            return false;
        }
    }
    true
}
