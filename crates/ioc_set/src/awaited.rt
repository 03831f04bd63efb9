//! The completions that the records of a set await.
ghost use Rattle.std.specs.Prelude.{◌≡◌};
ghost use Rattle.ioc_set.specs.Awaiting.{awaited};
ghost use Rattle.ioc_set.specs.Linking.{awaited_alone};
ghost use Rattle.ioc_ledger.specs.Shared.{less_awaited};

use ioc_ledger::Tally;
use ioc_record::RecordKind;
use ioc_set_records::Members;

/// Returns the number of these records that await a completion.
pub fn count_awaited<K: RecordKind, D>(members: &Members<K, D>) -> u64
    ensures { result ≡ awaited K.rules members.now.records }
{
    let mut count = 0;
    for place in 0..members.len() {
        if let Some(number) = members.number_at(place) {
            let common = members.record(number).common();
            if let Some(_) = common.pending {
                count += 1;
            }
        }
    }
    count
}

/// Returns the tally of the rest of a set that is divided: the answers that its own records still
/// await. They are subtracted from `tally`, except that a full count stays full.
pub fn take_awaited<K: RecordKind, D>(tally: &mut Tally, rest: &Members<K, D>) -> Tally
    ensures stays { tally.new ≡ less_awaited tally.old (awaited K.rules rest.now.records) }
    ensures leaves { result ≡ awaited_alone (awaited K.rules rest.now.records) }
{
    let count = count_awaited(rest);
    if tally.started != u64::MAX {
        tally.started = tally.started.saturating_sub(count);
    }
    let mut own = Tally::default();
    own.started = count;
    own
}
