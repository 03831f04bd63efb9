//! The parts of each put with notification, recounted.
ghost use Rattle.std.specs.Prelude.{◌≡◌, ◌+◌, ◌≤◌, ◌++◌, [], length};
ghost use Rattle.std.specs.FinMap.{entries};
ghost use Rattle.std.specs.Vec.{vec_capacity};
ghost use Rattle.ioc_set.specs.Recounting.{begun_each, gained_by, gained_each, lost_each, own_waiting};

use ioc_notify::{Live, Waiting};
use ioc_record::RecordKind;
use ioc_set_records::Members;
use ioc_store::notifications::Notifications;

/// Begins those of these that aren't live yet.
#[tactic(auto, using(crate::proofs::Recounts::begun_more))]
pub fn begin_each(numbers: &[Live], into: &mut Notifications)
    requires ended { into.old.ended.items ≡ [] }
    requires fits { length (begun_each numbers.now into.old.live.live) ≤ 256 }
    ensures live { into.new.live.live ≡ begun_each numbers.now into.old.live.live }
    ensures ended { into.new.ended.items ≡ [] }
    ensures waiting { into.new.waiting ≡ into.old.waiting }
{
    for live in numbers {
        if !into.is_live(live.number) {
            into.admit(live.number);
        }
    }
}

/// Counts each record as a part of its put with notification, if it has one.
pub fn count_records<K: RecordKind, D>(members: &Members<K, D>, into: &mut Notifications)
    ensures live { into.new.live.live ≡ gained_by K.rules (entries members.now.records) into.old.live.live }
    ensures ended { into.new.ended.items ≡ into.old.ended.items }
    ensures waiting { into.new.waiting ≡ into.old.waiting }
{
    for place in 0..members.len() {
        if let Some(number) = members.number_at(place) {
            let common = members.record(number).common();
            if let Some(notification) = common.notification {
                into.take_on(notification);
            }
        }
    }
}

/// Counts the place of each waiting put with notification as a part of it.
pub fn count_waiting(into: &mut Notifications)
    ensures live { into.new.live.live ≡ gained_each into.old.waiting.waiting into.old.live.live }
    ensures ended { into.new.ended.items ≡ into.old.ended.items }
    ensures waiting { into.new.waiting ≡ into.old.waiting }
{
    for place in 0..into.waiting().len() {
        let number = into.waiting()[place].number;
        into.take_on(number);
    }
}

/// Counts one part less of each of these.
pub fn let_go_each(numbers: &[Live], into: &mut Notifications)
    ensures live { into.new.live.live ≡ lost_each numbers.now into.old.live.live }
    ensures waiting { into.new.waiting ≡ into.old.waiting }
{
    for live in numbers {
        into.let_go(live.number);
    }
}

/// Appends those that wait for one of these records to the waiting ones.
pub fn queue_own<K, D>(members: &Members<K, D>, from: &[Waiting], into: &mut Notifications)
    requires fits { length into.old.waiting.waiting + length from.now ≤ 256 }
    ensures live { into.new.live ≡ into.old.live }
    ensures ended { into.new.ended.items ≡ into.old.ended.items }
    ensures waiting { into.new.waiting.waiting ≡ into.old.waiting.waiting ++ own_waiting members.now.records from.now }
{
    for item in from {
        if members.has(item.target) {
            into.queue(item);
        }
    }
}

/// Appends all of these to the waiting ones.
pub fn queue_all(from: &[Waiting], into: &mut Notifications)
    requires fits { length into.old.waiting.waiting + length from.now ≤ 256 }
    ensures live { into.new.live ≡ into.old.live }
    ensures ended { into.new.ended.items ≡ into.old.ended.items }
    ensures waiting { into.new.waiting.waiting ≡ into.old.waiting.waiting ++ from.now }
{
    for item in from {
        into.queue(item);
    }
}

/// Copies the live ones into a vector that has room for them.
pub fn copy_live(from: &[Live], into: &mut Vec<Live>)
    requires room { length from.now ≤ vec_capacity into.old }
    ensures items { into.new.items ≡ from.now }
    ensures room { vec_capacity into.new ≡ vec_capacity into.old }
{
    into.clear();
    for live in from {
        into.push_reserved(*live);
    }
}

/// Copies the waiting ones into a vector that has room for them.
pub fn copy_waiting(from: &[Waiting], into: &mut Vec<Waiting>)
    requires room { length from.now ≤ vec_capacity into.old }
    ensures items { into.new.items ≡ from.now }
    ensures room { vec_capacity into.new ≡ vec_capacity into.old }
{
    into.clear();
    for item in from {
        into.push_reserved(*item);
    }
}
