//! The slots of a set's records, in ascending order of their numbers.
ghost use Rattle.std.specs.Prelude.{◌≡◌, ◌≢◌, ◌<◌, ◌↔◌, ℕ, None, length, IfSome, IfNone, IsSome, IsTrue, slice_index};
ghost use Rattle.std.specs.FinMap.{contains_key, get};
ghost use Rattle.ioc_set_records.specs.Slots.{AreAscending, numbers_of, records_of};

use ioc_names::RecordNo;

/// The slot of a record in its set: the record, its base, which is the record before the first
/// event of the history, and its device, if it has one.
#[derive(Drop)]
pub struct Slot<K, D> {
    pub number: RecordNo,
    pub fields: K,
    pub base: K,
    /// Whether the record may differ from its base.
    pub is_changed: bool,
    pub device: Option<D>,
}

// Returns the place of a record, by binary search.
fn searched<K, D>(slots: &[Slot<K, D>], number: RecordNo) -> Option<usize>
    requires { AreAscending slots.now }
    ensures found { IfSome result (λ i. (i < length slots.now) × (slice_index (numbers_of slots.now) i ≡ number)) }
    ensures absent { IfNone result ((i : ℕ) → i < length slots.now → slice_index (numbers_of slots.now) i ≢ number) }
{
    let mut low = 0;
    let mut high = slots.len();
    'halve: while low + 1 < high {
        let middle = low + (high - low) / 2;
        if slots[middle].number.index() <= number.index() {
            low = middle;
        } else {
            high = middle;
        }
    }
    if low >= slots.len() {
        return None;
    }
    if slots[low].number.index() != number.index() {
        return None;
    }
    Some(low)
}

// Returns whether the record is at this place.
fn stands_at<K, D>(slots: &[Slot<K, D>], place: usize, number: RecordNo) -> bool
    ensures { IsTrue result ↔ ((place < length slots.now) × (slice_index (numbers_of slots.now) place ≡ number)) }
{
    match slots.get(place) {
        Some(slot) => slot.number.index() == number.index(),
        None => false,
    }
}

// Returns the place of a record if the numbers of the set were evenly spaced, as those of records
// that were loaded together are. It may be past the last place.
fn on_the_line<K, D>(slots: &[Slot<K, D>], number: RecordNo) -> usize {
    let (Some(first), Some(last)) = (slots.first(), slots.last()) else {
        return 0;
    };
    let low = first.number.index();
    let span = last.number.index().saturating_sub(low);
    if span == 0 {
        return 0;
    }
    number
        .index()
        .saturating_sub(low)
        .saturating_mul(slots.len() - 1)
        / span
}

// Returns the place next to this one, on the side of the record.
fn beside<K, D>(slots: &[Slot<K, D>], place: usize, number: RecordNo) -> usize {
    match slots.get(place) {
        Some(slot) if slot.number.index() < number.index() => place.saturating_add(1),
        _ => place.saturating_sub(1),
    }
}

// Returns the place of a record: the one for evenly spaced numbers if the record is there, and
// otherwise by binary search. It is not inlined, since most searches find their record before.
#[inline(never)]
fn looked_for<K, D>(slots: &[Slot<K, D>], number: RecordNo) -> Option<usize>
    requires { AreAscending slots.now }
    ensures found { IfSome result (λ i. (i < length slots.now) × (slice_index (numbers_of slots.now) i ≡ number)) }
    ensures absent { IfNone result ((i : ℕ) → i < length slots.now → slice_index (numbers_of slots.now) i ≢ number) }
{
    let line = on_the_line(slots, number);
    if stands_at(slots, line, number) {
        return Some(line);
    }
    searched(slots, number)
}

// Returns the place of a record that isn't at the guess: it tries the place next to it, then looks for
// the record.
fn beside_or_looked_for<K, D>(slots: &[Slot<K, D>], guess: usize, number: RecordNo) -> Option<usize>
    requires { AreAscending slots.now }
    ensures found { IfSome result (λ i. (i < length slots.now) × (slice_index (numbers_of slots.now) i ≡ number)) }
    ensures absent { IfNone result ((i : ℕ) → i < length slots.now → slice_index (numbers_of slots.now) i ≢ number) }
{
    let next = beside(slots, guess, number);
    if stands_at(slots, next, number) {
        return Some(next);
    }
    looked_for(slots, number)
}

/// Returns the place of a record. It tries the guess and the place next to it, which is mostly
/// right for a record that a link leads to, then the place for evenly spaced numbers, and then a
/// binary search.
#[inline(always)]
pub fn place_of<K, D>(slots: &[Slot<K, D>], guess: usize, number: RecordNo) -> Option<usize>
    requires { AreAscending slots.now }
    ensures found { IfSome result (λ i. (i < length slots.now) × (slice_index (numbers_of slots.now) i ≡ number)) }
    ensures absent { IfNone result ((i : ℕ) → i < length slots.now → slice_index (numbers_of slots.now) i ≢ number) }
{
    match slots.get(guess) {
        Some(slot) if slot.number.index() == number.index() => Some(guess),
        _ => beside_or_looked_for(slots, guess, number),
    }
}

/// Returns whether no record is in both.
pub fn are_apart<K, D>(slots: &[Slot<K, D>], others: &[Slot<K, D>]) -> bool
    requires ascending { AreAscending slots.now × AreAscending others.now }
    ensures { IsTrue result ↔ ((q : ℕ) → IsSome (get (records_of slots.now) q) → get (records_of others.now) q ≡ None) }
{
    for slot in slots {
        if let Some(_place) = place_of(others, 0, slot.number) {
            return false;
        }
    }
    true
}
