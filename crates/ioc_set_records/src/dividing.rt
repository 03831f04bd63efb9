//! Division of slots into two sets.
ghost use Rattle.std.specs.Prelude.{◌≡◌, ◌+◌, ◌≤◌, ◌==◌, [], filter, length, not, vec_len, vec_capacity};
ghost use Rattle.ioc_set_records.specs.Dealt.{dealt};

use crate::slots::Slot;

/// Returns how many of these numbers equal `number`.
pub fn count_of(numbers: &[usize], number: usize) -> usize
    ensures { result ≡ length (filter (λ n. n == number) numbers.now) }
{
    numbers.iter().filter(|n| **n == number).count()
}

/// Moves each slot to `stay` if its number is `number`, and to `rest` otherwise. Both must have
/// room for their slots.
pub fn deal<K: Drop, D: Drop>(
    slots: Vec<Slot<K, D>>,
    numbers: &[usize],
    number: usize,
    stay: &mut Vec<Slot<K, D>>,
    rest: &mut Vec<Slot<K, D>>,
)
    requires one_each { length slots.items ≡ length numbers.now }
    requires stay { (stay.old.items ≡ []) × (vec_len stay.old + length (filter (λ n. n == number) numbers.now) ≤ vec_capacity stay.old) }
    requires rest { (rest.old.items ≡ []) × (vec_len rest.old + length (filter (λ n. not (n == number)) numbers.now)
        ≤ vec_capacity rest.old) }
    ensures stay { stay.new.items ≡ dealt (λ n. n == number) numbers.now slots.items }
    ensures rest { rest.new.items ≡ dealt (λ n. not (n == number)) numbers.now slots.items }
{
    let mut left = slots.into_iter();
    for n in numbers {
        let Some(slot) = left.next() else {
            unreachable!()
        };
        if *n == number {
            stay.push_reserved(slot);
        } else {
            rest.push_reserved(slot);
        }
    }
}
