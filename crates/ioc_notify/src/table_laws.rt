//! The meaning of a table's lines. Each function's contract is a law; its body is empty.
ghost use Rattle.std.specs.Prelude.{◌≡◌, ◌↔◌, ◌<◌, ◌≤◌, ℕ, List, IsTrue, length};
ghost use Rattle.ioc_notify.specs.declared.live_numbers.Live.{Live};
ghost use Rattle.ioc_notify.specs.Living.{holders_of, is_live};
ghost use Rattle.ioc_notify.specs.Counts.{IsTable, holders_in, lines_of};

/// If a number has at most one line, that line has its count of records and waiting lists. A number
/// is live if and only if it has a line, and in a table if and only if its count isn't 0.
pub fn lines_tell_holders()
    ensures holders { (ls : List Live) (n : ℕ) → lines_of n ls ≤ 1 → holders_of n ls ≡ holders_in n ls }
    ensures live { (ls : List Live) (n : ℕ) → IsTrue (is_live n ls) ↔ (0 < lines_of n ls) }
    ensures held { (ls : List Live) (n : ℕ) → IsTable ls → IsTrue (is_live n ls) ↔ (0 < holders_in n ls) }
{}

/// A table whose counts are given by other lines has no more lines than those.
pub fn tables_are_short()
    ensures { (ls others : List Live) → IsTable ls → ((n : ℕ) → holders_in n ls ≡ holders_of n others) → length ls ≤ length others }
{}
