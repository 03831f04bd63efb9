//! A completion number is awaited only once.
ghost use Rattle.std.specs.Prelude.{ℕ, List};
ghost use Rattle.ioc_dbcommon.specs.declared.common.Common.{Common};
ghost use Rattle.ioc_dbcommon.specs.Waits.{Wait, IsAwaitedOnce, IsNextNumber};

/// A number that was awaited and answered isn't awaited again, whatever the record waits for later.
/// A record that begins to wait awaits the number after the one that was last assigned.
pub fn numbers_are_awaited_once()
    ensures once { (c : Common) (number : ℕ) (later : List Wait) → IsAwaitedOnce c number later }
    ensures next { (c : Common) → IsNextNumber c }
{}
