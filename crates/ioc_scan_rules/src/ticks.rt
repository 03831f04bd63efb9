//! The periods that are walked at a tick.
ghost use Rattle.std.specs.Prelude.{◌≡◌, ◌<◌, ◌++◌, OnOk, IfOk};
ghost use Rattle.ioc_scan_rules.specs.Ticks.{if_due, periods_of};

use ioc_menus::Scan;
use std::alloc::{AllocError, Global};

// Appends a period if it is walked at this tick, which is at every one of so many.
fn add_if_due(due: &mut Vec<Scan>, tick: u64, every: u64, choice: Scan) -> Result<(), AllocError>
    requires { 0 < every }
    ensures { OnOk result (due.new.items ≡ due.old.items ++ if_due tick every choice) }
{
    if tick % every == 0 {
        due.push(choice)?;
    }
    Ok(())
}

/// Returns the periods that are walked at a tick, in this order. A tick is a tenth of a second, so
/// every tick walks the shortest period, and each 100th tick walks all of them.
///
/// # Errors
///
/// [`AllocError`] if allocation fails.
///
/// ```rust
/// // .1 second, .2 second, .5 second and 1 second.
/// let due = periods_of(alloc, 10)?;
/// ```
#[tactic(auto, unfolding(crate::specs::Ticks::periods_of))]
pub fn periods_of(alloc: Global, tick: u64) -> Result<Vec<Scan>, AllocError>
    ensures { IfOk result (λ due. due.items ≡ periods_of tick) }
{
    let mut due = Vec::new(alloc);
    add_if_due(&mut due, tick, 1, Scan::TenthSecond)?;
    add_if_due(&mut due, tick, 2, Scan::FifthSecond)?;
    add_if_due(&mut due, tick, 5, Scan::HalfSecond)?;
    add_if_due(&mut due, tick, 10, Scan::OneSecond)?;
    add_if_due(&mut due, tick, 20, Scan::TwoSeconds)?;
    add_if_due(&mut due, tick, 50, Scan::FiveSeconds)?;
    add_if_due(&mut due, tick, 100, Scan::TenSeconds)?;
    Ok(due)
}
