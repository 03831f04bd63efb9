//! The scan periods.
ghost use Rattle.std.specs.Prelude.{◌≡◌, Some};
ghost use Rattle.std.specs.Option.{IfSome};
ghost use Rattle.ioc_scan.specs.Places.{period_of};

use ioc_menus::Scan;

/// A scan period.
#[derive(Clone, Copy, PartialEq, Eq, PartialOrd, Ord, Debug)]
pub struct Period {
    /// Its length in tenths of a second, the shortest period.
    pub ticks: u16,
}

/// Returns the period of a choice of SCAN, or `None` for Passive, Event and I/O Intr.
pub fn period_of(scan: Scan) -> Option<Period>
    ensures { result ≡ period_of scan }
{
    let ticks = match scan {
        Scan::Passive | Scan::Event | Scan::IoIntr => return None,
        Scan::TenSeconds => 100,
        Scan::FiveSeconds => 50,
        Scan::TwoSeconds => 20,
        Scan::OneSecond => 10,
        Scan::HalfSecond => 5,
        Scan::FifthSecond => 2,
        Scan::TenthSecond => 1,
    };
    Some(Period { ticks })
}

/// Returns the choice of SCAN with this period, if there is one.
pub fn choice_of(period: Period) -> Option<Scan>
    ensures { IfSome result (λ choice. period_of choice ≡ Some period) }
{
    match period.ticks {
        1 => Some(Scan::TenthSecond),
        2 => Some(Scan::FifthSecond),
        5 => Some(Scan::HalfSecond),
        10 => Some(Scan::OneSecond),
        20 => Some(Scan::TwoSeconds),
        50 => Some(Scan::FiveSeconds),
        100 => Some(Scan::TenSeconds),
        _ => None,
    }
}
