//! Constant links as values.
ghost use Rattle.std.specs.Prelude.{◌≡◌};
ghost use Rattle.std.specs.Option.{option_and_then};
ghost use Rattle.ioc_values.specs.Conversion.{sort_of, of_double};
ghost use Rattle.ioc_double.specs.Spelled.{double_of_text};
ghost use Rattle.ioc_dbcommon.specs.Constant.{constant_in};

use ioc_links::Link;
use ioc_values::{Kind, Value, double_of_text, of_double, of_number};

/// Returns the double that a text spells as what a field of the kind holds.
fn real_in(kind: Kind<'_>, text: &[u8]) -> Option<Value>
    ensures { result ≡ option_and_then (of_double (sort_of kind.entry)) (double_of_text text.now) }
{
    of_double(kind, double_of_text(text)?)
}

/// Returns a constant link as what a field of the kind holds. A constant with a fraction loses it in
/// a field for whole numbers. Returns `None` if the constant is out of range, and for any other link.
#[tactic(auto, unfolding(crate::specs::Constant::constant_in))]
pub fn constant_in(kind: Kind<'_>, link: &Link) -> Option<Value>
    ensures { result ≡ constant_in (sort_of kind.entry) link.now }
{
    match link {
        Link::Constant(number) => of_number(kind, *number),
        Link::Real(text) => real_in(kind, text.as_slice()),
        Link::Empty | Link::Device(_) | Link::Database(_, _) => None,
    }
}
