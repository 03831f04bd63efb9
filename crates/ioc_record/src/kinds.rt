//! The kinds to which the values of fields and inputs are converted.
ghost use Rattle.std.specs.Prelude.{◌≡◌};
ghost use Rattle.ioc_values.specs.Conversion.{sort_of};
ghost use Rattle.ioc_record.specs.Values.{field_sort, input_sort};

use ioc_dbcommon::InputKind;
use ioc_fields::FieldKind;
use ioc_menus::choices;
use ioc_values::{Kind, Text};

/// Returns what a field of the kind holds, with the texts of the record's states. A link and an
/// expression have no value; their text is a text.
#[tactic(auto, unfolding(crate::specs::Values::field_sort, ioc_values::specs::Conversion::sort_of))]
pub fn held_by(kind: FieldKind, states: &[Text]) -> Kind<'_>
    ensures { sort_of result ≡ field_sort states.now kind }
{
    match kind {
        FieldKind::Number(range) => Kind::Number(range),
        FieldKind::Double => Kind::Double,
        FieldKind::Text | FieldKind::Expression | FieldKind::Link(_) => Kind::Text,
        FieldKind::Menu(menu) => Kind::Menu(choices(menu)),
        FieldKind::State => Kind::State(states),
    }
}

/// Returns what an input of the kind holds.
#[tactic(auto, unfolding(ioc_values::specs::Conversion::sort_of))]
pub fn taken_by(kind: InputKind) -> Kind<'static>
    ensures { sort_of result ≡ input_sort kind }
{
    match kind {
        InputKind::Number(range) => Kind::Number(range),
        InputKind::Double => Kind::Double,
        InputKind::Text => Kind::Text,
    }
}
