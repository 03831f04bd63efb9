//! The kinds of fields.
ghost use Rattle.std.specs.Prelude.{◌≡◌};
ghost use Rattle.ioc_values.specs.Conversion.{sort_of, is_text};

use crate::short::Text;

/// The range of numbers that a field can hold.
#[derive(Clone, Copy, PartialEq, Eq, Debug)]
pub enum Range {
    /// -2147483648 to 2147483647.
    Long,
    /// 0 to 4294967295.
    ULong,
    /// -32768 to 32767.
    Short,
    /// 0 to 65535.
    UShort,
    /// 0 to 255.
    UChar,
    /// 0 to 65535.
    Enum,
    /// -9223372036854775808 to 9223372036854775807.
    Int64,
    /// Only 0, as a number of 16 bits.
    Zero,
    /// A number of bits, 0 to 32.
    Bits,
    /// A number of digits behind the point, 0 to 15.
    Digits,
}

/// What a field can hold. The texts of its choices are passed by reference.
#[derive(Clone, Copy)]
pub enum Kind<'a> {
    Number(Range),
    /// An IEEE 754 double.
    Double,
    Text,
    /// The texts of a menu's choices, in the order of their numbers.
    Menu(&'a [&'static str]),
    /// The state texts: 2 for bi and bo, 16 for mbbi and mbbo.
    State(&'a [Text]),
}

impl Kind<'_> {
    /// Returns whether the field holds a text.
    #[tactic(auto, unfolding(crate::specs::Conversion::sort_of))]
    pub fn is_text(self) -> bool
        ensures { result ≡ is_text (sort_of self.entry) }
    {
        match self {
            Kind::Text => true,
            Kind::Number(_) | Kind::Double | Kind::Menu(_) | Kind::State(_) => false,
        }
    }
}
