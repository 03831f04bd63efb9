//! The tokens of an expression.

ghost use Rattle.std.specs.Prelude.{◌≡◌};
ghost use Rattle.ioc_calc.specs.Names.{name_of};

use crate::operators::{Infix, ListFunction, Prefix};

/// What is left out of expressions by name: functions whose result no standard fixes to the last
/// digit, and powers whose exponent isn't a whole number from 0 to 64 written in the text.
#[derive(Clone, Copy, PartialEq, Eq, Debug)]
pub enum LeftOut {
    Acos,
    Asin,
    Atan,
    Atan2,
    Cos,
    Cosh,
    Exp,
    Ln,
    Log,
    Loge,
    Rndm,
    Sin,
    Sinh,
    Tan,
    Tanh,
    /// `^` with another exponent
    Caret,
    /// `**` with another exponent
    Stars,
}

/// A token of an expression.
#[derive(Clone, Copy, Debug)]
pub enum Token {
    /// A number, or `PI`, `D2R`, `R2D`, `INF` or `NAN`.
    Number(f64),
    /// The argument of this place: 0 for A to 11 for L.
    Argument(u8),
    /// `VAL`
    Value,
    /// An operator before its operand, or a function of one operand.
    Prefix(Prefix),
    /// A function of one or more operands.
    Function(ListFunction),
    /// A function that is left out.
    LeftOutFunction(LeftOut),
    /// `RNDM`, which is left out.
    Random,
    /// An operator between two operands.
    Infix(Infix),
    /// `^` or `**`
    Power(LeftOut),
    /// `(`
    Open,
    /// `)`
    Close,
    /// `,`
    Comma,
    /// `?`
    Question,
    /// `:`
    Colon,
    /// `:=`
    Assign,
    /// `;`
    Semicolon,
}

impl LeftOut {
    /// Returns the name, in capitals, or the sign.
    pub fn name(self) -> &'static str
        ensures { result.now ≡ name_of self }
    {
        match self {
            LeftOut::Acos => "ACOS",
            LeftOut::Asin => "ASIN",
            LeftOut::Atan => "ATAN",
            LeftOut::Atan2 => "ATAN2",
            LeftOut::Cos => "COS",
            LeftOut::Cosh => "COSH",
            LeftOut::Exp => "EXP",
            LeftOut::Ln => "LN",
            LeftOut::Log => "LOG",
            LeftOut::Loge => "LOGE",
            LeftOut::Rndm => "RNDM",
            LeftOut::Sin => "SIN",
            LeftOut::Sinh => "SINH",
            LeftOut::Tan => "TAN",
            LeftOut::Tanh => "TANH",
            LeftOut::Caret => "^",
            LeftOut::Stars => "**",
        }
    }
}
