//! The operators and functions of an expression.

/// An operator before its operand, or a function of one operand.
#[derive(Clone, Copy, PartialEq, Eq, Debug)]
pub enum Prefix {
    /// `-`
    Minus,
    /// `!`
    Not,
    /// `~` and `NOT`
    Complement,
    /// `ABS`
    Abs,
    /// `SQR` and `SQRT`
    SquareRoot,
    /// `CEIL`
    Ceiling,
    /// `FLOOR`
    Floor,
    /// `NINT`
    NearestInteger,
    /// `ISINF`
    IsInfinite,
}

/// A function of one or more operands.
#[derive(Clone, Copy, PartialEq, Eq, Debug)]
pub enum ListFunction {
    /// `MIN`
    Minimum,
    /// `MAX`
    Maximum,
    /// `FINITE`
    AllFinite,
    /// `ISNAN`
    AnyNan,
}

/// An operator between two operands.
#[derive(Clone, Copy, PartialEq, Eq, Debug)]
pub enum Infix {
    /// `*`
    Multiply,
    /// `/`
    Divide,
    /// `%`
    Remainder,
    /// `+`
    Add,
    /// `-`
    Subtract,
    /// `<`
    Less,
    /// `<=`
    LessOrEqual,
    /// `>`
    Greater,
    /// `>=`
    GreaterOrEqual,
    /// `=` and `==`
    Equal,
    /// `!=` and `#`
    NotEqual,
    /// `&` and `AND`
    BitAnd,
    /// `&&`
    And,
    /// `<<`
    ShiftLeft,
    /// `>>`, which keeps the sign
    ShiftRight,
    /// `>>>`, into which zeros come
    ShiftRightUnsigned,
    /// `|` and `OR`
    BitOr,
    /// `XOR`
    BitXor,
    /// `||`
    Or,
}

/// The exponent of a power: a whole number from 0 to 64, perhaps negative. `2^-0` is `1/2^0`.
#[derive(Clone, Copy, PartialEq, Eq, Debug)]
pub struct Exponent {
    pub size: u8,
    pub negative: bool,
}
