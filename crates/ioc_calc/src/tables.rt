//! The tables of words.

use crate::operators::{Infix, ListFunction, Prefix};
use crate::token::{LeftOut, Token};
use crate::words::Word;

const PI: f64 = 3.141592653589793;

const DEGREES_TO_RADIANS: f64 = 0.017453292519943295;

const RADIANS_TO_DEGREES: f64 = 57.29577951308232;

/// What may stand for an operand, but for numbers.
pub const OPERANDS: [Word; 50] = [
    Word {
        first: b'A',
        more: [0, 0, 0, 0, 0, 0, 0],
        token: Token::Argument(0),
    },
    Word {
        first: b'B',
        more: [0, 0, 0, 0, 0, 0, 0],
        token: Token::Argument(1),
    },
    Word {
        first: b'C',
        more: [0, 0, 0, 0, 0, 0, 0],
        token: Token::Argument(2),
    },
    Word {
        first: b'D',
        more: [0, 0, 0, 0, 0, 0, 0],
        token: Token::Argument(3),
    },
    Word {
        first: b'E',
        more: [0, 0, 0, 0, 0, 0, 0],
        token: Token::Argument(4),
    },
    Word {
        first: b'F',
        more: [0, 0, 0, 0, 0, 0, 0],
        token: Token::Argument(5),
    },
    Word {
        first: b'G',
        more: [0, 0, 0, 0, 0, 0, 0],
        token: Token::Argument(6),
    },
    Word {
        first: b'H',
        more: [0, 0, 0, 0, 0, 0, 0],
        token: Token::Argument(7),
    },
    Word {
        first: b'I',
        more: [0, 0, 0, 0, 0, 0, 0],
        token: Token::Argument(8),
    },
    Word {
        first: b'J',
        more: [0, 0, 0, 0, 0, 0, 0],
        token: Token::Argument(9),
    },
    Word {
        first: b'K',
        more: [0, 0, 0, 0, 0, 0, 0],
        token: Token::Argument(10),
    },
    Word {
        first: b'L',
        more: [0, 0, 0, 0, 0, 0, 0],
        token: Token::Argument(11),
    },
    Word {
        first: b'V',
        more: [b'A', b'L', 0, 0, 0, 0, 0],
        token: Token::Value,
    },
    Word {
        first: b'P',
        more: [b'I', 0, 0, 0, 0, 0, 0],
        token: Token::Number(PI),
    },
    Word {
        first: b'D',
        more: [b'2', b'R', 0, 0, 0, 0, 0],
        token: Token::Number(DEGREES_TO_RADIANS),
    },
    Word {
        first: b'R',
        more: [b'2', b'D', 0, 0, 0, 0, 0],
        token: Token::Number(RADIANS_TO_DEGREES),
    },
    Word {
        first: b'I',
        more: [b'N', b'F', 0, 0, 0, 0, 0],
        token: Token::Number(f64::INFINITY),
    },
    Word {
        first: b'I',
        more: [b'N', b'F', b'I', b'N', b'I', b'T', b'Y'],
        token: Token::Number(f64::INFINITY),
    },
    Word {
        first: b'N',
        more: [b'A', b'N', 0, 0, 0, 0, 0],
        token: Token::Number(f64::NAN),
    },
    Word {
        first: b'-',
        more: [0, 0, 0, 0, 0, 0, 0],
        token: Token::Prefix(Prefix::Minus),
    },
    Word {
        first: b'!',
        more: [0, 0, 0, 0, 0, 0, 0],
        token: Token::Prefix(Prefix::Not),
    },
    Word {
        first: b'~',
        more: [0, 0, 0, 0, 0, 0, 0],
        token: Token::Prefix(Prefix::Complement),
    },
    Word {
        first: b'N',
        more: [b'O', b'T', 0, 0, 0, 0, 0],
        token: Token::Prefix(Prefix::Complement),
    },
    Word {
        first: b'A',
        more: [b'B', b'S', 0, 0, 0, 0, 0],
        token: Token::Prefix(Prefix::Abs),
    },
    Word {
        first: b'S',
        more: [b'Q', b'R', 0, 0, 0, 0, 0],
        token: Token::Prefix(Prefix::SquareRoot),
    },
    Word {
        first: b'S',
        more: [b'Q', b'R', b'T', 0, 0, 0, 0],
        token: Token::Prefix(Prefix::SquareRoot),
    },
    Word {
        first: b'C',
        more: [b'E', b'I', b'L', 0, 0, 0, 0],
        token: Token::Prefix(Prefix::Ceiling),
    },
    Word {
        first: b'F',
        more: [b'L', b'O', b'O', b'R', 0, 0, 0],
        token: Token::Prefix(Prefix::Floor),
    },
    Word {
        first: b'N',
        more: [b'I', b'N', b'T', 0, 0, 0, 0],
        token: Token::Prefix(Prefix::NearestInteger),
    },
    Word {
        first: b'I',
        more: [b'S', b'I', b'N', b'F', 0, 0, 0],
        token: Token::Prefix(Prefix::IsInfinite),
    },
    Word {
        first: b'M',
        more: [b'I', b'N', 0, 0, 0, 0, 0],
        token: Token::Function(ListFunction::Minimum),
    },
    Word {
        first: b'M',
        more: [b'A', b'X', 0, 0, 0, 0, 0],
        token: Token::Function(ListFunction::Maximum),
    },
    Word {
        first: b'F',
        more: [b'I', b'N', b'I', b'T', b'E', 0, 0],
        token: Token::Function(ListFunction::AllFinite),
    },
    Word {
        first: b'I',
        more: [b'S', b'N', b'A', b'N', 0, 0, 0],
        token: Token::Function(ListFunction::AnyNan),
    },
    Word {
        first: b'A',
        more: [b'C', b'O', b'S', 0, 0, 0, 0],
        token: Token::LeftOutFunction(LeftOut::Acos),
    },
    Word {
        first: b'A',
        more: [b'S', b'I', b'N', 0, 0, 0, 0],
        token: Token::LeftOutFunction(LeftOut::Asin),
    },
    Word {
        first: b'A',
        more: [b'T', b'A', b'N', 0, 0, 0, 0],
        token: Token::LeftOutFunction(LeftOut::Atan),
    },
    Word {
        first: b'A',
        more: [b'T', b'A', b'N', b'2', 0, 0, 0],
        token: Token::LeftOutFunction(LeftOut::Atan2),
    },
    Word {
        first: b'C',
        more: [b'O', b'S', 0, 0, 0, 0, 0],
        token: Token::LeftOutFunction(LeftOut::Cos),
    },
    Word {
        first: b'C',
        more: [b'O', b'S', b'H', 0, 0, 0, 0],
        token: Token::LeftOutFunction(LeftOut::Cosh),
    },
    Word {
        first: b'E',
        more: [b'X', b'P', 0, 0, 0, 0, 0],
        token: Token::LeftOutFunction(LeftOut::Exp),
    },
    Word {
        first: b'L',
        more: [b'N', 0, 0, 0, 0, 0, 0],
        token: Token::LeftOutFunction(LeftOut::Ln),
    },
    Word {
        first: b'L',
        more: [b'O', b'G', 0, 0, 0, 0, 0],
        token: Token::LeftOutFunction(LeftOut::Log),
    },
    Word {
        first: b'L',
        more: [b'O', b'G', b'E', 0, 0, 0, 0],
        token: Token::LeftOutFunction(LeftOut::Loge),
    },
    Word {
        first: b'S',
        more: [b'I', b'N', 0, 0, 0, 0, 0],
        token: Token::LeftOutFunction(LeftOut::Sin),
    },
    Word {
        first: b'S',
        more: [b'I', b'N', b'H', 0, 0, 0, 0],
        token: Token::LeftOutFunction(LeftOut::Sinh),
    },
    Word {
        first: b'T',
        more: [b'A', b'N', 0, 0, 0, 0, 0],
        token: Token::LeftOutFunction(LeftOut::Tan),
    },
    Word {
        first: b'T',
        more: [b'A', b'N', b'H', 0, 0, 0, 0],
        token: Token::LeftOutFunction(LeftOut::Tanh),
    },
    Word {
        first: b'R',
        more: [b'N', b'D', b'M', 0, 0, 0, 0],
        token: Token::Random,
    },
    Word {
        first: b'(',
        more: [0, 0, 0, 0, 0, 0, 0],
        token: Token::Open,
    },
];

/// What may stand behind an operand.
pub const OPERATORS: [Word; 31] = [
    Word {
        first: b'*',
        more: [0, 0, 0, 0, 0, 0, 0],
        token: Token::Infix(Infix::Multiply),
    },
    Word {
        first: b'/',
        more: [0, 0, 0, 0, 0, 0, 0],
        token: Token::Infix(Infix::Divide),
    },
    Word {
        first: b'%',
        more: [0, 0, 0, 0, 0, 0, 0],
        token: Token::Infix(Infix::Remainder),
    },
    Word {
        first: b'+',
        more: [0, 0, 0, 0, 0, 0, 0],
        token: Token::Infix(Infix::Add),
    },
    Word {
        first: b'-',
        more: [0, 0, 0, 0, 0, 0, 0],
        token: Token::Infix(Infix::Subtract),
    },
    Word {
        first: b'<',
        more: [0, 0, 0, 0, 0, 0, 0],
        token: Token::Infix(Infix::Less),
    },
    Word {
        first: b'<',
        more: [b'=', 0, 0, 0, 0, 0, 0],
        token: Token::Infix(Infix::LessOrEqual),
    },
    Word {
        first: b'>',
        more: [0, 0, 0, 0, 0, 0, 0],
        token: Token::Infix(Infix::Greater),
    },
    Word {
        first: b'>',
        more: [b'=', 0, 0, 0, 0, 0, 0],
        token: Token::Infix(Infix::GreaterOrEqual),
    },
    Word {
        first: b'=',
        more: [0, 0, 0, 0, 0, 0, 0],
        token: Token::Infix(Infix::Equal),
    },
    Word {
        first: b'=',
        more: [b'=', 0, 0, 0, 0, 0, 0],
        token: Token::Infix(Infix::Equal),
    },
    Word {
        first: b'!',
        more: [b'=', 0, 0, 0, 0, 0, 0],
        token: Token::Infix(Infix::NotEqual),
    },
    Word {
        first: b'#',
        more: [0, 0, 0, 0, 0, 0, 0],
        token: Token::Infix(Infix::NotEqual),
    },
    Word {
        first: b'&',
        more: [0, 0, 0, 0, 0, 0, 0],
        token: Token::Infix(Infix::BitAnd),
    },
    Word {
        first: b'A',
        more: [b'N', b'D', 0, 0, 0, 0, 0],
        token: Token::Infix(Infix::BitAnd),
    },
    Word {
        first: b'&',
        more: [b'&', 0, 0, 0, 0, 0, 0],
        token: Token::Infix(Infix::And),
    },
    Word {
        first: b'<',
        more: [b'<', 0, 0, 0, 0, 0, 0],
        token: Token::Infix(Infix::ShiftLeft),
    },
    Word {
        first: b'>',
        more: [b'>', 0, 0, 0, 0, 0, 0],
        token: Token::Infix(Infix::ShiftRight),
    },
    Word {
        first: b'>',
        more: [b'>', b'>', 0, 0, 0, 0, 0],
        token: Token::Infix(Infix::ShiftRightUnsigned),
    },
    Word {
        first: b'|',
        more: [0, 0, 0, 0, 0, 0, 0],
        token: Token::Infix(Infix::BitOr),
    },
    Word {
        first: b'O',
        more: [b'R', 0, 0, 0, 0, 0, 0],
        token: Token::Infix(Infix::BitOr),
    },
    Word {
        first: b'X',
        more: [b'O', b'R', 0, 0, 0, 0, 0],
        token: Token::Infix(Infix::BitXor),
    },
    Word {
        first: b'|',
        more: [b'|', 0, 0, 0, 0, 0, 0],
        token: Token::Infix(Infix::Or),
    },
    Word {
        first: b'*',
        more: [b'*', 0, 0, 0, 0, 0, 0],
        token: Token::Power(LeftOut::Stars),
    },
    Word {
        first: b'^',
        more: [0, 0, 0, 0, 0, 0, 0],
        token: Token::Power(LeftOut::Caret),
    },
    Word {
        first: b')',
        more: [0, 0, 0, 0, 0, 0, 0],
        token: Token::Close,
    },
    Word {
        first: b',',
        more: [0, 0, 0, 0, 0, 0, 0],
        token: Token::Comma,
    },
    Word {
        first: b'?',
        more: [0, 0, 0, 0, 0, 0, 0],
        token: Token::Question,
    },
    Word {
        first: b':',
        more: [0, 0, 0, 0, 0, 0, 0],
        token: Token::Colon,
    },
    Word {
        first: b':',
        more: [b'=', 0, 0, 0, 0, 0, 0],
        token: Token::Assign,
    },
    Word {
        first: b';',
        more: [0, 0, 0, 0, 0, 0, 0],
        token: Token::Semicolon,
    },
];
