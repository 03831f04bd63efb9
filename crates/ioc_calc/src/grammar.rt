//! The statements of an expression, and what is left out of it.

ghost use Rattle.std.specs.Prelude.{◌≡◌, option_map};
ghost use Rattle.ioc_calc.specs.Tokens.{left_out_in};

use crate::parser::exponent_of;
use crate::token::{LeftOut, Token};

/// Returns the first of the tokens that is left out, and the tokens from it on.
pub fn left_out_in(tokens: &[Token]) -> Option<(LeftOut, &[Token])>
    ensures { option_map (λ found. found.0) result ≡ left_out_in tokens.now }
{
    let [first, rest @ ..] = tokens else {
        return None;
    };
    match first {
        Token::LeftOutFunction(function) => Some((*function, tokens)),
        Token::Random => Some((LeftOut::Rndm, tokens)),
        Token::Power(power) => {
            if exponent_of(rest).is_some() {
                left_out_in(rest)
            } else {
                Some((*power, tokens))
            }
        }
        _ => left_out_in(rest),
    }
}
