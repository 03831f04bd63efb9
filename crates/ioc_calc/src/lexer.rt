//! The tokens of a text.

ghost use Rattle.std.specs.Prelude.{◌≡◌, ◌+◌, ◌^◌, ◌<◌, ◌≤◌, ◌∷◌, ◌++◌, [], IfSome, OnOk, OnErr, length, drop, slice_index, false};
ghost use Rattle.ioc_double.specs.Decimal.{decimal_length};
ghost use Rattle.ioc_calc.specs.Tokens.{hex_digit, with_digit, hexadecimal_from, hexadecimal_at, decimal_of, number_in, token_at};
ghost use Rattle.ioc_calc.specs.Tokens.{ends_operand, is_space, with_front, tokens_from};

use crate::bits::long_of;
use crate::parser::Refused;
use crate::tables::{OPERANDS, OPERATORS};
use crate::token::Token;
use crate::words::longest_in;
use ioc_double::{decimal_length, double_of_text};

/// Returns the value of a hexadecimal digit.
#[tactic(auto, unfolding(crate::specs::Tokens::hex_digit))]
fn hex_digit(byte: u8) -> Option<u64>
    ensures value { result ≡ hex_digit byte }
    ensures low { IfSome result (λ d. d < 16) }
{
    if byte >= 48 && byte <= 57 {
        Some(u64::from(byte - 48))
    } else if byte >= 65 && byte <= 70 {
        Some(u64::from(byte - 65 + 10))
    } else if byte >= 97 && byte <= 102 {
        Some(u64::from(byte - 97 + 10))
    } else {
        None
    }
}

/// Returns the number that a number and the next hexadecimal digit make, if it fits 32 bits.
fn with_digit(value: u32, byte: u8) -> Option<u32>
    ensures { result ≡ with_digit value (hex_digit byte) }
{
    let digit = hex_digit(byte)?;
    let next = u64::from(value) * 16 + digit;
    if next <= 4294967295 {
        Some(next as u32)
    } else {
        None
    }
}

/// Returns the number that a number and the hexadecimal digits behind it make, as far as it fits 32
/// bits, and how many digits there are then.
fn hexadecimal_from(value: u32, count: usize, digits: &[u8]) -> (u32, usize)
    requires { count + length digits.now < 2 ^ 63 }
    ensures value { result ≡ hexadecimal_from value count digits.now }
    ensures within { result.1 ≤ count + length digits.now }
{
    match digits {
        [] => (value, count),
        [first, rest @ ..] => match with_digit(value, *first) {
            Some(next) => hexadecimal_from(next, count + 1, rest),
            None => (value, count),
        },
    }
}

/// Returns the number that `x` and hexadecimal digits behind a 0 make, and how many bytes these are.
fn hexadecimal(rest: &[u8]) -> Option<(u32, usize)>
    requires { length rest.now < 2 ^ 62 }
    ensures { result ≡ hexadecimal_at rest.now }
{
    match rest {
        [] => None,
        [first, digits @ ..] => {
            if *first != 120 && *first != 88 {
                return None;
            }
            let (value, count) = hexadecimal_from(0, 0, digits);
            if count == 0 {
                None
            } else {
                Some((value, count + 1))
            }
        }
    }
}

/// Returns the decimal at the front, unless it is infinite, and how many bytes it has behind its
/// first.
#[tactic(auto, unfolding(crate::specs::Tokens::decimal_of))]
fn finite_decimal(text: &[u8]) -> Option<(f64, usize)>
    ensures { result ≡ decimal_of (decimal_length text.now) text.now }
{
    let count = decimal_length(text);
    if count == 0 {
        return None;
    }
    let x = double_of_text(&text[..count])?;
    Some((x.number(), count - 1))
}

/// Returns the number at the front, and how many bytes it has behind its first: a decimal, or a
/// hexadecimal one as the signed number of 32 bits.
fn number(text: &[u8]) -> Option<(f64, usize)>
    requires { length text.now < 2 ^ 62 }
    ensures { result ≡ number_in text.now }
{
    match text {
        [] => None,
        [first, rest @ ..] => {
            if *first == 48 {
                if let Some((bits, count)) = hexadecimal(rest) {
                    return Some((long_of(bits), count));
                }
            }
            if (*first >= 48 && *first <= 57) || *first == 46 {
                finite_decimal(text)
            } else {
                None
            }
        }
    }
}

/// Returns the longest token at the front, where an operator may stand or else an operand, and how
/// many bytes it has behind its first.
#[tactic(auto, unfolding(crate::specs::Tokens::token_at))]
fn token_at(operator_is_next: bool, text: &[u8]) -> Option<(Token, usize)>
    requires { length text.now < 2 ^ 62 }
    ensures { result ≡ token_at operator_is_next text.now }
{
    let [first, rest @ ..] = text else {
        return None;
    };
    if operator_is_next {
        return longest_in(&OPERATORS, *first, rest);
    }
    match number(text) {
        Some((x, count)) => Some((Token::Number(x), count)),
        None => longest_in(&OPERANDS, *first, rest),
    }
}

/// Returns whether the token ends an operand, so that an operator may follow.
fn ends_operand(token: Token) -> bool
    ensures { result ≡ ends_operand token }
{
    match token {
        Token::Number(_) | Token::Argument(_) | Token::Value | Token::Random | Token::Close => true,
        _ => false,
    }
}

/// Returns whether the byte may stand between tokens.
#[tactic(auto, unfolding(crate::specs::Tokens::is_space))]
fn is_space(byte: u8) -> bool
    ensures { result ≡ is_space byte }
{
    (byte >= 9 && byte <= 13) || byte == 32
}

/// The tokens of a text up to some byte.
#[derive(Drop)]
pub struct Lexer {
    tokens: [Token; 79],
    /// The byte at which each token begins.
    bytes: [u8; 79],
    length: usize,
    /// How many of the next bytes belong to the last token.
    skip: usize,
    operator_is_next: bool,
    ghost long: { length ≤ 79 },
}

impl Lexer {
    ghost use Rattle.ioc_calc.specs.Lexer.{read_by, byte_from};

    /// Makes a lexer that has read nothing.
    pub fn new() -> Self
        ensures tokens { read_by result ≡ [] }
        ensures length { result.length ≡ 0 }
        ensures skip { result.skip ≡ 0 }
        ensures operand { result.operator_is_next ≡ false }
    {
        Lexer {
            tokens: [Token::Value; 79],
            bytes: [0; 79],
            length: 0,
            skip: 0,
            operator_is_next: false,
        }
    }

    /// Adds a token.
    fn add(&mut self, token: Token, byte: u8, more: usize)
        requires { self.old.length < 79 }
        ensures tokens { read_by self.new ≡ read_by self.old ++ token ∷ [] }
        ensures length { self.new.length ≡ self.old.length + 1 }
        ensures byte { slice_index self.new.bytes self.old.length ≡ byte }
        ensures skip { self.new.skip ≡ more }
        ensures operator { self.new.operator_is_next ≡ ends_operand token }
    {
        self.tokens[self.length] = token;
        self.bytes[self.length] = byte;
        self.length += 1;
        self.skip = more;
        self.operator_is_next = ends_operand(token);
    }

    /// Reads the byte at the front of the text. Returns `Err` if no token begins with it.
    pub fn read(&mut self, text: &[u8], byte: u8) -> Result<(), Refused>
        requires room { self.old.length < 79 }
        requires text { (0 < length text.now) × (length text.now < 2 ^ 62) }
        ensures ok { OnOk result (with_front (read_by self.old) (tokens_from self.old.skip self.old.operator_is_next text.now)
            ≡ with_front (read_by self.new) (tokens_from self.new.skip self.new.operator_is_next (drop 1 text.now))) }
        ensures err { OnErr result (tokens_from self.old.skip self.old.operator_is_next text.now ≡ None) }
        ensures length { self.new.length ≤ self.old.length + 1 }
    {
        if self.skip > 0 {
            self.skip -= 1;
            return Ok(());
        }
        if is_space(text[0]) {
            return Ok(());
        }
        match token_at(self.operator_is_next, text) {
            Some((token, more)) => {
                self.add(token, byte, more);
                Ok(())
            }
            None => Err(Refused),
        }
    }

    /// Returns the tokens.
    pub fn tokens(&self) -> &[Token]
        ensures value { result.now ≡ read_by self.now }
        ensures short { length result.now ≤ 79 }
    {
        &self.tokens[..self.length]
    }

    /// Returns the byte at which the token stands that has so many tokens from it on, or the end
    /// where there is none.
    pub fn byte_of(&self, remaining: usize, end: usize) -> usize
        ensures value { result ≡ byte_from self.now remaining end }
        ensures within { result ≤ end }
    {
        if remaining == 0 || remaining > self.length {
            end
        } else {
            usize::from(self.bytes[self.length - remaining]).min(end)
        }
    }
}
