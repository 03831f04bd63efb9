//! The parser: from the tokens of an expression to its steps and numbers.

ghost use Rattle.std.specs.Prelude.{◌≡◌, ◌<◌, ◌&&◌, ◌||◌, [], length, option_map, IsTrue};
ghost use Rattle.ioc_calc.specs.Parsing.{Parsed, at, emitted, with_number, closed, parse, value_with, choice_with, second_with};
ghost use Rattle.ioc_calc.specs.Parsing.{level_with, tail_with, operator_with, power_with, operand_with, function_with};
ghost use Rattle.ioc_calc.specs.Parsing.{arguments_with, more_arguments_with};
ghost use Rattle.ioc_calc.specs.Exponents.{whole, written, closed_exponent, bracketed, in_brackets, behind_minus, exponent_of};
ghost use Rattle.ioc_calc.specs.Levels.{level_of};
ghost use Rattle.ioc_calc.specs.Statements.{stored_in, stored_behind, statement_with, statements, ended};
ghost use Rattle.ioc_calc.specs.Program.{code_of};
ghost use Rattle.ioc_calc.specs.Machine.{can_run};
ghost use Rattle.ioc_calc.specs.HasCode.{HasCode};

use crate::operators::{Exponent, Infix, ListFunction, Prefix};
use crate::program::{Program, Step};
use crate::token::Token;
use std::marker::Model;
use std::num::saturating_f64_to_u8;

/// As many turns as no expression of 79 bytes needs.
const TURNS: u16 = 2000;

/// The tokens don't follow the grammar.
#[derive(Clone, Copy, PartialEq, Eq, Debug)]
pub struct Refused;

/// A part of the grammar.
#[derive(Clone, Copy, PartialEq, Eq, Debug)]
pub enum Part {
    /// A value.
    Value,
    /// Operands with operators of this level and the tighter ones: 0 for a single operand, 1 for
    /// powers, 2 for `*`, 3 for `+`, 4 for comparisons, 5 for `&` and 6 for `|`.
    Level(u8),
    /// What may follow an operand of a level: operators of the level, each with an operand.
    Tail(u8),
    /// The operands of a function, in brackets.
    Arguments(ListFunction),
    /// The operands of a function behind the first.
    MoreArguments(ListFunction),
}

/// The tokens that are left, and the steps and numbers of those before.
#[derive(Drop)]
pub struct Parser<'a> {
    tokens: &'a [Token],
    steps: [Step; 79],
    length: usize,
    numbers: [f64; 40],
    count: usize,
}

impl<'a> Model for Parser<'a> {
    ghost use Rattle.std.specs.Prelude.{take, ◌≤◌};
    ghost use Rattle.ioc_calc.specs.State.{State};

    ghost Value = { State };

    ghost view = { λ p. record { rest = p.tokens.now; steps = take p.length p.steps; numbers = take p.count p.numbers } };

    ghost invariant = { λ p. (p.length ≤ 79) × (p.count ≤ 40) };
}

/// Returns the level of an operator.
pub fn level_of(operator: Infix) -> u8
    ensures { result ≡ level_of operator }
{
    match operator {
        Infix::Multiply | Infix::Divide | Infix::Remainder => 2,
        Infix::Add | Infix::Subtract => 3,
        Infix::Less | Infix::LessOrEqual | Infix::Greater | Infix::GreaterOrEqual => 4,
        Infix::Equal | Infix::NotEqual => 4,
        Infix::BitAnd | Infix::And => 5,
        Infix::ShiftLeft | Infix::ShiftRight | Infix::ShiftRightUnsigned => 5,
        Infix::BitOr | Infix::BitXor | Infix::Or => 6,
    }
}

/// Returns the whole number from 0 to 64 that the double is.
#[tactic(auto, unfolding(crate::specs::Exponents::whole))]
fn whole(x: f64) -> Option<u8>
    ensures { result ≡ whole x }
{
    let n = saturating_f64_to_u8(x);
    if n <= 64 && f64::from(n) == x {
        Some(n)
    } else {
        None
    }
}

/// Returns an exponent of this size, with the tokens behind it.
#[tactic(auto, unfolding(crate::specs::Exponents::written))]
fn written(negative: bool, x: f64, rest: &[Token]) -> Option<(Exponent, &[Token])>
    ensures { option_map (λ e. (e.0, e.1.now)) result ≡ written negative x rest.now }
{
    let size = whole(x)?;
    Some((Exponent { size, negative }, rest))
}

/// Returns an exponent of this size if a closing bracket is next.
fn closed_exponent(negative: bool, x: f64, tokens: &[Token]) -> Option<(Exponent, &[Token])>
    ensures { option_map (λ e. (e.0, e.1.now)) result ≡ closed_exponent negative x tokens.now }
{
    match tokens {
        [Token::Close, rest @ ..] => written(negative, x, rest),
        _ => None,
    }
}

/// Returns the exponent whose number and closing bracket are next.
fn bracketed(negative: bool, tokens: &[Token]) -> Option<(Exponent, &[Token])>
    ensures { option_map (λ e. (e.0, e.1.now)) result ≡ bracketed negative tokens.now }
{
    match tokens {
        [Token::Number(x), rest @ ..] => closed_exponent(negative, *x, rest),
        _ => None,
    }
}

/// Returns the exponent behind an opening bracket.
fn in_brackets(tokens: &[Token]) -> Option<(Exponent, &[Token])>
    ensures { option_map (λ e. (e.0, e.1.now)) result ≡ in_brackets tokens.now }
{
    match tokens {
        [Token::Prefix(Prefix::Minus), rest @ ..] => bracketed(true, rest),
        _ => bracketed(false, tokens),
    }
}

/// Returns the exponent behind a sign.
fn behind_minus(tokens: &[Token]) -> Option<(Exponent, &[Token])>
    ensures { option_map (λ e. (e.0, e.1.now)) result ≡ behind_minus tokens.now }
{
    match tokens {
        [Token::Number(x), rest @ ..] => written(true, *x, rest),
        [Token::Open, rest @ ..] => bracketed(true, rest),
        _ => None,
    }
}

/// Returns the exponent that is written at the front, and the tokens behind it: a whole number from
/// 0 to 64, with at most one sign and at most one pair of brackets.
pub fn exponent_of(tokens: &[Token]) -> Option<(Exponent, &[Token])>
    ensures { option_map (λ e. (e.0, e.1.now)) result ≡ exponent_of tokens.now }
{
    match tokens {
        [Token::Number(x), rest @ ..] => written(false, *x, rest),
        [Token::Prefix(Prefix::Minus), rest @ ..] => behind_minus(rest),
        [Token::Open, rest @ ..] => in_brackets(rest),
        _ => None,
    }
}

/// Returns the place of the argument and the tokens behind `:=`, if an argument and `:=` are next.
pub fn stored_in(tokens: &[Token]) -> Option<(u8, &[Token])>
    ensures { option_map (λ found. (found.0, found.1.now)) result ≡ stored_in tokens.now }
{
    match tokens {
        [Token::Argument(place), rest @ ..] => stored_behind(*place, rest),
        _ => None,
    }
}

/// Returns the place and the tokens behind `:=`, if it is next.
fn stored_behind(place: u8, tokens: &[Token]) -> Option<(u8, &[Token])>
    ensures { option_map (λ found. (found.0, found.1.now)) result ≡ stored_behind place tokens.now }
{
    match tokens {
        [Token::Assign, rest @ ..] => Some((place, rest)),
        _ => None,
    }
}

fn both(a: bool, b: bool) -> bool
    ensures { result ≡ (a && b) }
{
    a && b
}

fn either(a: bool, b: bool) -> bool
    ensures { result ≡ (a || b) }
{
    a || b
}

impl<'a> Parser<'a> {
    /// Makes a parser of these tokens.
    pub fn new(tokens: &'a [Token]) -> Self
        ensures rest { result.rest ≡ tokens.now }
        ensures steps { result.steps ≡ [] }
        ensures numbers { result.numbers ≡ [] }
    {
        Parser {
            tokens,
            steps: [Step::Choose; 79],
            length: 0,
            numbers: [0.0; 40],
            count: 0,
        }
    }

    /// Returns how many tokens are left.
    pub fn remaining(&self) -> usize
        ensures { result ≡ length self.now.rest }
    {
        self.tokens.len()
    }

    /// Returns the program of the tokens that were read, whose steps can run.
    pub fn program(&self) -> Program
        requires { IsTrue (can_run self.now.steps 0 40) }
        ensures { HasCode (code_of result) self.now }
    {
        Program::new(&self.steps, self.length, &self.numbers)
    }

    /// Adds a step.
    #[tactic(auto, unfolding(crate::specs::Parsing::emitted))]
    fn emit(&mut self, step: Step) -> Result<(), Refused>
        ensures { Parsed result self.new (emitted step self.old) }
    {
        if self.length == 79 {
            return Err(Refused);
        }
        self.steps[self.length] = step;
        self.length += 1;
        Ok(())
    }

    /// Adds a number.
    #[tactic(auto, unfolding(crate::specs::Parsing::with_number))]
    fn number(&mut self, x: f64) -> Result<(), Refused>
        ensures { Parsed result self.new (with_number x self.old) }
    {
        if self.count == 40 {
            return Err(Refused);
        }
        self.numbers[self.count] = x;
        self.count += 1;
        self.emit(Step::Number)
    }

    /// Passes a closing bracket.
    #[tactic(auto, unfolding(crate::specs::Parsing::closed))]
    fn close(&mut self) -> Result<(), Refused>
        ensures { Parsed result self.new (closed self.old) }
    {
        match self.tokens {
            [Token::Close, rest @ ..] => {
                self.tokens = rest;
                Ok(())
            }
            _ => Err(Refused),
        }
    }

    /// Reads a part, in at most so many turns into its parts.
    #[cycle(parts)]
    #[tactic(auto, using(crate::proofs::Parses::parse_none, crate::proofs::Parses::parse_next))]
    fn part(&mut self, turns: u16, part: Part) -> Result<(), Refused>
        ensures { Parsed result self.new (parse turns part self.old) }
    {
        if turns == 0 {
            return Err(Refused);
        }
        let turns = turns - 1;
        match part {
            Part::Value => self.value(turns),
            Part::Level(level) => self.level(turns, level),
            Part::Tail(level) => self.tail(turns, level),
            Part::Arguments(function) => self.arguments(turns, function),
            Part::MoreArguments(function) => self.more_arguments(turns, function),
        }
    }

    /// Reads a value.
    #[cycle(parts)]
    #[tactic(auto, unfolding(crate::specs::Parsing::value_with))]
    fn value(&mut self, turns: u16) -> Result<(), Refused>
        ensures { Parsed result self.new (value_with (parse turns) self.old) }
    {
        self.part(turns, Part::Level(6))?;
        self.choice(turns)
    }

    /// Reads the two sides of a choice, if one follows its condition.
    #[cycle(parts)]
    #[tactic(auto, unfolding(crate::specs::Parsing::choice_with))]
    fn choice(&mut self, turns: u16) -> Result<(), Refused>
        ensures { Parsed result self.new (choice_with (parse turns) self.old) }
    {
        match self.tokens {
            [Token::Question, rest @ ..] => {
                self.tokens = rest;
                self.part(turns, Part::Value)?;
                self.second_side(turns)
            }
            _ => Ok(()),
        }
    }

    /// Reads the second side of a choice.
    #[cycle(parts)]
    #[tactic(auto, unfolding(crate::specs::Parsing::second_with))]
    fn second_side(&mut self, turns: u16) -> Result<(), Refused>
        ensures { Parsed result self.new (second_with (parse turns) self.old) }
    {
        match self.tokens {
            [Token::Colon, rest @ ..] => {
                self.tokens = rest;
                self.part(turns, Part::Value)?;
                self.emit(Step::Choose)
            }
            _ => Err(Refused),
        }
    }

    /// Reads operands with operators of this level and the tighter ones.
    #[cycle(parts)]
    #[tactic(auto, unfolding(crate::specs::Parsing::level_with))]
    fn level(&mut self, turns: u16, level: u8) -> Result<(), Refused>
        ensures { Parsed result self.new (level_with (parse turns) level self.old) }
    {
        if level == 0 {
            return self.operand(turns);
        }
        self.part(turns, Part::Level(level - 1))?;
        self.part(turns, Part::Tail(level))
    }

    /// Reads what may follow an operand of this level.
    #[cycle(parts)]
    #[tactic(auto, unfolding(crate::specs::Parsing::tail_with))]
    fn tail(&mut self, turns: u16, level: u8) -> Result<(), Refused>
        ensures { Parsed result self.new (tail_with (parse turns) level self.old) }
    {
        match self.tokens {
            [Token::Infix(operator), rest @ ..] => {
                if level_of(*operator) == level {
                    self.second_operand(turns, level, *operator, rest)
                } else {
                    Ok(())
                }
            }
            [Token::Power(_), rest @ ..] => {
                if level == 1 {
                    self.power(turns, rest)
                } else {
                    Ok(())
                }
            }
            _ => Ok(()),
        }
    }

    /// Reads the operand behind an operator of this level, and what follows.
    #[cycle(parts)]
    #[tactic(auto, unfolding(crate::specs::Parsing::operator_with))]
    fn second_operand(
        &mut self,
        turns: u16,
        level: u8,
        operator: Infix,
        rest: &'a [Token],
    ) -> Result<(), Refused>
        requires { 0 < level }
        ensures { Parsed result self.new (operator_with (parse turns) level operator rest.now self.old) }
    {
        self.tokens = rest;
        self.part(turns, Part::Level(level - 1))?;
        self.emit(Step::Infix(operator))?;
        self.part(turns, Part::Tail(level))
    }

    /// Reads the exponent behind a power's sign, and what follows. A product stands for a power whose
    /// exponent isn't written, which is left out.
    #[cycle(parts)]
    #[tactic(auto, unfolding(crate::specs::Parsing::power_with))]
    fn power(&mut self, turns: u16, rest: &'a [Token]) -> Result<(), Refused>
        ensures { Parsed result self.new (power_with (parse turns) rest.now self.old) }
    {
        match exponent_of(rest) {
            Some((exponent, behind)) => {
                self.tokens = behind;
                self.emit(Step::Power(exponent))?;
            }
            None => {
                self.tokens = rest;
                self.part(turns, Part::Level(0))?;
                self.emit(Step::Infix(Infix::Multiply))?;
            }
        }
        self.part(turns, Part::Tail(1))
    }

    /// Reads one operand, with the operators before it.
    #[cycle(parts)]
    #[tactic(auto, unfolding(crate::specs::Parsing::operand_with))]
    fn operand(&mut self, turns: u16) -> Result<(), Refused>
        ensures { Parsed result self.new (operand_with (parse turns) self.old) }
    {
        let [first, rest @ ..] = self.tokens else {
            return Err(Refused);
        };
        let before = self.tokens;
        self.tokens = rest;
        match first {
            Token::Number(x) => self.number(*x),
            Token::Argument(place) => self.emit(Step::Argument(*place)),
            Token::Value | Token::Random => self.emit(Step::Value),
            Token::Prefix(operator) => {
                self.part(turns, Part::Level(0))?;
                self.emit(Step::Prefix(*operator))
            }
            Token::Open => {
                self.part(turns, Part::Value)?;
                self.close()
            }
            Token::Function(function) => self.function(turns, *function),
            Token::LeftOutFunction(_) => self.function(turns, ListFunction::Maximum),
            _ => {
                self.tokens = before;
                Err(Refused)
            }
        }
    }

    /// Reads the operands of a function: in brackets, or one without.
    #[cycle(parts)]
    #[tactic(auto, unfolding(crate::specs::Parsing::function_with))]
    fn function(&mut self, turns: u16, function: ListFunction) -> Result<(), Refused>
        ensures { Parsed result self.new (function_with (parse turns) function self.old) }
    {
        match self.tokens {
            [] => Err(Refused),
            [Token::Open, rest @ ..] => {
                self.tokens = rest;
                self.part(turns, Part::Arguments(function))?;
                self.close()
            }
            _ => {
                self.part(turns, Part::Level(0))?;
                self.emit(Step::First(function))
            }
        }
    }

    /// Reads the operands of a function in brackets.
    #[cycle(parts)]
    #[tactic(auto, unfolding(crate::specs::Parsing::arguments_with))]
    fn arguments(&mut self, turns: u16, function: ListFunction) -> Result<(), Refused>
        ensures { Parsed result self.new (arguments_with (parse turns) function self.old) }
    {
        self.part(turns, Part::Value)?;
        self.emit(Step::First(function))?;
        self.part(turns, Part::MoreArguments(function))
    }

    /// Reads the operands of a function behind the first.
    #[cycle(parts)]
    #[tactic(auto, unfolding(crate::specs::Parsing::more_arguments_with))]
    fn more_arguments(&mut self, turns: u16, function: ListFunction) -> Result<(), Refused>
        ensures { Parsed result self.new (more_arguments_with (parse turns) function self.old) }
    {
        match self.tokens {
            [Token::Comma, rest @ ..] => {
                self.tokens = rest;
                self.part(turns, Part::Value)?;
                self.emit(Step::Next(function))?;
                self.part(turns, Part::MoreArguments(function))
            }
            _ => Ok(()),
        }
    }

    /// Reads a statement.
    #[tactic(auto, unfolding(crate::specs::Statements::statement_with))]
    fn statement(&mut self) -> Result<(), Refused>
        ensures { Parsed result self.new (statement_with self.old) }
    {
        match stored_in(self.tokens) {
            Some((place, rest)) => {
                self.tokens = rest;
                self.part(TURNS, Part::Value)?;
                self.emit(Step::Store(place))
            }
            None => self.part(TURNS, Part::Value),
        }
    }

    /// Reads statements up to the end. `has_value` says whether one before them is a value: exactly one
    /// has to be.
    #[cycle(statements)]
    #[tactic(auto, unfolding(crate::specs::Statements::statement_and), using(crate::proofs::Said::none, crate::proofs::Said::next))]
    pub fn statements(&mut self, turns: u8, has_value: bool) -> Result<(), Refused>
        ensures { Parsed result self.new (statements turns has_value self.old) }
    {
        if turns == 0 {
            return Err(Refused);
        }
        let is_value = stored_in(self.tokens).is_none();
        if both(is_value, has_value) {
            return Err(Refused);
        }
        self.statement()?;
        self.ended(turns - 1, either(has_value, is_value))
    }

    /// Reads what follows a statement: the end, or a semicolon and other statements.
    #[cycle(statements)]
    #[tactic(auto, unfolding(crate::specs::Statements::ended))]
    fn ended(&mut self, turns: u8, has_value: bool) -> Result<(), Refused>
        ensures { Parsed result self.new (ended (statements turns has_value) has_value self.old) }
    {
        match self.tokens {
            [] => { if has_value { Ok(()) } else { Err(Refused) } }
            [Token::Semicolon, rest @ ..] => {
                self.tokens = rest;
                self.statements(turns, has_value)
            }
            _ => Err(Refused),
        }
    }
}
