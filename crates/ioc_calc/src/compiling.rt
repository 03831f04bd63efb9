//! From the text of an expression to its program.

ghost use Rattle.std.specs.Prelude.{◌≡◌, ◌≤◌, IfOk, OnErr, length};
ghost use Rattle.ioc_calc.specs.Program.{code_of};
ghost use Rattle.ioc_calc.specs.Compiles.{IsProgramOfTokens, AreNoStatements};

use crate::parser::{Parser, Refused};
use crate::program::Program;
use crate::token::{LeftOut, Token};

/// What is wrong with an expression.
#[derive(Clone, Copy, PartialEq, Eq, Debug)]
pub enum CalcFaultKind {
    /// It doesn't follow the grammar of expressions, or is empty or longer than 79 bytes.
    Bad,
    /// It follows the grammar, and this is the first in it that is left out.
    LeftOut(LeftOut),
}

/// Why an expression was refused, and the byte, counted from 0, at which the fault stands.
#[derive(Clone, Copy, PartialEq, Eq, Debug)]
pub struct CalcFault {
    pub kind: CalcFaultKind,
    pub byte: usize,
}

/// Returns the program of the tokens. Returns how many tokens are left at the fault, if they don't
/// follow the grammar.
pub fn parsed(tokens: &[Token]) -> Result<Program, usize>
    requires { length tokens.now ≤ 79 }
    ensures ok { IfOk result (λ p. IsProgramOfTokens tokens.now (code_of p)) }
    ensures err { OnErr result (AreNoStatements tokens.now) }
{
    let mut parser = Parser::new(tokens);
    match parser.statements(80, false) {
        Ok(()) => Ok(parser.program()),
        Err(Refused) => Err(parser.remaining()),
    }
}
