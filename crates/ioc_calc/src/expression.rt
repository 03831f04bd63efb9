//! The text of an expression and its program.

ghost use Rattle.std.specs.Prelude.{◌≡◌, ◌<◌, ◌≤◌, IfOk, IfErr, OnErr, Some, None, length, List};
ghost use Rattle.ioc_calc.specs.Lexer.{read_by};
ghost use Rattle.ioc_calc.specs.Program.{code_of};
ghost use Rattle.ioc_calc.specs.Tree.{Statement};
ghost use Rattle.ioc_calc.specs.Tokens.{tokens_of};
ghost use Rattle.ioc_calc.specs.Grammar.{IsExpression};
ghost use Rattle.ioc_calc.specs.Compiles.{Compiles, IsFault};
ghost use Rattle.ioc_calc.specs.Programs.{fault_of};

use crate::compiling::{CalcFault, CalcFaultKind, parsed};
use crate::grammar::left_out_in;
use crate::lexer::Lexer;
use crate::program::Program;
use crate::scan::lexed;

/// Compiles an expression, a text of 1 to 79 bytes. Returns why the text is refused, if it doesn't
/// follow the grammar of expressions or if something in it is left out: then the first that is.
///
/// For `A*B+1` the program returns 7 where A is 1.5 and B is 4. `B:=A+1;A*B` stores A+1 into B and
/// returns A*B. `SIN(A)` is refused as left out, and `A+` as bad.
pub fn compile(text: &[u8]) -> Result<Program, CalcFault>
    ensures compiled { IfOk result (λ p. Compiles text.now (code_of p)) }
    ensures refused { OnErr result ((statements : List Statement) → IsExpression text.now statements → ⊥) }
    ensures fault { IfErr result (λ fault. IsFault text.now fault.kind) }
    ensures byte { IfErr result (λ fault. fault.byte ≤ length text.now) }
    ensures accepted { IfOk result (λ p. fault_of text.now ≡ None) }
    ensures rejected { IfErr result (λ fault. fault_of text.now ≡ Some fault.kind) }
{
    compiled(text)
}

/// Compiles an expression.
fn compiled(text: &[u8]) -> Result<Program, CalcFault>
    ensures compiled { IfOk result (λ p. Compiles text.now (code_of p)) }
    ensures fault { IfErr result (λ fault. IsFault text.now fault.kind) }
    ensures byte { IfErr result (λ fault. fault.byte ≤ length text.now) }
{
    if text.is_empty() {
        return Err(bad(0));
    }
    if text.len() > 79 {
        return Err(bad(79));
    }
    match lexed(text) {
        Ok(lexer) => compiled_tokens(text, &lexer),
        Err(byte) => Err(bad(byte)),
    }
}

/// Compiles an expression that has these tokens.
fn compiled_tokens(text: &[u8], lexer: &Lexer) -> Result<Program, CalcFault>
    requires some { 0 < length text.now }
    requires short { length text.now ≤ 79 }
    requires tokens { tokens_of text.now ≡ Some (read_by lexer.now) }
    ensures compiled { IfOk result (λ p. Compiles text.now (code_of p)) }
    ensures fault { IfErr result (λ fault. IsFault text.now fault.kind) }
    ensures byte { IfErr result (λ fault. fault.byte ≤ length text.now) }
{
    let tokens = lexer.tokens();
    let program = match parsed(tokens) {
        Ok(program) => program,
        Err(remaining) => return Err(bad(lexer.byte_of(remaining, text.len()))),
    };
    match left_out_in(tokens) {
        None => Ok(program),
        Some((word, rest)) => Err(CalcFault {
            kind: CalcFaultKind::LeftOut(word),
            byte: lexer.byte_of(rest.len(), text.len()),
        }),
    }
}

fn bad(byte: usize) -> CalcFault
    ensures kind { result.kind ≡ CalcFaultKind.Bad }
    ensures byte { result.byte ≡ byte }
{
    CalcFault {
        kind: CalcFaultKind::Bad,
        byte,
    }
}
