//! The tokens of a whole text.

ghost use Rattle.std.specs.Prelude.{◌≡◌, ◌<◌, ◌≤◌, IfOk, IfErr, OnErr, length};
ghost use Rattle.ioc_calc.specs.Lexer.{read_by};
ghost use Rattle.ioc_calc.specs.Tokens.{tokens_of};

use crate::lexer::Lexer;
use crate::parser::Refused;

/// Reads the tokens of a text. Returns the byte at which no token begins, if there is one.
#[tactic(auto, using(crate::proofs::Turns::drop_one))]
pub fn lexed(text: &[u8]) -> Result<Lexer, usize>
    requires { length text.now ≤ 79 }
    ensures ok { IfOk result (λ l. tokens_of text.now ≡ Some (read_by l)) }
    ensures err { OnErr result (tokens_of text.now ≡ None) }
    ensures byte { IfErr result (λ byte. byte < length text.now) }
{
    let mut lexer = Lexer::new();
    for i in 0..text.len() {
        match lexer.read(&text[i..], i as u8) {
            Ok(()) => {}
            Err(Refused) => return Err(i),
        }
    }
    Ok(lexer)
}
