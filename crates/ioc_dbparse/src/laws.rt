//! Laws of the database grammar. The contract of each function is a law; its body is empty.
ghost use Rattle.ioc_dbparse.specs.Laws.{FirstTokenRefused, FirstFaultGiven, TurnsSuffice, MacrosByHand};
ghost use Rattle.ioc_dbparse.specs.Spelling.{SpelledIsRead, SpelledOnLinesIsRead};

use crate::builder::Builder;

/// The fault that is returned is the first one: what follows a refused token has no effect. So
/// texts with the same lines, up to and including that of the refused token, get the same line and
/// kind.
#[tactic(auto, using(crate::proofs::Fronts::fault_of_lines, crate::proofs::Local::filled_local))]
pub fn first_fault_is_given<B: Builder>(_builder: &B)
    ensures tokens { FirstTokenRefused B.rules }
    ensures lines { FirstFaultGiven B.rules }
{}

/// The spelled form of a list of statements, with any blanks and comments, reads as these
/// statements: if each record can be found or added, each field set and each second name added, in
/// this order, the text makes exactly that database.
#[tactic(auto, using(crate::proofs::OnLines::spelled_is_read, crate::proofs::OnLines::spelled_on_lines))]
pub fn spelled_is_read<B: Builder>(_builder: &B)
    ensures on_one_line { SpelledIsRead B.rules }
    ensures on_lines { SpelledOnLinesIsRead B.rules }
{}

/// Reading takes at most one turn more than there are tokens, and more turns have the same result.
/// So the bound on the turns, which is above the number of tokens of each text, has no effect.
#[tactic(auto, using(crate::proofs::Shrinking::turns_suffice))]
pub fn turns_suffice<B: Builder>(_builder: &B)
    ensures { TurnsSuffice B.rules }
{}

/// A text whose macros are replaced by hand makes the same database, or is refused on the same line
/// for the same kind.
#[tactic(auto, using(crate::proofs::ByHand::macros_by_hand))]
pub fn macros_are_replaced<B: Builder>(_builder: &B)
    ensures { MacrosByHand B.rules }
{}
