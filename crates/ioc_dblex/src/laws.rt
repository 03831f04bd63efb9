//! Laws of lines. Each function's contract is a law; its body is empty.
ghost use Rattle.ioc_dblex.specs.MacroLaws.{PartsAreReplaced};

use crate::macros::Macros;

/// A text of plain bytes and macro uses is replaced by the bytes and the values of the macros, one
/// after the other.
#[tactic(auto, using(crate::proofs::Parting::parts_are_replaced))]
pub fn parts_are_replaced(macros: &Macros)
    ensures { PartsAreReplaced macros.now }
{}
