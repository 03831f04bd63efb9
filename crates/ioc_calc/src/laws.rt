//! Laws of expressions, which hold of every text.

ghost use Rattle.std.specs.Prelude.{◌≡◌, ℕ, List, Some};
ghost use Rattle.ioc_calc.specs.declared.token.Token.{Token};
ghost use Rattle.ioc_calc.specs.declared.words.Word.{Word};
ghost use Rattle.std.specs.Float.Ieee.{Float};
ghost use Rattle.ioc_calc.specs.Tree.{Statement, value_of, arguments_after};
ghost use Rattle.ioc_calc.specs.Grammar.{IsExpression};
ghost use Rattle.ioc_calc.specs.Programs.{value_by, arguments_by};
ghost use Rattle.ioc_calc.specs.Words.{longest_in};
ghost use Rattle.ioc_calc.specs.Longest.{IsOneOf, NoneIsLonger};

/// An expression has one meaning: whichever trees the grammar has for its text, they give the same
/// value and store the same.
pub fn one_meaning()
    ensures { (text : List ℕ) (s t : List Statement) → IsExpression text s → IsExpression text t → (before : Float) (arguments : List Float)
        → (value_of s before arguments ≡ value_of t before arguments)
        × (arguments_after s before arguments ≡ arguments_after t before arguments) }
{}

/// The value of a text that is an expression, and what it stores, are what its statements mean.
pub fn value_is_meaning()
    ensures { (text : List ℕ) (s : List Statement) → IsExpression text s → (before : Float) (arguments : List Float)
        → (value_by text before arguments ≡ value_of s before arguments)
        × (arguments_by text before arguments ≡ arguments_after s before arguments) }
{}

/// The token that is taken from a table is that of a word with which the text begins, and no other
/// word of the table with which it begins is longer.
pub fn longest_is_taken()
    ensures { (words : List Word) (first : ℕ) (rest : List ℕ) (token : Token) (more : ℕ) → longest_in words first rest ≡ Some (token, more)
        → IsOneOf words first rest token more × NoneIsLonger words first rest more }
{}
