//! Expressions as records keep them.
ghost use Rattle.std.specs.Prelude.{◌≡◌, ◌≤◌, [], length};
ghost use Rattle.ioc_calc.specs.Programs.{value_by, arguments_by};
ghost use Rattle.ioc_dbcommon.specs.Calculation.{calculation_of, shown_text};

use ioc_calc::{CalcFaultKind, Program, compile};
use ioc_values::{Double, Short};
use std::marker::Model;

/// The expression of a field as CALC: its text with its program. Contracts see it as the text. One
/// that no database text has set has the empty text; it shows `0`, and gives 0.
#[derive(Drop)]
pub struct Calculation {
    text: Short<79>,
    program: Option<Program>,
}

impl Model for Calculation {
    ghost use Rattle.std.specs.Prelude.{ℕ, List};
    ghost use Rattle.ioc_dbcommon.specs.Calculation.{HasProgram};

    ghost Value = { List ℕ };

    ghost view = { λ c. c.text };

    ghost invariant = { λ c. HasProgram c.text c.program };
}

impl Calculation {
    /// Creates the expression of a new record.
    pub fn unset() -> Self
        ensures { result ≡ [] }
    {
        Calculation {
            text: Short::new(),
            program: None,
        }
    }

    /// Creates the expression of this text.
    ///
    /// # Errors
    ///
    /// What is wrong with the text, as [`compile`] says it.
    pub fn new(text: &[u8]) -> Result<Self, CalcFaultKind>
        ensures { result ≡ calculation_of text.now }
    {
        match compile(text) {
            Ok(program) => Ok(Calculation {
                text: Short::cut(text),
                program: Some(program),
            }),
            Err(fault) => Err(fault.kind),
        }
    }

    /// Copies the expression.
    pub fn copy(&self) -> Self
        ensures { result ≡ self.now }
    {
        Calculation {
            text: self.text,
            program: self.program,
        }
    }

    /// Returns the text that the field shows: the expression as it was written, and `0` if none was
    /// set.
    pub fn shown(&self) -> &[u8]
        ensures value { result.now ≡ shown_text self.now }
        ensures fits { length result.now ≤ 79 }
    {
        match self.program {
            Some(_) => self.text.as_slice(),
            None => b"0",
        }
    }

    /// Runs the expression on the values of A to L, with this VAL before the run, and returns its
    /// value. What the expression stores is put into the arguments.
    pub fn run(&self, arguments: &mut [Double; 12], value: Double) -> Double
        ensures value { result ≡ value_by self.now value arguments.old }
        ensures arguments { arguments.new ≡ arguments_by self.now value arguments.old }
    {
        match &self.program {
            Some(program) => program.run(arguments, value),
            None => Double::new(0.0),
        }
    }
}
