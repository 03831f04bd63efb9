//! The expression of a calc record, tried on numbers.
use ioc_calc::{CalcFault, compile};
use ioc_double::{Double, double_of_text, exact_text};
use ioc_site::{Finding, Place, Severity};
use ioc_site_reader::Definition;
use ioc_site_rules::expression_fault;
use std::alloc::{AllocError, Global};

/// The names of what findings of a trial are of: the expression, and the words behind it.
pub const NAMES: [&[u8]; 2] = [b"CALC", b"input"];

/// What an expression gives, or what is wrong with it.
#[derive(Drop)]
pub enum Tried {
    /// A line of its value, and a line for each input that it stores.
    Gives(Vec<u8>),
    Fault(Finding),
}

// The numbers that an expression is tried on: A to L, and VAL before the run.
#[derive(Clone, Copy)]
struct Inputs {
    letters: [Double; 12],
    value: Double,
}

// Returns the finding at this byte of a line of one of the names.
fn fault_at(name: u32, line: u32, byte: usize, text: String) -> Finding {
    Finding {
        severity: Severity::Error,
        place: Place {
            file: name,
            line,
            column: u32::try_from(byte).unwrap_or(u32::MAX).saturating_add(1),
        },
        text: text.into_bytes(),
    }
}

// Returns the place of a letter from A to L, in either case.
fn place_of(name: &[u8]) -> Option<usize> {
    match name {
        [letter] => b"ABCDEFGHIJKL"
            .iter()
            .position(|each| *each == letter.to_ascii_uppercase()),
        _ => None,
    }
}

impl Inputs {
    // Every number is 0.
    fn new() -> Self {
        Inputs {
            letters: [Double::new(0.0); 12],
            value: Double::new(0.0),
        }
    }

    // Takes the number of an input. Returns what is wrong with the definition.
    fn set(
        &mut self,
        alloc: Global,
        definition: &Definition,
    ) -> Result<Option<String>, AllocError> {
        let name = definition.name.as_slice();
        let Some(number) = double_of_text(&definition.value) else {
            let value = String::from_utf8_lossy(alloc, &definition.value)?;
            return Ok(Some(format!(in alloc; "'{value}' is no number")?));
        };
        if name == b"VAL".as_slice() {
            self.value = number;
            return Ok(None);
        }
        match place_of(name).and_then(|place| self.letters.get_mut(place)) {
            Some(input) => *input = number,
            None => {
                let name = String::from_utf8_lossy(alloc, name)?;
                let text = format!(in alloc;
                    "there is no input '{name}': there are A to L, and VAL"
                )?;
                return Ok(Some(text));
            }
        }
        Ok(None)
    }
}

// Returns the finding of a text that is no expression.
fn refused(alloc: Global, text: &[u8], fault: CalcFault) -> Result<Finding, AllocError> {
    let found = expression_fault(alloc, text, fault)?;
    Ok(fault_at(0, 1, found.byte, found.text))
}

// Appends a number with all its digits; a whole one without a point.
fn add_number(out: &mut Vec<u8>, number: Double) -> Result<(), AllocError> {
    let text = exact_text(number);
    let digits = text.as_slice();
    out.extend_from_slice(digits.strip_suffix(b".0").unwrap_or(digits))?;
    out.extend_from_slice(b"\n")
}

/// Runs an expression on the numbers that these definitions give its inputs, as `A=6` and `VAL=1`; the
/// others are 0.
///
/// # Errors
///
/// [`AllocError`] if allocation fails.
pub fn calculate(
    alloc: Global,
    text: &[u8],
    definitions: &[Definition],
) -> Result<Tried, AllocError> {
    let mut inputs = Inputs::new();
    for (line, definition) in (1u32..).zip(definitions) {
        if let Some(said) = inputs.set(alloc, definition)? {
            return Ok(Tried::Fault(fault_at(1, line, 0, said)));
        }
    }
    let program = match compile(text) {
        Ok(program) => program,
        Err(fault) => return Ok(Tried::Fault(refused(alloc, text, fault)?)),
    };
    let before = inputs.letters;
    let result = program.run(&mut inputs.letters, inputs.value);
    let mut lines = Vec::new(alloc);
    add_number(&mut lines, result)?;
    let changed = inputs.letters.iter().zip(before.iter());
    for (letter, (after, before)) in b"ABCDEFGHIJKL".iter().zip(changed) {
        if *after != *before {
            lines.push(*letter)?;
            lines.extend_from_slice(b" = ")?;
            add_number(&mut lines, *after)?;
        }
    }
    Ok(Tried::Gives(lines))
}
