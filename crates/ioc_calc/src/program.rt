//! The program of an expression, and its run.

ghost use Rattle.std.specs.Prelude.{◌≡◌, ◌-◌, ◌≤◌, ℕ, List, IsTrue, length, take, slice_index_or, slice_set};
ghost use Rattle.ioc_calc.specs.Operations.{zero_float};
ghost use Rattle.ioc_calc.specs.Tree.{Statement, value_of, arguments_after};
ghost use Rattle.ioc_calc.specs.Compiles.{Compiles};
ghost use Rattle.ioc_calc.specs.Programs.{value_by, arguments_by};
ghost use Rattle.ioc_calc.specs.Machine.{IsProgramOf, can_run, can_step, stepped, depth_after, unused_after};

use crate::operators::{Exponent, Infix, ListFunction, Prefix};
use crate::stack::Stack;
use ioc_double::Double;

/// The most steps of a program: an expression has at most as many bytes.
pub const MAX_STEPS: usize = 79;

/// One step of a run.
#[derive(Clone, Copy, PartialEq, Eq, Debug)]
pub enum Step {
    /// The next number of the text.
    Number,
    /// The argument of this place: 0 for A to 11 for L.
    Argument(u8),
    /// VAL before the run.
    Value,
    /// An operator before its operand.
    Prefix(Prefix),
    /// A function, for its first operand.
    First(ListFunction),
    /// A function, for one more operand.
    Next(ListFunction),
    /// An operator between two operands.
    Infix(Infix),
    /// A power.
    Power(Exponent),
    /// Keeps the first of two values or the second, by the value before them.
    Choose,
    /// Stores a value into the argument of this place.
    Store(u8),
}

/// The program of an expression. It has a size of its own and nothing on the heap: at most 79 steps,
/// since a step has a byte at least, and at most 40 numbers, since a number and what parts it from the
/// next one have a byte each.
///
/// ```text
/// let program = compile(b"B:=A+1;A*B")?;
/// let product = program.run(&mut arguments, value);
/// ```
///
/// stores A+1 into the second of the arguments, and gives A times this.
#[derive(Clone, Copy)]
pub struct Program {
    steps: [Step; 79],
    length: usize,
    numbers: [f64; 40],
    ghost long: { length ≤ 79 },
    ghost runs: { IsTrue (can_run (take length steps) 0 40) },
}

/// A run that goes on.
#[derive(Drop)]
struct Run {
    stack: Stack,
    used: usize,
}

/// Returns the argument of this place. There are 12.
#[inline(always)]
fn argument_at(arguments: &[Double; 12], place: usize) -> f64
    ensures { result ≡ slice_index_or arguments.now place zero_float }
{
    if place < 12 {
        arguments[place].number()
    } else {
        0.0
    }
}

/// Stores a value into the argument of this place. There are 12.
#[inline(always)]
fn store_at(arguments: &mut [Double; 12], place: usize, x: f64)
    ensures { arguments.new ≡ slice_set arguments.old place x }
{
    if place < 12 {
        arguments[place] = Double::new(x);
    }
}

impl Program {
    ghost use Rattle.ioc_calc.specs.Program.{code_of, machine_of};

    /// Makes a program of the first of these steps, which can run.
    pub(crate) fn new(steps: &[Step; 79], length: usize, numbers: &[f64; 40]) -> Self
        requires long { length ≤ 79 }
        requires runs { IsTrue (can_run (take length steps.now) 0 40) }
        ensures { code_of result ≡ record { steps = take length steps.now; numbers = numbers.now } }
    {
        Program {
            steps: *steps,
            length,
            numbers: *numbers,
        }
    }

    /// Makes one step.
    #[inline(always)]
    fn step(&self, step: Step, run: &mut Run, arguments: &mut [Double; 12], value: Double)
        requires fits { IsTrue (can_step step (length run.old.stack) (40 - run.old.used)) }
        requires used { run.old.used ≤ 40 }
        ensures value { machine_of self.now run.new arguments.new ≡ stepped value step (machine_of self.now run.old arguments.old) }
        ensures depth { length run.new.stack ≡ depth_after step (length run.old.stack) }
        ensures unused { 40 - run.new.used ≡ unused_after step (40 - run.old.used) }
        ensures used { run.new.used ≤ 40 }
    {
        match step {
            Step::Number => {
                run.stack.push(self.numbers[run.used]);
                run.used += 1;
            }
            Step::Argument(place) => run.stack.push(argument_at(arguments, usize::from(place))),
            Step::Value => run.stack.push(value.number()),
            Step::Prefix(operator) => run.stack.apply_one(operator),
            Step::First(function) => run.stack.apply_first(function),
            Step::Next(function) => run.stack.apply_next(function),
            Step::Infix(operator) => run.stack.apply_two(operator),
            Step::Power(exponent) => run.stack.apply_power(exponent),
            Step::Choose => run.stack.choose(),
            Step::Store(place) => {
                let x = run.stack.pop();
                store_at(arguments, usize::from(place), x);
            }
        }
    }

    /// Runs the program on the values of A to L, with this VAL before the run, and returns its
    /// value. What the expression stores is put into the arguments. Of a choice both sides are
    /// computed, which changes nothing else, and one is kept. Nothing is allocated.
    pub fn run(&self, arguments: &mut [Double; 12], value: Double) -> Double
        ensures value { (s : List Statement) → IsProgramOf (code_of self.now) s → result ≡ value_of s value arguments.old }
        ensures arguments { (s : List Statement) → IsProgramOf (code_of self.now) s
            → arguments.new ≡ arguments_after s value arguments.old }
        ensures of_text { (text : List ℕ) → Compiles text (code_of self.now) → (result ≡ value_by text value arguments.old)
            × (arguments.new ≡ arguments_by text value arguments.old) }
    {
        let mut run = Run {
            stack: Stack::new(),
            used: 0,
        };
        for i in 0..self.length {
            self.step(self.steps[i], &mut run, arguments, value);
        }
        Double::new(run.stack.pop())
    }
}
