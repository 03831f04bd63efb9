//! The stack of a run.

ghost use Rattle.std.specs.Prelude.{◌≡◌, ◌+◌, ◌<◌, ◌∷◌, [], length};
ghost use Rattle.ioc_calc.specs.Operations.{chosen, of_first, of_next, of_one, of_two, power};
ghost use Rattle.ioc_calc.specs.Stack.{top, below};

use crate::operations::{chosen, of_first, of_next, of_one, of_two, power};
use crate::operators::{Exponent, Infix, ListFunction, Prefix};
use std::marker::Model;

/// The values of a run that wait for their operator, the last one first.
#[derive(Drop)]
pub struct Stack {
    values: [f64; 40],
    depth: usize,
}

impl Model for Stack {
    ghost use Rattle.std.specs.Prelude.{List, ◌≤◌};
    ghost use Rattle.std.specs.Float.Ieee.{Float};
    ghost use Rattle.ioc_calc.specs.Stack.{stack_of};

    ghost Value = { List Float };

    ghost view = { λ s. stack_of s.values s.depth };

    ghost invariant = { λ s. s.depth ≤ 40 };
}

impl Stack {
    /// Returns an empty stack.
    pub fn new() -> Self
        ensures { result ≡ [] }
    {
        Stack {
            values: [0.0; 40],
            depth: 0,
        }
    }

    /// Puts a value on the stack.
    #[inline(always)]
    #[tactic(auto, using(crate::proofs::Stacks::pushed, crate::proofs::Stacks::stack_length))]
    pub fn push(&mut self, value: f64)
        requires { length self.old < 40 }
        ensures { self.new ≡ value ∷ self.old }
    {
        self.values[self.depth] = value;
        self.depth += 1;
    }

    /// Takes the last value from the stack.
    #[inline(always)]
    #[tactic(auto, using(crate::proofs::Stacks::stack_length))]
    pub fn pop(&mut self) -> f64
        requires { 0 < length self.old }
        ensures value { result ≡ top self.old }
        ensures rest { self.new ≡ below self.old }
        ensures left { length self.new + 1 ≡ length self.old }
        ensures room { length self.new < 40 }
    {
        self.depth -= 1;
        self.values[self.depth]
    }

    /// Puts what an operator before its operand gives in the place of its operand.
    #[inline(always)]
    pub fn apply_one(&mut self, operator: Prefix)
        requires { 0 < length self.old }
        ensures { self.new ≡ of_one operator (top self.old) ∷ below self.old }
    {
        let x = self.pop();
        self.push(of_one(operator, x));
    }

    /// Puts what a function gives for its first operand in the place of the operand.
    #[inline(always)]
    pub fn apply_first(&mut self, function: ListFunction)
        requires { 0 < length self.old }
        ensures { self.new ≡ of_first function (top self.old) ∷ below self.old }
    {
        let x = self.pop();
        self.push(of_first(function, x));
    }

    /// Puts what a function gives for one more operand in the place of the operand and of what it gave
    /// before.
    #[inline(always)]
    pub fn apply_next(&mut self, function: ListFunction)
        requires { 1 < length self.old }
        ensures { self.new ≡ of_next function (top (below self.old)) (top self.old) ∷ below (below self.old) }
    {
        let x = self.pop();
        let before = self.pop();
        self.push(of_next(function, before, x));
    }

    /// Puts what an operator between two operands gives in their place.
    #[inline(always)]
    pub fn apply_two(&mut self, operator: Infix)
        requires { 1 < length self.old }
        ensures { self.new ≡ of_two operator (top (below self.old)) (top self.old) ∷ below (below self.old) }
    {
        let y = self.pop();
        let x = self.pop();
        self.push(of_two(operator, x, y));
    }

    /// Puts a power in the place of its base.
    #[inline(always)]
    pub fn apply_power(&mut self, exponent: Exponent)
        requires { 0 < length self.old }
        ensures { self.new ≡ power (top self.old) exponent ∷ below self.old }
    {
        let base = self.pop();
        self.push(power(base, exponent));
    }

    /// Keeps one of two values, by the value before them.
    #[inline(always)]
    pub fn choose(&mut self)
        requires { 2 < length self.old }
        ensures { self.new ≡ chosen (top (below (below self.old))) (top (below self.old)) (top self.old) ∷ below (below (below self.old)) }
    {
        let y = self.pop();
        let x = self.pop();
        let condition = self.pop();
        self.push(chosen(condition, x, y));
    }
}
