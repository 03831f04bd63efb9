//! Definitions of macros.
ghost use Rattle.std.specs.Prelude.{◌≡◌, IfOk};

use std::alloc::{AllocError, Global};
use std::mem;

/// The definition of a macro.
#[derive(Debug, Drop)]
pub struct Definition {
    /// The macro's name.
    pub name: Vec<u8>,
    /// The value as it is written: it may use macros in turn.
    pub value: Vec<u8>,
}

impl Definition {
    /// Makes a definition of copies of a name and a value.
    ///
    /// # Errors
    ///
    /// [`AllocError`] if allocation fails.
    pub fn new(alloc: Global, name: &[u8], value: &[u8]) -> Result<Self, AllocError>
        ensures name { IfOk result (λ d. d.name.items ≡ name.now) }
        ensures value { IfOk result (λ d. d.value.items ≡ value.now) }
    {
        Ok(Definition {
            name: name.to_vec(alloc)?,
            value: value.to_vec(alloc)?,
        })
    }

    /// Makes a definition of a copy of a name and of a value that has no macros, quotes and backslashes of its
    /// own: each of its bytes stands for itself.
    ///
    /// # Errors
    ///
    /// [`AllocError`] if allocation fails.
    pub fn literal(alloc: Global, name: &[u8], value: &[u8]) -> Result<Self, AllocError> {
        let mut escaped = Vec::new(alloc);
        for byte in value {
            if b"\\\"'$".contains(byte) {
                escaped.push(b'\\')?;
            }
            escaped.push(*byte)?;
        }
        Definition::new(alloc, name, escaped.as_slice())
    }
}

/// A definition that holds.
#[derive(Drop)]
struct Held {
    definition: Definition,
    /// Whether its value is taken, since it is being replaced.
    is_open: bool,
}

/// What a macro has for a value.
#[derive(Drop)]
pub enum Value {
    Undefined,
    /// The macro is used in its own value.
    Open,
    /// The value as it is written, and the number of its definition.
    Text(Vec<u8>, usize),
}

/// The definitions that hold, of which later ones take precedence.
#[derive(Drop)]
pub struct Macros {
    alloc: Global,
    held: Vec<Held>,
}

impl Macros {
    /// Begins with no definitions.
    pub fn new(alloc: Global) -> Self {
        Macros {
            alloc,
            held: Vec::new(alloc),
        }
    }

    /// Returns the number of definitions.
    pub fn count(&self) -> usize {
        self.held.len()
    }

    /// Adds a definition.
    ///
    /// # Errors
    ///
    /// [`AllocError`] if allocation fails.
    pub fn define(&mut self, definition: Definition) -> Result<(), AllocError> {
        let is_open = false;
        self.held.push(Held {
            definition,
            is_open,
        })?;
        Ok(())
    }

    /// Adds copies of definitions.
    ///
    /// # Errors
    ///
    /// [`AllocError`] if allocation fails.
    pub fn define_all(&mut self, definitions: &[Definition]) -> Result<(), AllocError> {
        for definition in definitions {
            let name = definition.name.as_slice();
            let value = definition.value.as_slice();
            self.define(Definition::new(self.alloc, name, value)?)?;
        }
        Ok(())
    }

    /// Drops the definitions but the first ones, of this number.
    pub fn keep(&mut self, count: usize) {
        self.held.truncate(count);
    }

    /// Takes the value of a macro. Its definition is open until it has the value again.
    pub fn take_value(&mut self, name: &[u8]) -> Value {
        for (number, held) in self.held.iter_mut().enumerate().rev() {
            if held.definition.name.as_slice() == name {
                if held.is_open {
                    return Value::Open;
                }
                held.is_open = true;
                let none = Vec::new(self.alloc);
                return Value::Text(mem::replace(&mut held.definition.value, none), number);
            }
        }
        Value::Undefined
    }

    /// Gives the definition with this number its value again.
    pub fn give_back(&mut self, value: Vec<u8>, number: usize) {
        if let Some(held) = self.held.get_mut(number) {
            held.is_open = false;
            held.definition.value = value;
        }
    }
}
