//! Macro definitions.
ghost use Rattle.std.specs.Prelude.{◌≡◌, ◌++◌, ◌∷◌, [], true, option_map, OnOk, OnErr, IfOk, IfErr};
ghost use Rattle.ioc_dblex.specs.Macros.{newer, is_macro_byte, is_macro_name, value_of};
ghost use Rattle.ioc_dblex.specs.SeenMacros.{Undefined, defined};

use ioc_values::IocError;
use std::alloc::{AllocError, Global};
use std::marker::Model;

/// The name of a macro and its value.
#[derive(Drop)]
struct Definition {
    name: Vec<u8>,
    value: Vec<u8>,
}

/// The macros that a database text can use. Contracts see the list of definitions, the oldest
/// first.
#[derive(Drop)]
pub struct Macros {
    definitions: Vec<Definition>,
}

impl Model for Macros {
    ghost use Rattle.std.specs.Prelude.{List, map};
    ghost use Rattle.ioc_dblex.specs.Macros.{Defined};
    ghost use Rattle.ioc_dblex.specs.SeenMacros.{defined};

    ghost Value = { List Defined };

    ghost view = { λ m. map defined m.definitions.items };
}

#[tactic(auto, unfolding(crate::specs::Macros::is_macro_byte))]
fn is_macro_byte(b: u8) -> bool
    ensures { result ≡ is_macro_byte b }
{
    matches!(b, b'0'..=b'9' | b'A'..=b'Z' | b'a'..=b'z' | b'_')
}

/// Returns whether the text is a valid macro name: letters, digits and `_`, at least one.
pub fn is_macro_name(name: &[u8]) -> bool
    ensures { result ≡ is_macro_name name.now }
{
    let mut rest = name;
    while let [first, after @ ..] = rest {
        if !is_macro_byte(*first) {
            return false;
        }
        rest = after;
    }
    !name.is_empty()
}

fn copy(alloc: Global, bytes: &[u8]) -> Result<Vec<u8>, AllocError>
    ensures { IfOk result (λ v. v.items ≡ bytes.now) }
{
    let mut copied = Vec::new(alloc);
    copied.extend_from_slice(bytes)?;
    Ok(copied)
}

/// Returns the value of the definition if it has this name, else the one that was found before.
fn newer<'a>(definition: &'a Definition, name: &[u8], found: Option<&'a [u8]>) -> Option<&'a [u8]>
    ensures { option_map (λ v. v.now) result ≡ newer (defined definition.entry.now) name.now (option_map (λ v. v.now) found.entry) }
{
    if definition.name.as_slice() == name {
        Some(definition.value.as_slice())
    } else {
        found
    }
}

impl Macros {
    /// Creates a list without macros.
    pub fn new(alloc: Global) -> Self
        ensures { result ≡ [] }
    {
        Macros {
            definitions: Vec::new(alloc),
        }
    }

    /// Defines a macro. A later definition of the same name takes precedence.
    ///
    /// # Errors
    ///
    /// [`IocError::BadValue`] if the name isn't valid: it must consist of letters, digits and `_`,
    /// at least one. [`IocError::NoMemory`] if allocation fails. Nothing has changed then.
    pub fn define(&mut self, alloc: Global, name: &[u8], value: &[u8]) -> Result<(), IocError>
        ensures defined { OnOk result (self.new ≡ self.old ++ (record { name = name.now; value = value.now }) ∷ []) }
        ensures unchanged { OnErr result (self.new ≡ self.old) }
        ensures name { OnOk result (is_macro_name name.now ≡ true) }
        ensures refused { IfErr result (λ e. Undefined e name.now) }
    {
        if !is_macro_name(name) {
            return Err(IocError::BadValue);
        }
        let name = copy(alloc, name)?;
        let value = copy(alloc, value)?;
        self.definitions.push(Definition { name, value })?;
        Ok(())
    }

    /// Returns the value of the macro with this name.
    pub fn value_of(&self, name: &[u8]) -> Option<&[u8]>
        ensures { option_map (λ v. v.now) result ≡ value_of self.now name.now }
    {
        let mut found = None;
        let mut rest = self.definitions.as_slice();
        while let [first, after @ ..] = rest {
            found = newer(first, name, found);
            rest = after;
        }
        found
    }
}
