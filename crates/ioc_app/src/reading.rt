//! Fields of a record as programs read them.
use ioc_commands::add_escaped_text;
use ioc_devices::add_value;
use ioc_engine::FieldSeen;
use ioc_fields::{FieldNo, RecordType, field};
use ioc_values::IocError;
use std::alloc::{AllocError, Global};

/// The fields that a line reads, in its order.
#[derive(Drop)]
pub struct Wanted {
    /// The fields.
    pub fields: Vec<FieldNo>,
    // Whether the number behind each is asked for.
    as_numbers: Vec<bool>,
}

impl Wanted {
    /// Finds the fields that words name, with a space between each two. Behind a name, `#` asks for
    /// the number of a state or a choice, or for all digits of a double.
    ///
    /// # Errors
    ///
    /// [`IocError::NoField`] if the type has no field with one of the names.
    /// [`IocError::NoMemory`] if allocation fails.
    pub fn of(alloc: Global, record_type: RecordType, words: &[u8]) -> Result<Self, IocError> {
        let mut wanted = Wanted {
            fields: Vec::new(alloc),
            as_numbers: Vec::new(alloc),
        };
        for word in words.split(|byte| *byte == b' ') {
            let (name, as_number) = match word {
                [name @ .., b'#'] => (name, true),
                _ => (word, false),
            };
            match field(record_type, name) {
                Some(number) => wanted.fields.push(number)?,
                None => return Err(IocError::NoField),
            };
            wanted.as_numbers.push(as_number)?;
        }
        Ok(wanted)
    }

    /// Appends the line of what a look has shown: `=`, and each value behind a tab.
    ///
    /// # Errors
    ///
    /// [`AllocError`] if allocation fails.
    pub fn add_line(&self, said: &mut Vec<u8>, shown: &[FieldSeen]) -> Result<(), AllocError> {
        said.push(b'=')?;
        for (seen, as_number) in shown.iter().zip(self.as_numbers.iter()) {
            said.push(b'\t')?;
            match seen.value {
                Some(value) if *as_number => add_value(said, value)?,
                _ => add_escaped_text(said, seen.text.as_slice())?,
            }
        }
        said.push(b'\n')?;
        Ok(())
    }
}
