//! Values of fields, their conversions, and the errors of the engine's calls.
#![tactic(auto)]

pub mod byte_buffer;
pub mod conversion;
pub mod error;
pub mod input;
pub mod kind;
pub mod number;
pub mod short;
mod shown;
pub mod trim;
pub mod value;

pub use byte_buffer::ByteBuffer;
pub use conversion::{convert, double_text, exact_double_text, of_double, of_number};
pub use error::{BadDbKind, DbFault, IocError, LoadError};
pub use input::{Input, convert_input, convert_text, spelled_number};
pub use ioc_double::{Digits, Double, double_of_text, text_of_double};
pub use kind::{Kind, Range};
pub use short::{
    FieldName, MAX_FIELD_NAME_BYTES, MAX_NAME_BYTES, MAX_TEXT_BYTES, Name, Short, Text,
};
pub use value::{Finished, Value};
