//! What is put into a field, and by whom.
use ioc_values::Input;

/// What is put into a field: a value, or the text that spells one, which is converted in place.
#[derive(Clone, Copy)]
pub enum Given<'a> {
    Value(&'a Input),
    Text(&'a [u8]),
}

/// Who puts a value into a field. DISP keeps only clients from it.
#[derive(Clone, Copy)]
pub enum Putter {
    Client,
    Link,
}
