//! Event names, and first words of device links.
ghost use Rattle.std.specs.Prelude.{◌≡◌, ◌≤◌, length};
ghost use Rattle.ioc_scan.specs.Places.{event_word, given_word, first_word};

use ioc_links::MAX_DEVICE_BYTES;
use ioc_values::trim::{is_blank, trim};
use ioc_values::{Short, Text};

/// The name of an event, or the first word of a device link, of at most 119 bytes.
pub type Word = Short<MAX_DEVICE_BYTES>;

// Creates a word of these bytes.
fn whole(bytes: &[u8]) -> Word
    requires { length bytes.now ≤ 119 }
    ensures { result ≡ bytes.now }
{
    Word::cut(bytes)
}

/// Returns the word of an event name, which is the name without the spaces at its ends. Returns
/// `None` if the name is empty or `0`; these name no event.
pub fn event_word(name: Text) -> Option<Word>
    ensures { result ≡ event_word name }
{
    let bytes = trim(name.as_slice(), false);
    if bytes.is_empty() || bytes == b"0".as_slice() {
        return None;
    }
    Some(whole(bytes))
}

/// Returns the word of these bytes, or `None` if there are more than 119.
pub fn given_word(bytes: &[u8]) -> Option<Word>
    ensures { result ≡ given_word bytes.now }
{
    if bytes.len() > MAX_DEVICE_BYTES {
        return None;
    }
    Some(whole(bytes))
}

/// Returns the first word of a device link's text, up to the first space or tab.
pub fn link_word(text: Short<MAX_DEVICE_BYTES>) -> Word
    ensures { result ≡ first_word text }
{
    whole(first_word(text.as_slice()))
}

// Returns the bytes before the first space or tab.
fn first_word(text: &[u8]) -> &[u8]
    ensures value { result.now ≡ first_word text.now }
    ensures shorter { length result.now ≤ length text.now }
{
    for (i, b) in text.iter().enumerate() {
        if is_blank(*b, true) {
            return &text[..i];
        }
    }
    text
}
