//! The words of a link text, which are separated by spaces and tabs.

ghost use Rattle.std.specs.Prelude.{◌≡◌, codes, nat_eq};
ghost use Rattle.ioc_links.specs.Words.{words, has, IsNextWord};
ghost use Rattle.ioc_links.specs.Grammar.{flags_of, mode_of, is_word, all_words};

use crate::class::{Class, split_at};
use crate::link::{Flags, Mode};
use ioc_values::trim::skip_front;

/// Returns the first word and the text after it, or `None` if there is no word.
pub fn next_word(text: &[u8]) -> Option<(&[u8], &[u8])>
    ensures { IsNextWord text.now result }
{
    let text = skip_front(text, true);
    if text.is_empty() {
        return None;
    }
    Some(split_at(Class::Blank, text))
}

/// Returns whether the word is valid after a target.
fn is_word(word: &[u8]) -> bool
    ensures { result ≡ is_word word.now }
{
    word == b"PP".as_slice()
        || word == b"NPP".as_slice()
        || word == b"NMS".as_slice()
        || word == b"MS".as_slice()
        || word == b"MSI".as_slice()
        || word == b"MSS".as_slice()
}

/// Returns whether each word of the text is valid after a target.
fn all_words(text: &[u8]) -> bool
    ensures { result ≡ all_words (words text.now) }
{
    let mut rest = text;
    while let Some((word, after)) = next_word(rest) {
        if !is_word(word) {
            return false;
        }
        rest = after;
    }
    true
}

/// Returns whether the text contains the word.
fn has(word: &[u8], text: &[u8]) -> bool
    ensures { result ≡ has word.now (words text.now) }
{
    let mut rest = text;
    while let Some((first, after)) = next_word(rest) {
        if first == word {
            return true;
        }
        rest = after;
    }
    false
}

/// Returns the mode that the words spell. NMS takes precedence over MSI, MSI over MSS, and MSS over
/// MS.
#[tactic(auto, unfolding(crate::specs::Grammar::mode_of))]
fn mode_of(text: &[u8]) -> Mode
    ensures { result ≡ mode_of (words text.now) }
{
    if has(b"NMS", text) {
        Mode::Nms
    } else if has(b"MSI", text) {
        Mode::Msi
    } else if has(b"MSS", text) {
        Mode::Mss
    } else if has(b"MS", text) {
        Mode::Ms
    } else {
        Mode::Nms
    }
}

/// Returns the flags that the words after a target spell. NPP takes precedence over PP.
#[tactic(auto, unfolding(crate::specs::Grammar::flags_of))]
pub fn flags_of(text: &[u8]) -> Option<Flags>
    ensures { result ≡ flags_of (words text.now) }
{
    if !all_words(text) {
        return None;
    }
    let mode = mode_of(text);
    let process_passive = has(b"PP", text) && !has(b"NPP", text);
    Some(Flags {
        process_passive,
        mode,
    })
}
