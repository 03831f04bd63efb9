//! The lines of a user as those of a script.
use ioc_commands::{Verb, cut_at};
use ioc_main::LineBuffer;

/// Returns the line of a script that does what a user's line does: `dbpf` and `dbgf` are put and
/// get, and a record alone is its field VAL.
pub fn script_line(line: &[u8]) -> LineBuffer {
    let mut script = LineBuffer::new();
    let (word, words) = cut_at(line, b' ');
    let verb = match Verb::from_word(word) {
        Some(Verb::Get | Verb::Dbgf) => b"get ".as_slice(),
        Some(Verb::Put | Verb::Dbpf) => b"put ".as_slice(),
        Some(Verb::Notify) => b"notify ".as_slice(),
        _ => b"".as_slice(),
    };
    let Some(words) = words.filter(|_| !verb.is_empty()) else {
        script.extend_cut(line);
        return script;
    };
    let (channel, text) = cut_at(words, b' ');
    script.extend_cut(verb);
    script.extend_cut(channel);
    if !channel.is_empty() && !channel.contains(&b'.') {
        script.extend_cut(b".VAL");
    }
    if let Some(text) = text {
        script.extend_cut(b" ");
        script.extend_cut(text);
    }
    script
}
