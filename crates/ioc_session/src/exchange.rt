//! A script in the place of a database text.
use ioc_commands::Command;

/// Returns whether the first line of a text that isn't empty and no comment is one of a script.
pub fn begins_as_script(text: &[u8]) -> bool {
    let Ok(text) = str::from_utf8(text) else {
        return false;
    };
    for line in text.lines() {
        match Command::from_line(line.as_bytes()) {
            Command::Silent => {}
            Command::Bad => return false,
            _ => return true,
        }
    }
    false
}
