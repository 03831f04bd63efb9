//! Texts without the blanks at their ends.

ghost use Rattle.std.specs.Prelude.{◌≡◌, ◌≤◌, length};
ghost use Rattle.ioc_values.specs.Trim.{trimmed, is_blank, skip_front};

/// Returns whether the byte is a space or, if `tabs` is true, a tab.
pub fn is_blank(b: u8, tabs: bool) -> bool
    ensures { result ≡ is_blank tabs b }
{
    b == b' ' || (tabs && b == b'\t')
}

/// Returns the text from its first byte that isn't a blank.
pub fn skip_front(text: &[u8], tabs: bool) -> &[u8]
    ensures value { result.now ≡ skip_front (is_blank tabs) text.now }
    ensures shorter { length result.now ≤ length text.now }
{
    let mut rest = text;
    while let [first, after @ ..] = rest {
        if !is_blank(*first, tabs) {
            return rest;
        }
        rest = after;
    }
    rest
}

/// Returns the text without the spaces at both ends; if `tabs` is true, without the tabs too.
pub fn trim(text: &[u8], tabs: bool) -> &[u8]
    ensures value { result.now ≡ trimmed (is_blank tabs) text.now }
    ensures shorter { length result.now ≤ length text.now }
{
    let mut rest = skip_front(text, tabs);
    while let [before @ .., last] = rest {
        if !is_blank(*last, tabs) {
            return rest;
        }
        rest = before;
    }
    rest
}
