//! The words of a line, each of which a tab or the end of the line ends.
ghost use Rattle.std.specs.Prelude.{◌≡◌, ◌↔◌, IsTrue};
ghost use Rattle.ioc_journal_file.specs.Words.{word_of, after_word, is_word};

/// Splits the bytes at the end of their first word.
pub(crate) fn split(bytes: &[u8]) -> (&[u8], &[u8])
    ensures word { result.0.now ≡ word_of bytes.now }
    ensures after { result.1.now ≡ after_word bytes.now }
{
    let mut count = 0;
    let mut rest = bytes;
    while let [first, after @ ..] = rest {
        if *first == b'\t' || *first == b'\n' {
            return (&bytes[..count], after);
        }
        count += 1;
        rest = after;
    }
    (bytes, rest)
}

/// Returns whether the words are the same.
pub(crate) fn is_word(word: &[u8], other: &[u8]) -> bool
    ensures { result ≡ is_word word.now other.now }
{
    word == other
}

/// Returns whether two lines are the same.
pub(crate) fn is_same(made: &[u8], line: &[u8]) -> bool
    ensures { IsTrue result ↔ (line.now ≡ made.now) }
{
    made == line
}
