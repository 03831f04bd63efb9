//! The words of a line, each of which a tab or the end of the line ends.
ghost use Rattle.std.specs.Prelude.{◌≡◌, ◌↔◌, IsTrue};
ghost use Rattle.ioc_journal_lines.specs.Words.{word_of, after_word, is_word, number_at, Gives};

use ioc_values::number::decimal;

/// Splits the bytes at the end of their first word.
pub(crate) fn split(bytes: &[u8]) -> (&[u8], &[u8])
    ensures word { result.0.now ≡ word_of bytes.now }
    ensures after { result.1.now ≡ after_word bytes.now }
{
    let mut count = 0;
    let mut rest = bytes;
    while let [first, after @ ..] = rest {
        if *first == b'\t' || *first == b'\n' {
            return (&bytes[..count], after);
        }
        count += 1;
        rest = after;
    }
    (bytes, rest)
}

/// Reads a number.
#[tactic(auto, unfolding(crate::specs::Words::number_at))]
pub(crate) fn number_at(bytes: &[u8]) -> Option<(u64, &[u8])>
    ensures { Gives (λ x. (x.0, x.1.now)) result (number_at bytes.now) }
{
    let (word, rest) = split(bytes);
    let number = decimal(word)?;
    Some((number, rest))
}

/// Returns whether a line or a word is this one.
pub(crate) fn is_same(line: &[u8], other: &[u8]) -> bool
    ensures same { IsTrue result ↔ (other.now ≡ line.now) }
    ensures word { result ≡ is_word line.now other.now }
{
    line == other
}
