//! Hashes as words.
ghost use Rattle.std.specs.Prelude.{◌≡◌, ◌++◌, OnOk};
ghost use Rattle.hex.specs.Hex.{encode_lower};
ghost use Rattle.ioc_journal_lines.specs.Words.{digest_at, Gives};

use crate::words::split;
use hex::FromHex;
use std::alloc::AllocError;

/// A SHA-256 hash.
pub(crate) type Digest = [u8; 32];

/// Appends the hexadecimal digits of a hash.
pub(crate) fn add_digest(out: &mut Vec<u8>, digest: &Digest) -> Result<(), AllocError>
    ensures { OnOk result (out.new.items ≡ out.old.items ++ encode_lower digest.now) }
{
    let mut text = [0; 64];
    let _written = hex::encode_to_slice(digest, &mut text);
    out.extend_from_slice(&text)
}

/// Reads a hash.
#[tactic(auto, unfolding(crate::specs::Words::digest_at))]
pub(crate) fn digest_at(bytes: &[u8]) -> Option<(Digest, &[u8])>
    ensures { Gives (λ x. (x.0, x.1.now)) result (digest_at bytes.now) }
{
    let (word, rest) = split(bytes);
    match <Digest as FromHex>::from_hex(word) {
        Ok(digest) => Some((digest, rest)),
        Err(_) => None,
    }
}
