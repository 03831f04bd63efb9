//! Seals: hashes of all lines before them.
ghost use Rattle.std.specs.Prelude.{◌≡◌, ◌++◌, [], ℕ, List, OnOk, IfOk, IfSome, Some};
ghost use Rattle.sha2.specs.Hashers.{Holds256};
ghost use Rattle.sha2.specs.Sha256.{sha256};
ghost use Rattle.ioc_journal_lines.specs.Lines.{seal_line, read_seal, IsDigest};
ghost use Rattle.ioc_journal_lines.specs.Words.{Gives};

use crate::digest::{add_digest, digest_at};
use crate::words::{is_same, split};
use sha2::{Digest, Sha256};
use std::alloc::{AllocError, Global};

/// Appends the line of a seal with this hash.
///
/// # Errors
///
/// [`AllocError`] if allocation fails; a part of the line may have been appended then.
#[tactic(auto, unfolding(crate::specs::Lines::seal_line))]
pub fn add_seal(out: &mut Vec<u8>, hash: &[u8; 32]) -> Result<(), AllocError>
    ensures { OnOk result (out.new.items ≡ out.old.items ++ seal_line hash.now) }
{
    out.extend_from_slice(b"seal\t")?;
    add_digest(out, hash)?;
    out.push(b'\n')?;
    Ok(())
}

/// Reads the hash of a seal.
#[tactic(auto, unfolding(crate::specs::Lines::read_seal))]
fn read_seal(line: &[u8]) -> Option<[u8; 32]>
    ensures { Gives (λ x. x) result (read_seal line.now) }
{
    let (_seal, rest) = split(line);
    let (hash, _rest) = digest_at(rest)?;
    Some(hash)
}

/// Reads a line, with the line break at its end: the hash of the seal that [`add_seal`] writes so, or
/// `None` if no seal has this line.
///
/// # Errors
///
/// [`AllocError`] if allocation fails.
pub fn seal_of(alloc: Global, line: &[u8]) -> Result<Option<[u8; 32]>, AllocError>
    ensures found { IfOk result (λ read. IfSome read (λ hash. line.now ≡ seal_line hash)) }
    ensures only { (hash : List ℕ) → IsDigest hash → line.now ≡ seal_line hash → IfOk result (λ read. read ≡ Some hash) }
{
    let Some(hash) = read_seal(line) else {
        return Ok(None);
    };
    let mut out = Vec::new(alloc);
    add_seal(&mut out, &hash)?;
    if !is_same(out.as_slice(), line) {
        return Ok(None);
    }
    Ok(Some(hash))
}

/// Returns the hash of a database text and the definitions of its macros.
pub fn database_hash(text: &[u8], definitions: &[u8]) -> [u8; 32]
    ensures { result ≡ sha256 (text.now ++ definitions.now) }
{
    let mut hasher = Sha256::new();
    hasher.update(text);
    hasher.update(definitions);
    hasher.finalize()
}

/// The running hash of a journal's lines.
#[derive(Drop)]
pub struct Seals {
    hasher: Sha256,
}

impl Seals {
    ghost use Rattle.ioc_journal_lines.specs.Sealing.{Covers};

    /// Covers no line yet.
    pub fn new() -> Self
        ensures { Covers result [] }
    {
        Seals {
            hasher: Sha256::new(),
        }
    }

    /// Covers these lines too.
    pub fn cover(&mut self, lines: &[u8])
        ensures { (before : List ℕ) → Covers self.old before → Covers self.new (before ++ lines.now) }
    {
        self.hasher.update(lines);
    }

    /// Returns the hash of all lines that are covered.
    ///
    /// # Errors
    ///
    /// [`AllocError`] if allocation fails.
    pub fn hash(&self) -> Result<[u8; 32], AllocError>
        ensures { (lines : List ℕ) → Covers self.now lines → IfOk result (λ hash. hash ≡ sha256 lines) }
    {
        let hasher = self.hasher.clone()?;
        Ok(hasher.finalize())
    }
}
