//! The entries between the braces of a record.
ghost use Rattle.std.specs.Prelude.{◌≡◌};
ghost use Rattle.ioc_dbparse.specs.Statements.{Gives, Fails, field_at, set_at, setting_at, info_at, second_at, alias_in};
ghost use Rattle.ioc_dbparse.specs.Statements.{entry_of, entry_at, body_at, braces_at};
ghost use Rattle.ioc_dblex.specs.SeenToken.{seen};

use crate::builder::{BuildError, Builder};
use crate::words::{expect, fault, is_sign_of, is_word, next_at, text_of, value_at};
use ioc_dblex::{Token, Tokens};
use ioc_fields::FieldNo;
use ioc_names::RecordNo;
use ioc_values::{BadDbKind, LoadError};
use std::alloc::Global;

/// Where the entries of a record are read.
#[derive(Clone, Copy)]
pub struct RecordEntries {
    pub alloc: Global,
    /// The last line of the text.
    pub last: u64,
    /// The number of the record.
    pub number: RecordNo,
}

/// Reads `(K, V)` of `info(K, V)`, which has no effect.
#[tactic(auto, unfolding(crate::specs::Statements::info_at))]
fn info_at<B: Builder>(last: u64, _builder: &B, tokens: &mut Tokens) -> Result<(), LoadError>
    ensures { Gives (λ _. (_builder.now, tokens.new)) result (info_at B.rules last _builder.now tokens.old) }
{
    expect(b'(', last, tokens)?;
    value_at(last, tokens)?;
    expect(b',', last, tokens)?;
    value_at(last, tokens)?;
    expect(b')', last, tokens)?;
    Ok(())
}

impl RecordEntries {
    /// Reads F of `field(F, V)`.
    #[tactic(auto, unfolding(crate::specs::Statements::field_at))]
    fn field_at<B: Builder>(&self, builder: &B, tokens: &mut Tokens) -> Result<FieldNo, LoadError>
        ensures { Gives (λ f. (f, tokens.new)) result (field_at B.rules self.now.last self.now.number builder.now tokens.old) }
    {
        let token = value_at(self.last, tokens)?;
        let name = text_of(self.alloc, false, &token)?;
        match builder.field_of(self.number, name.as_slice()) {
            Ok(field) => Ok(field),
            Err(kind) => Err(fault(token.line, kind)),
        }
    }

    /// Reads V of `field(F, V)`.
    #[tactic(auto, unfolding(crate::specs::Statements::set_at))]
    fn set_at<B: Builder>(
        &self,
        field: FieldNo,
        builder: &mut B,
        tokens: &mut Tokens,
    ) -> Result<(), LoadError>
        ensures { Gives (λ _. (builder.new, tokens.new)) result (set_at B.rules self.now.last self.now.number field builder.old
            tokens.old) }
    {
        let token = value_at(self.last, tokens)?;
        let value = text_of(self.alloc, true, &token)?;
        match builder.set(self.number, field, value.as_slice()) {
            Ok(()) => Ok(()),
            Err(BuildError::Memory) => Err(LoadError::NoMemory),
            Err(BuildError::Refused(kind)) => Err(fault(token.line, kind)),
        }
    }

    /// Reads A, a second name of a record.
    #[tactic(auto, unfolding(crate::specs::Statements::second_at))]
    pub fn second_at<B: Builder>(
        &self,
        builder: &mut B,
        tokens: &mut Tokens,
    ) -> Result<(), LoadError>
        ensures { Gives (λ _. (builder.new, tokens.new)) result (second_at B.rules self.now.last self.now.number builder.old tokens.old) }
    {
        let token = value_at(self.last, tokens)?;
        let name = text_of(self.alloc, false, &token)?;
        match builder.alias(self.number, name.as_slice()) {
            Ok(()) => Ok(()),
            Err(BuildError::Memory) => Err(LoadError::NoMemory),
            Err(BuildError::Refused(kind)) => Err(fault(token.line, kind)),
        }
    }

    /// Reads `(F, V)`.
    #[tactic(auto, unfolding(crate::specs::Statements::setting_at))]
    fn setting_at<B: Builder>(&self, builder: &mut B, tokens: &mut Tokens) -> Result<(), LoadError>
        ensures { Gives (λ _. (builder.new, tokens.new)) result (setting_at B.rules self.now.last self.now.number builder.old tokens.old) }
    {
        let last = self.last;
        expect(b'(', last, tokens)?;
        let field = self.field_at(&*builder, tokens)?;
        expect(b',', last, tokens)?;
        self.set_at(field, builder, tokens)?;
        expect(b')', last, tokens)?;
        Ok(())
    }

    /// Reads `(A)` of `alias(A)`.
    #[tactic(auto, unfolding(crate::specs::Statements::alias_in))]
    fn alias_in<B: Builder>(&self, builder: &mut B, tokens: &mut Tokens) -> Result<(), LoadError>
        ensures { Gives (λ _. (builder.new, tokens.new)) result (alias_in B.rules self.now.last self.now.number builder.old tokens.old) }
    {
        let last = self.last;
        expect(b'(', last, tokens)?;
        self.second_at(builder, tokens)?;
        expect(b')', last, tokens)?;
        Ok(())
    }

    /// Reads the rest of an entry after its first word.
    #[tactic(auto, unfolding(crate::specs::Statements::entry_of))]
    fn entry_of<B: Builder>(
        &self,
        token: &Token,
        builder: &mut B,
        tokens: &mut Tokens,
    ) -> Result<(), LoadError>
        ensures { Gives (λ _. (builder.new, tokens.new)) result (entry_of B.rules self.now.last self.now.number builder.old
            (seen token.now, tokens.old)) }
    {
        if is_word(b"field", token) {
            return self.setting_at(builder, tokens);
        }
        if is_word(b"info", token) {
            return info_at(self.last, &*builder, tokens);
        }
        if is_word(b"alias", token) {
            return self.alias_in(builder, tokens);
        }
        Err(fault(token.line, BadDbKind::Syntax))
    }

    /// Reads an entry or the closing brace, and returns whether there may be more.
    #[tactic(auto, unfolding(crate::specs::Statements::entry_at))]
    fn entry_at<B: Builder>(&self, builder: &mut B, tokens: &mut Tokens) -> Result<bool, LoadError>
        ensures { Gives (λ more. (more, builder.new, tokens.new)) result
            (entry_at B.rules self.now.last self.now.number builder.old tokens.old) }
    {
        let token = next_at(self.last, tokens)?;
        if is_sign_of(b'}', token.kind) {
            return Ok(false);
        }
        self.entry_of(&token, builder, tokens)?;
        Ok(true)
    }

    /// Reads the entries between the braces, at most as many as the bound.
    #[tactic(auto, using(crate::proofs::Loop::goes_on, crate::proofs::Loop::is_done, crate::proofs::Loop::is_out))]
    fn body_at<B: Builder>(
        &self,
        turns: u64,
        builder: &mut B,
        tokens: &mut Tokens,
    ) -> Result<(), LoadError>
        ensures { Gives (λ _. (builder.new, tokens.new)) result (body_at B.rules turns self.now.last self.now.number builder.old
            tokens.old) }
    {
        for _ in 0..turns {
            if !self.entry_at(builder, tokens)? {
                return Ok(());
            }
        }
        Err(fault(self.last, BadDbKind::OpenBody))
    }

    /// Reads the entries between braces, which may be missing.
    #[tactic(auto, unfolding(crate::specs::Statements::braces_at))]
    pub fn braces_at<B: Builder>(
        &self,
        turns: u64,
        builder: &mut B,
        tokens: &mut Tokens,
    ) -> Result<(), LoadError>
        ensures { Gives (λ _. (builder.new, tokens.new)) result (braces_at B.rules turns self.now.last self.now.number builder.old
            tokens.old) }
    {
        if !tokens.take_sign(b'{') {
            return Ok(());
        }
        self.body_at(turns, builder, tokens)
    }
}
