//! A watched field.
ghost use Rattle.std.specs.Prelude.{◌≡◌, IfSome, IsSome, OnOk};
ghost use Rattle.ioc_watches.specs.Due.{IsDue, IsObserved, Tells, TellsNumbers};
ghost use Rattle.ioc_watches.specs.Lines.{AddsDue};
ghost use Rattle.ioc_watches.specs.declared.observed.Observed.{Observed};

use crate::content::{FieldShown, RecordShown};
use crate::last_told::LastTold;
use crate::line::add_due_line;
use crate::observed::Observed;
use crate::rule::Rule;
use ioc_fields::FieldNo;
use ioc_monitor::Mask;
use std::alloc::{AllocError, Global};

/// A field that is watched by a word, and what was told of it last.
#[derive(Drop)]
pub struct Watch {
    // The word, as it was written.
    word: Vec<u8>,
    field: FieldNo,
    // Whether the number behind the field is shown.
    is_number: bool,
    rule: Rule,
    // What was told last, if anything was.
    told: Option<LastTold>,
}

// The mask of the first line.
const ALL: Mask = Mask {
    value: true,
    log: true,
    alarm: true,
};

impl Watch {
    /// Watches a field with this rule by a word. Nothing was told of it yet.
    ///
    /// # Errors
    ///
    /// [`AllocError`] if allocation fails.
    pub fn new(
        alloc: Global,
        word: &[u8],
        field: FieldNo,
        is_number: bool,
        rule: Rule,
    ) -> Result<Self, AllocError> {
        Ok(Watch {
            word: word.to_vec(alloc)?,
            field,
            is_number,
            rule,
            told: None,
        })
    }

    /// Returns whether the field is watched by this word.
    pub fn is_by(&self, word: &[u8]) -> bool {
        self.word.as_slice() == word
    }

    /// Returns whether it is watched by the word of another one.
    pub fn is_by_word_of(&self, other: &Watch) -> bool {
        self.is_by(other.word.as_slice())
    }

    /// Appends the fields that a look has to show for its lines.
    ///
    /// # Errors
    ///
    /// [`AllocError`] if allocation fails.
    pub fn add_fields(&self, fields: &mut Vec<FieldNo>) -> Result<(), AllocError> {
        fields.push(self.field)?;
        fields.extend_from_slice(self.rule.fields())
    }

    // Returns what is due, and keeps what was told.
    fn due(&mut self, now: &Observed) -> Mask
        ensures due { IsDue self.old.rule self.old.told now.now result }
        ensures told { IfSome self.new.told (Tells now.now) }
        ensures numbers { IfSome self.new.told (TellsNumbers self.old.told now.now) }
        ensures some { IsSome self.new.told }
        ensures word { self.new.word ≡ self.old.word }
    {
        match &mut self.told {
            Some(told) => told.post(self.rule, now),
            None => {
                self.told = Some(LastTold::first(now));
                ALL
            }
        }
    }

    // Appends the line of what was shown now, if one is due.
    fn tell(
        &mut self,
        out: &mut Vec<u8>,
        record: &RecordShown,
        now: &Observed,
    ) -> Result<(), AllocError>
        ensures line { OnOk result (AddsDue self.old.rule self.old.told self.old.word.items record.now now.now out.old.items
            out.new.items) }
        ensures told { IfSome self.new.told (Tells now.now) }
        ensures numbers { IfSome self.new.told (TellsNumbers self.old.told now.now) }
        ensures some { IsSome self.new.told }
    {
        let mask = self.due(now);
        add_due_line(out, self.word.as_slice(), &mask, record, &now.content)
    }

    /// Returns how many fields a look has to show for its lines beside the watched one: none or two.
    pub fn count_of_others(&self) -> usize {
        self.rule.fields().len()
    }

    /// Appends the line of what a look has shown of a record, of the watched field and of those beside it,
    /// if one is due.
    ///
    /// # Errors
    ///
    /// [`AllocError`] if allocation fails; a part of the line may have been appended then.
    pub fn add_line(
        &mut self,
        out: &mut Vec<u8>,
        record: &RecordShown,
        field: &FieldShown,
        others: &[FieldShown],
    ) -> Result<(), AllocError>
        ensures line { OnOk result ((now : Observed) × IsObserved self.old.is_number field.now others.now record.now now
            × AddsDue self.old.rule self.old.told self.old.word.items record.now now out.old.items out.new.items) }
        ensures told { (now : Observed) × IsObserved self.old.is_number field.now others.now record.now now
            × IfSome self.new.told (Tells now)
            × IfSome self.new.told (TellsNumbers self.old.told now) }
        ensures some { IsSome self.new.told }
    {
        let now = Observed::of(self.is_number, field, others, record);
        self.tell(out, record, &now)
    }
}
