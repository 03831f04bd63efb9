//! The states of a record, two or sixteen, and how VAL and RVAL follow each other.
ghost use Rattle.std.specs.Prelude.{◌≡◌};
ghost use Rattle.rec_state.specs.States.{StateRules};
ghost use Rattle.rec_state.specs.StatesLaws.{IsLawfulStates};

use ioc_dbcommon::Got;
use ioc_fields::{OwnField, RecordType};
use ioc_menus::Severity;
use ioc_values::{Text, Value};

/// The states of a record, with the record types that have such states.
pub trait States: Copy {
    ghost rules: { StateRules Self };

    /// Creates the states of a new record, all 0 or empty.
    fn new() -> Self
        ensures { result ≡ rules.new };

    fn get(&self, field: OwnField) -> Option<Value>
        ensures { result ≡ rules.get self.now field };

    fn store(&mut self, field: OwnField, value: Value)
        ensures { self.new ≡ rules.stored self.old field value };

    fn texts(&self) -> &[Text]
        ensures { result.now ≡ rules.texts self.now };

    /// Returns the severity of a VAL.
    fn severity(&self, value: u16) -> Severity
        ensures { result ≡ rules.severity self.now value };

    /// Returns whether an input with this VAL has the alarms of states.
    fn has_alarms(value: u16) -> bool
        ensures { result ≡ rules.has_alarms value };

    /// Returns the bits of a raw input that MASK leaves.
    fn masked(mask: u32, raw: u32) -> u32
        ensures { result ≡ rules.masked mask raw };

    /// Returns the VAL for an RVAL.
    fn state_of(&self, raw: u32) -> u16
        ensures { result ≡ rules.state_of self.now raw };

    /// Returns the RVAL for a VAL, or `None` if RVAL stays the same.
    fn raw_of(&self, mask: u32, value: u16) -> Option<u32>
        ensures { result ≡ rules.raw_of self.now mask value };

    /// Returns whether an output sets RVAL after this input, by UDF.
    fn converts(got: &Got, undefined: u8) -> bool
        ensures { result ≡ rules.converts got.now undefined };

    /// Returns the bits of RVAL that are driven.
    fn driven(mask: u32, raw: u32) -> u32
        ensures { result ≡ rules.driven mask raw };

    /// Returns MASK after a load.
    fn loaded_mask(&self, mask: u32) -> u32
        ensures { result ≡ rules.loaded_mask self.now mask };

    /// Returns the VAL for a constant DOL, or `None` if VAL stays the same.
    fn constant(number: i64) -> Option<u16>
        ensures { result ≡ rules.constant number };

    /// Returns the record type that reads such states. `output_type` is the one that writes them.
    fn input_type() -> RecordType
        ensures { result ≡ rules.input_type };

    fn output_type() -> RecordType
        ensures { result ≡ rules.output_type };

    ghost lawful: { IsLawfulStates rules };
}
