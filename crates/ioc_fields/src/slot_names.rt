//! The names of the fields of which there are sixteen, one for each slot.
ghost use Rattle.std.specs.Prelude.{map};
ghost use Rattle.ioc_fields.specs.Names.{IsNameAt};

use crate::field_no::FieldSlot;

/// The names of the fields with the values of the states.
pub static STATE_VALUES: [&str; 16] = [
    "ZRVL", "ONVL", "TWVL", "THVL", "FRVL", "FVVL", "SXVL", "SVVL", "EIVL", "NIVL", "TEVL", "ELVL",
    "TVVL", "TTVL", "FTVL", "FFVL",
];

/// The names of the fields with the texts of the states.
pub static STATE_TEXTS: [&str; 16] = [
    "ZRST", "ONST", "TWST", "THST", "FRST", "FVST", "SXST", "SVST", "EIST", "NIST", "TEST", "ELST",
    "TVST", "TTST", "FTST", "FFST",
];

/// The names of the fields with the severities of the states.
pub static STATE_SEVERITIES: [&str; 16] = [
    "ZRSV", "ONSV", "TWSV", "THSV", "FRSV", "FVSV", "SXSV", "SVSV", "EISV", "NISV", "TESV", "ELSV",
    "TVSV", "TTSV", "FTSV", "FFSV",
];

/// The names of the links of a fanout.
pub static LINKS: [&str; 16] = [
    "LNK0", "LNK1", "LNK2", "LNK3", "LNK4", "LNK5", "LNK6", "LNK7", "LNK8", "LNK9", "LNKA", "LNKB",
    "LNKC", "LNKD", "LNKE", "LNKF",
];

/// The names of the values of the inputs. Those behind L are fields of no type.
pub static LETTERS: [&str; 16] = [
    "A", "B", "C", "D", "E", "F", "G", "H", "I", "J", "K", "L", "M", "N", "O", "P",
];

/// The names of the values of the inputs that monitors were last sent.
pub static LAST_LETTERS: [&str; 16] = [
    "LA", "LB", "LC", "LD", "LE", "LF", "LG", "LH", "LI", "LJ", "LK", "LL", "LM", "LN", "LO", "LP",
];

/// The names of the inputs.
pub static INPUT_LINKS: [&str; 16] = [
    "INPA", "INPB", "INPC", "INPD", "INPE", "INPF", "INPG", "INPH", "INPI", "INPJ", "INPK", "INPL",
    "INPM", "INPN", "INPO", "INPP",
];

/// Returns the name of the slot's field among these names.
#[inline]
pub fn name_at(names: &[&'static str; 16], slot: FieldSlot) -> &'static str
    ensures { IsNameAt (map (λ n. n.now) names.now) slot result.now }
{
    names[slot.index()]
}
