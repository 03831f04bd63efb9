//! What EPICS Base 7 has and this project leaves out.
//!
//! This table is the only one: `tools/check-differences` compares it with
//! `docs/EPICS_DIFFERENCES.md`.
use ioc_fields::RecordType;
use ioc_menus::Menu;

/// The types of records that this project has.
static TYPES: [&str; 17] = [
    "longin",
    "longout",
    "int64in",
    "int64out",
    "bi",
    "bo",
    "mbbi",
    "mbbo",
    "stringin",
    "stringout",
    "fanout",
    "event",
    "ai",
    "ao",
    "calc",
    "calcout",
    "sel",
];

/// A name that EPICS has and this project leaves out, and what does the same here: nothing, or a clause.
type LeftOut = (&'static str, &'static str);

/// Nothing here does what the name does.
const NOTHING: &str = "";

/// What is said of a field that no text sets.
const COMPUTED: &str = "EPICS sets it itself, so leave it out";

/// What is said of device support of asyn.
const ASYN: &str = "an @ link and a driver do (docs/DRIVERS.md)";

/// What is said of records that compute.
const DRIVER: &str = "a driver can compute it (docs/DRIVERS.md)";

/// What is said of fields by which a record is watched.
const TRACE: &str = "ioc-replay --trace tells what it does";

/// What is said of a bo that goes back by itself.
const PULSE: &str = "another bo with SCAN, DOL 0 and OUT to this one puts 0 back";

/// What is said of fields for simulation.
const SOURCE: &str = "the line link of a script or a console gives INP or OUT another text";

/// What is said of links that process their own record.
const FORWARD: &str = "name this record in FLNK of that one, or give it a SCAN";

static LEFT_OUT_TYPES: [LeftOut; 26] = [
    ("aai", NOTHING),
    ("aao", NOTHING),
    ("aSub", DRIVER),
    ("acalcout", NOTHING),
    ("asyn", "a driver does (docs/DRIVERS.md)"),
    ("busy", "a bo with a late driver does (docs/DRIVERS.md)"),
    ("compress", "SMOO of an ai smooths a value"),
    ("dfanout", "write a closed_loop ao for each target"),
    ("genSub", DRIVER),
    ("histogram", NOTHING),
    ("lsi", "a stringin has 39 bytes"),
    ("lso", "a stringout has 39 bytes"),
    ("mbbiDirect", "write a raw bi with MASK for each bit"),
    ("mbboDirect", "a longout has the whole word"),
    ("motor", "a driver can move it (docs/DRIVERS.md)"),
    ("permissive", "a bo has a permission"),
    ("printf", "a closed_loop stringout has one value"),
    ("scalcout", "a calcout does for numbers"),
    ("scaler", "a driver can read it (docs/DRIVERS.md)"),
    ("seq", "a fanout to closed_loop outputs does, undelayed"),
    ("state", "a stringin has its text"),
    ("sub", DRIVER),
    ("subArray", NOTHING),
    ("swait", "a calcout does"),
    ("transform", "a calc for each output does"),
    ("waveform", NOTHING),
];

static LEFT_OUT_COMMON_FIELDS: [&str; 21] = [
    "ACKS", "ACKT", "AMSG", "ASP", "BKLNK", "BKPT", "DPVT", "DSET", "LSET", "MLIS", "MLOK",
    "NAMSG", "PPN", "PPNR", "RDES", "RSET", "RTYP", "SPVT", "TPRO", "TSEL", "UTAG",
];

static LEFT_OUT_SIMULATION_FIELDS: [&str; 9] = [
    "SIOL", "SIML", "SIMM", "SIMS", "OLDSIMM", "SSCN", "SDLY", "SIMPVT", "SVAL",
];

static LEFT_OUT_NUMERIC_INPUT_FIELDS: [&str; 4] = ["AFTC", "AFVL", "ALST", "MLST"];

static LEFT_OUT_NUMERIC_OUTPUT_FIELDS: [&str; 6] = [
    "ALST", "MLST", "OOPT", "OOCH", "PVAL", "OUTPVT",
];

static LEFT_OUT_BI_FIELDS: [&str; 2] = ["MLST", "ORAW"];

static LEFT_OUT_BO_FIELDS: [&str; 7] = ["HIGH", "MLST", "ORAW", "ORBV", "RBV", "RPVT", "WDPT"];

static LEFT_OUT_MBBI_FIELDS: [&str; 5] = ["AFTC", "AFVL", "MLST", "ORAW", "SDEF"];

static LEFT_OUT_MBBO_FIELDS: [&str; 5] = ["MLST", "ORAW", "ORBV", "RBV", "SDEF"];

static LEFT_OUT_STRING_FIELDS: [&str; 3] = ["APST", "MPST", "OVAL"];

static LEFT_OUT_EVENT_FIELDS: [&str; 1] = ["EPVT"];

static LEFT_OUT_AI_FIELDS: [&str; 5] = ["AFTC", "AFVL", "LBRK", "ORAW", "PBRK"];

static LEFT_OUT_AO_FIELDS: [&str; 8] = [
    "INIT", "LBRK", "OMOD", "ORAW", "ORBV", "OUTPVT", "PBRK", "RBV",
];

static LEFT_OUT_CALC_FIELDS: [&str; 30] = [
    "AFTC", "AFVL", "RPCL", "INPM", "INPN", "INPO", "INPP", "INPQ", "INPR", "INPS", "INPT", "INPU",
    "M", "N", "O", "P", "Q", "R", "S", "T", "U", "LM", "LN", "LO", "LP", "LQ", "LR", "LS", "LT",
    "LU",
];

static LEFT_OUT_CALCOUT_FIELDS: [&str; 60] = [
    "CLCV", "DLYA", "EPVT", "OCLV", "ODLY", "OEVT", "ORPC", "OUTPVT", "OUTV", "POVL", "RPCL",
    "RPVT", "INAV", "INBV", "INCV", "INDV", "INEV", "INFV", "INGV", "INHV", "INIV", "INJV", "INKV",
    "INLV", "INMV", "INNV", "INOV", "INPV", "INQV", "INRV", "INSV", "INTV", "INUV", "INPM", "INPN",
    "INPO", "INPP", "INPQ", "INPR", "INPS", "INPT", "INPU", "M", "N", "O", "P", "Q", "R", "S", "T",
    "U", "LM", "LN", "LO", "LP", "LQ", "LR", "LS", "LT", "LU",
];

static LEFT_OUT_SEL_FIELDS: [&str; 1] = ["NLST"];

/// The fields that are left out and that no text of EPICS sets either.
static SET_BY_EPICS: [&str; 36] = [
    "ACKS", "AFVL", "ALST", "AMSG", "ASP", "BKLNK", "DPVT", "DSET", "EPVT", "INIT", "LBRK", "LSET",
    "MLIS", "MLOK", "MLST", "NAMSG", "OLDSIMM", "OMOD", "ORAW", "ORBV", "OUTPVT", "OVAL", "PBRK",
    "PPN", "PPNR", "PVAL", "RBV", "RDES", "RPVT", "RSET", "RTYP", "SDEF", "SIMPVT", "SPVT", "UTAG",
    "WDPT",
];

/// What does here what a field does that is left out.
static INSTEAD_OF_FIELDS: [LeftOut; 6] = [
    ("BKPT", TRACE),
    ("HIGH", PULSE),
    ("SIML", SOURCE),
    ("SIMM", SOURCE),
    ("SIOL", SOURCE),
    ("TPRO", TRACE),
];

/// The names of device support that this project has.
static DEVICE_TYPES: [&str; 2] = ["Soft Channel", "Raw Soft Channel"];

static LEFT_OUT_DEVICE_TYPES: [LeftOut; 9] = [
    ("Async Raw Soft Channel", "Raw Soft Channel does"),
    ("Async Soft Channel", "Soft Channel does"),
    ("Db State", NOTHING),
    ("General Time", NOTHING),
    ("Sec Past Epoch", NOTHING),
    ("Soft Timestamp", "TIME has the moment"),
    ("TimeStamp", "TIME has the moment"),
    ("getenv", "a macro can give VAL"),
    ("stdio", NOTHING),
];

/// The words that this project takes behind the name in a link.
static LINK_WORDS: [&str; 6] = ["PP", "NPP", "NMS", "MS", "MSI", "MSS"];

static LEFT_OUT_LINK_WORDS: [LeftOut; 3] = [("CA", "drop it"), ("CP", FORWARD), ("CPP", FORWARD)];

static LEFT_OUT_CHOICES: [LeftOut; 4] = [
    ("PAUSE", NOTHING),
    ("PAUSED", NOTHING),
    ("RUN", "write YES"),
    ("RUNNING", "write YES"),
];

// Returns the type-specific fields of EPICS Base, other than those for simulation, that are left
// out.
fn left_out_own_fields(record_type: RecordType) -> &'static [&'static str] {
    match record_type {
        RecordType::Longin | RecordType::Int64in => &LEFT_OUT_NUMERIC_INPUT_FIELDS,
        RecordType::Longout | RecordType::Int64out => &LEFT_OUT_NUMERIC_OUTPUT_FIELDS,
        RecordType::Bi => &LEFT_OUT_BI_FIELDS,
        RecordType::Bo => &LEFT_OUT_BO_FIELDS,
        RecordType::Mbbi => &LEFT_OUT_MBBI_FIELDS,
        RecordType::Mbbo => &LEFT_OUT_MBBO_FIELDS,
        RecordType::Stringin | RecordType::Stringout => &LEFT_OUT_STRING_FIELDS,
        RecordType::Event => &LEFT_OUT_EVENT_FIELDS,
        RecordType::Ai => &LEFT_OUT_AI_FIELDS,
        RecordType::Ao => &LEFT_OUT_AO_FIELDS,
        RecordType::Calc => &LEFT_OUT_CALC_FIELDS,
        RecordType::Calcout => &LEFT_OUT_CALCOUT_FIELDS,
        RecordType::Sel => &LEFT_OUT_SEL_FIELDS,
        RecordType::Fanout => &[],
    }
}

// Returns whether the word is among these.
fn is_among(word: &[u8], names: &[&str]) -> bool {
    names.iter().any(|name| name.as_bytes() == word)
}

// Returns what stands beside the word among these names, if it is one of them.
fn instead_of(word: &[u8], names: &[LeftOut]) -> Option<&'static str> {
    for (name, instead) in names {
        if name.as_bytes() == word {
            return Some(*instead);
        }
    }
    None
}

/// Returns the names of the types of records that this project has.
pub fn types() -> &'static [&'static str] {
    &TYPES
}

/// Returns the names of device support that this project has.
pub fn device_types() -> &'static [&'static str] {
    &DEVICE_TYPES
}

/// Returns the words that this project takes behind the name in a link.
pub fn link_words() -> &'static [&'static str] {
    &LINK_WORDS
}

/// Returns what does here what record type `word` of EPICS does, if this project leaves that out: it is
/// empty if nothing does.
pub fn left_out_type(word: &[u8]) -> Option<&'static str> {
    instead_of(word, &LEFT_OUT_TYPES)
}

/// Returns what does here what field `name` of EPICS does in the type, if this project leaves that out.
pub fn left_out_field(record_type: RecordType, name: &[u8]) -> Option<&'static str> {
    let simulates = !matches!(
        record_type,
        RecordType::Fanout | RecordType::Calc | RecordType::Calcout | RecordType::Sel
    );
    let is_left_out = is_among(name, &LEFT_OUT_COMMON_FIELDS)
        || (simulates && is_among(name, &LEFT_OUT_SIMULATION_FIELDS))
        || is_among(name, left_out_own_fields(record_type));
    if !is_left_out {
        None
    } else if is_among(name, &SET_BY_EPICS) {
        Some(COMPUTED)
    } else {
        Some(instead_of(name, &INSTEAD_OF_FIELDS).unwrap_or(NOTHING))
    }
}

/// Returns what does here what DTYP `name` does, if it is of EPICS Base's own or of asyn's device support,
/// which this project leaves out.
pub fn left_out_device_type(name: &[u8]) -> Option<&'static str> {
    if name.starts_with(b"asyn") {
        return Some(ASYN);
    }
    instead_of(name, &LEFT_OUT_DEVICE_TYPES)
}

/// Returns what does here what `word` of EPICS Base does behind the name in a link, if this project leaves
/// it out.
pub fn left_out_link_word(word: &[u8]) -> Option<&'static str> {
    instead_of(word, &LEFT_OUT_LINK_WORDS)
}

/// Returns what does here what `choice` of EPICS Base does in the menu of PINI or of LINR, whose breakpoint
/// tables begin with `type`, if this project leaves it out.
pub fn left_out_choice(menu: Menu, choice: &[u8]) -> Option<&'static str> {
    match menu {
        Menu::Pini => instead_of(choice, &LEFT_OUT_CHOICES),
        Menu::Linr if choice.starts_with(b"type") => Some(NOTHING),
        _ => None,
    }
}
