//! The menus, and the texts of their choices.
ghost use Rattle.std.specs.Prelude.{◌≡◌, ◌≤◌, ◌<◌, map, length, position, IfSome};
ghost use Rattle.std.specs.Option.{option_copied};
ghost use Rattle.std.specs.Str.{bytes_eq};
ghost use Rattle.ioc_menus.specs.Texts.{texts_of, choice_of, text_of};

/// A menu of choices.
#[derive(Clone, Copy, PartialEq, Eq, Debug)]
pub enum Menu {
    Severity,
    Status,
    Scan,
    Priority,
    Pini,
    Omsl,
    Ivoa,
    Selm,
    Linr,
    Oif,
    Oopt,
    Dopt,
    /// SELM of a sel.
    Selmode,
}

static SEVERITY: [&str; 4] = ["NO_ALARM", "MINOR", "MAJOR", "INVALID"];

static STATUS: [&str; 22] = [
    "NO_ALARM",
    "READ",
    "WRITE",
    "HIHI",
    "HIGH",
    "LOLO",
    "LOW",
    "STATE",
    "COS",
    "COMM",
    "TIMEOUT",
    "HWLIMIT",
    "CALC",
    "SCAN",
    "LINK",
    "SOFT",
    "BAD_SUB",
    "UDF",
    "DISABLE",
    "SIMM",
    "READ_ACCESS",
    "WRITE_ACCESS",
];

static SCAN: [&str; 10] = [
    "Passive",
    "Event",
    "I/O Intr",
    "10 second",
    "5 second",
    "2 second",
    "1 second",
    ".5 second",
    ".2 second",
    ".1 second",
];

static PRIORITY: [&str; 3] = ["LOW", "MEDIUM", "HIGH"];

static PINI: [&str; 2] = ["NO", "YES"];

static OMSL: [&str; 2] = ["supervisory", "closed_loop"];

static IVOA: [&str; 3] = [
    "Continue normally",
    "Don't drive outputs",
    "Set output to IVOV",
];

static SELM: [&str; 3] = ["All", "Specified", "Mask"];

static LINR: [&str; 3] = ["NO CONVERSION", "SLOPE", "LINEAR"];

static OIF: [&str; 2] = ["Full", "Incremental"];

static OOPT: [&str; 6] = [
    "Every Time",
    "On Change",
    "When Zero",
    "When Non-zero",
    "Transition To Zero",
    "Transition To Non-zero",
];

static DOPT: [&str; 2] = ["Use CALC", "Use OCAL"];

static SELMODE: [&str; 4] = ["Specified", "High Signal", "Low Signal", "Median Signal"];

/// Returns the texts of the menu's choices, in the order of their numbers.
pub fn choices(menu: Menu) -> &'static [&'static str]
    ensures texts { map (λ t. t.now) result.now ≡ texts_of menu }
    ensures few { length result.now ≤ 22 }
{
    match menu {
        Menu::Severity => &SEVERITY,
        Menu::Status => &STATUS,
        Menu::Scan => &SCAN,
        Menu::Priority => &PRIORITY,
        Menu::Pini => &PINI,
        Menu::Omsl => &OMSL,
        Menu::Ivoa => &IVOA,
        Menu::Selm => &SELM,
        Menu::Linr => &LINR,
        Menu::Oif => &OIF,
        Menu::Oopt => &OOPT,
        Menu::Dopt => &DOPT,
        Menu::Selmode => &SELMODE,
    }
}

// Returns the position of the text among the texts.
fn position_of(texts: &[&str], text: &[u8]) -> Option<usize>
    ensures value { result ≡ position (λ t. bytes_eq t.now text.now) texts.now }
    ensures within { IfSome result (λ n. n < length texts.now) }
{
    texts.iter().position(|choice| choice.as_bytes() == text)
}

/// Returns the number of the choice with exactly this text.
pub fn choice(menu: Menu, text: &[u8]) -> Option<u16>
    ensures { result ≡ choice_of menu text.now }
{
    let number = position_of(choices(menu), text)?;
    Some(number as u16)
}

/// Returns the text of the choice with this number.
pub fn text(menu: Menu, number: u16) -> Option<&'static str>
    ensures { option_copied result ≡ text_of menu number }
{
    choices(menu).get(number as usize).copied()
}
