//! Patterns of record names.
ghost use Rattle.std.specs.Prelude.{◌≡◌, []};
ghost use Rattle.ioc_listing.specs.Patterns.{front_of, front_seen, matches, some_end};

// How a name begins, beside a pattern up to its first `*`.
#[derive(Clone, Copy)]
enum Front<'p, 'n> {
    // The pattern has no `*`, and stands for the name.
    Whole,
    // The name doesn't begin so; or the pattern has no `*`, and the name goes on.
    No,
    // The pattern behind the first `*`, and the name behind what is before it.
    Star(&'p [u8], &'n [u8]),
}

// Compares a name with a pattern up to its first `*`.
fn compare<'p, 'n>(pattern: &'p [u8], name: &'n [u8]) -> Front<'p, 'n>
    ensures { front_seen result ≡ front_of pattern.now name.now }
{
    let mut wanted = pattern;
    let mut rest = name;
    while let [first, behind @ ..] = wanted {
        if *first == b'*' {
            return Front::Star(behind, rest);
        }
        let [byte, after @ ..] = rest else {
            return Front::No;
        };
        if *first != b'?' && *first != *byte {
            return Front::No;
        }
        wanted = behind;
        rest = after;
    }
    match rest {
        [] => Front::Whole,
        [_, ..] => Front::No,
    }
}

// Returns whether a pattern has no byte but `*`.
fn stars_alone(pattern: &[u8]) -> bool
    ensures { result ≡ matches pattern.now [] }
{
    let mut rest = pattern;
    while let [first, behind @ ..] = rest {
        if *first != b'*' {
            return false;
        }
        rest = behind;
    }
    true
}

// Returns whether a pattern stands for some end of a name. The first end that fits up to a `*` leaves
// the most behind it.
#[tactic(auto, using(crate::proofs::Fronts::whole_end, crate::proofs::Fronts::no_end, crate::proofs::Fronts::star_end, crate::proofs::Fronts::star_shorter))]
fn end_fits(pattern: &[u8], name: &[u8]) -> bool
    ensures { result ≡ some_end (matches pattern.now) name.now }
{
    let mut wanted = pattern;
    let mut rest = name;
    while !rest.is_empty() {
        match compare(wanted, rest) {
            Front::Whole => return true,
            Front::No => rest = rest.split_at(1).1,
            Front::Star(behind, left) => {
                wanted = behind;
                rest = left;
            }
        }
    }
    stars_alone(wanted)
}

/// Returns whether a pattern stands for a name: `*` stands for any bytes, also none, `?` for one
/// byte, and each other byte for itself.
#[tactic(auto, using(crate::proofs::Fronts::whole_fits, crate::proofs::Fronts::no_fits, crate::proofs::Fronts::star_fits))]
pub fn matches(pattern: &[u8], name: &[u8]) -> bool
    ensures { result ≡ matches pattern.now name.now }
{
    match compare(pattern, name) {
        Front::Whole => true,
        Front::No => false,
        Front::Star(behind, rest) => end_fits(behind, rest),
    }
}
