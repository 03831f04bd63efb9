//! Whether two replies are the same.
ghost use Rattle.std.specs.Prelude.{◌≡◌};
ghost use Rattle.std.specs.Bool.{Decides};

use ioc_events::Reply;
use ioc_ledger::Outcome;
use ioc_record::FieldText;
use ioc_values::IocError;

// Errors with the same words are the same.
fn are_same_errors(one: IocError, other: IocError) -> bool
    ensures { Decides result (one ≡ other) }
{
    one.words().as_bytes() == other.words().as_bytes()
}

fn are_same_outcomes(one: Outcome, other: Outcome) -> bool
    ensures { Decides result (one ≡ other) }
{
    match one {
        Outcome::Processed => matches!(other, Outcome::Processed),
        Outcome::Disabled => matches!(other, Outcome::Disabled),
        Outcome::Active => matches!(other, Outcome::Active),
        Outcome::Reprocess => matches!(other, Outcome::Reprocess),
    }
}

/// Returns whether two replies of an event are the same.
pub fn are_same_replies(one: &Reply, other: &Reply) -> bool
    ensures { Decides result (one.now ≡ other.now) }
{
    match one {
        Reply::Plain => matches!(other, Reply::Plain),
        Reply::Outcome(outcome) => match other {
            Reply::Outcome(another) => are_same_outcomes(*outcome, *another),
            _ => false,
        },
        Reply::Notify(number) => match other {
            Reply::Notify(another) => number.number() == another.number(),
            _ => false,
        },
        Reply::Refused(error) => match other {
            Reply::Refused(another) => are_same_errors(*error, *another),
            _ => false,
        },
    }
}

/// Returns whether two replies of a get are the same.
pub fn are_same_texts(
    one: &Result<FieldText, IocError>,
    other: &Result<FieldText, IocError>,
) -> bool
    ensures { Decides result (one.now ≡ other.now) }
{
    match one {
        Ok(text) => match other {
            Ok(another) => text.as_slice() == another.as_slice(),
            Err(_) => false,
        },
        Err(error) => match other {
            Ok(_) => false,
            Err(another) => are_same_errors(*error, *another),
        },
    }
}

/// Returns whether two replies of a link change are the same.
pub fn are_same_changes(one: &Result<(), IocError>, other: &Result<(), IocError>) -> bool
    ensures { Decides result (one.now ≡ other.now) }
{
    match one {
        Ok(()) => other.is_ok(),
        Err(error) => match other {
            Ok(()) => false,
            Err(another) => are_same_errors(*error, *another),
        },
    }
}
