//! Open frames: the records whose bodies wait until a request that they made is done.
ghost use Rattle.std.specs.Prelude.{◌≡◌};
ghost use Rattle.ioc_store.specs.Places.{requested_at};

use ioc_dbcommon::StandingLink;
use ioc_fields::FieldSlot;
use ioc_ledger::Outcome;
use ioc_names::RecordNo;

/// The point at which the body of a record resumes once the request that it made is done. There is
/// one case for each way in which a body waits, with the requested record.
#[derive(Clone, Copy, PartialEq, Eq, Debug)]
pub enum ResumePoint {
    /// The request of the record reads SDIS through this link.
    ReadingDisable(StandingLink),
    /// The body reads this link.
    Reading(StandingLink),
    /// The body reads the number that chooses its inputs through this link.
    Choosing(StandingLink),
    /// The body reads its inputs INPA to INPL.
    ReadingEach(InputsLeft, StandingLink),
    /// The body has written the record that its output link names.
    Writing(RecordNo),
    /// The body follows its links LNK0 to LNKF whose bits are set: this record now, then the links
    /// from this number on.
    FollowingEach(u16, RecordNo, usize),
    /// The body has followed its forward link.
    Following(RecordNo),
}

/// The inputs that a body has still to read, while it reads one of them.
#[derive(Clone, Copy, PartialEq, Eq, Debug)]
pub struct InputsLeft {
    /// The inputs that it reads, as the bits of their numbers.
    pub inputs: u16,
    /// The input that it reads now. Those with greater numbers follow.
    pub slot: FieldSlot,
    /// Whether an input before this one returned a fault.
    pub has_fault: bool,
}

impl ResumePoint {
    /// Returns the requested record.
    #[inline(always)]
    pub fn requested(&self) -> RecordNo
        ensures { result ≡ requested_at self.now }
    {
        match self {
            ResumePoint::ReadingDisable(target)
            | ResumePoint::Reading(target)
            | ResumePoint::Choosing(target)
            | ResumePoint::ReadingEach(_, target) => target.number,
            ResumePoint::Writing(target)
            | ResumePoint::FollowingEach(_, target, _)
            | ResumePoint::Following(target) => *target,
        }
    }
}

/// A record whose body waits until the request that it made is done.
#[derive(Clone, Copy, PartialEq, Eq, Debug)]
pub struct Frame {
    pub source: RecordNo,
    pub place: ResumePoint,
}

/// What to do next after a record has begun or resumed.
#[derive(Clone, Copy, PartialEq, Eq, Debug)]
pub enum Next {
    /// Request the record that the newest frame waits for.
    Requests,
    /// The request is done, with this outcome.
    Ends(Outcome),
}
