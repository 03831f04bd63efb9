//! Which of the four queues.
ghost use Rattle.std.specs.Prelude.{◌≡◌};
ghost use Rattle.ioc_shared_queues.specs.Ranks.{rank_of};

use ioc_menus::Priority;

/// A queue, in the order in which they are served: one for each priority, and the once queue.
#[derive(Clone, Copy, PartialEq, Eq, Debug)]
pub enum Rank {
    High,
    Medium,
    Low,
    Once,
}

impl Rank {
    /// Returns the callback queue of a priority.
    pub fn of(priority: Priority) -> Rank
        ensures { result ≡ rank_of priority }
    {
        match priority {
            Priority::High => Rank::High,
            Priority::Medium => Rank::Medium,
            Priority::Low => Rank::Low,
        }
    }
}
