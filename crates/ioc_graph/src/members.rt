//! The nodes of a part, one after another.
ghost use Rattle.std.specs.Prelude.{IfOk};
ghost use Rattle.ioc_graph.specs.Members.{AreFirsts, AreFollowers};

use std::alloc::{AllocError, Global};

/// Returns for each node the next one in its part, by the numbers that [`crate::parts_of_all`]
/// returns. For the last node of a part it is the number of nodes. The time is linear in the number
/// of nodes.
///
/// # Errors
///
/// [`AllocError`] if allocation fails. The returned list is the only allocation.
pub fn followers(alloc: Global, numbers: &[usize]) -> Result<Vec<usize>, AllocError>
    requires { AreFirsts numbers.now }
    ensures { IfOk result (λ next. AreFollowers numbers.now next.items) }
{
    let count = numbers.len();
    let mut next = vec![in alloc; count; count]?;
    let mut place = count;
    while place > 0 {
        place -= 1;
        let first = numbers[place];
        if first != place {
            next[place] = next[first];
            next[first] = place;
        }
    }
    Ok(next)
}
