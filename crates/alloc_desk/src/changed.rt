//! Whether anything changed since the allocation was known to be a best one.
ghost use Rattle.std.specs.Prelude.{◌≡◌};
ghost use Rattle.alloc_desk.specs.Changed.{changed_by};

use allocation_core::{Answer, Refusal};

/// Whether anything is changed after this answer. An allocation that is published, or found again, is a best one of its moment, or the
/// best within its caps.
pub(crate) fn changed_by(changed: bool, answer: &Answer) -> bool
    ensures { result ≡ changed_by changed answer.now }
{
    match answer {
        Answer::Published(_) | Answer::Not(Refusal::Unchanged(_)) => false,
        Answer::Discovered { added, removed } => changed || *added > 0 || *removed > 0,
        Answer::Joined(_) | Answer::Left | Answer::Draining | Answer::LimitsSet => true,
        _ => changed,
    }
}
