//! What a command answers to an input.
ghost use Rattle.std.specs.Prelude.{◌≡◌, [], IfOk, IfErr, MatchResult};
ghost use Rattle.offline_commands.specs.Answer.{IsFront};

use crate::ending::Status;
use crate::unreadable::Unreadable;
use lists::List;
use std::alloc::{AllocError, Global};

/// What is written on an input.
#[derive(Drop)]
pub enum Answer {
    NotRead(Unreadable),
    Text { text: List<u8>, status: Status },
}

/// No memory was left for a whole answer.
#[derive(Drop)]
pub struct Unfinished {
    /// The front of the answer that was there.
    pub front: List<u8>,
}

/// An answer, of which nothing is there where memory ends.
pub fn whole_or_nothing(
    alloc: Global,
    answer: Result<Answer, AllocError>,
) -> Result<Answer, Unfinished>
    ensures { MatchResult result (λ a. answer ≡ Ok a) (λ u. u.front ≡ []) }
{
    match answer {
        Ok(answer) => Ok(answer),
        Err(_) => Err(Unfinished {
            front: List::new(alloc),
        }),
    }
}
