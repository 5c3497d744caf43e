//! Reports that are booked or refused.
ghost use Rattle.std.specs.Prelude.{◌≡◌};
ghost use Rattle.collector_pool.specs.Visits.{IsTally};

use allocation_core::Answer;

/// How many reports were booked and how many refused.
#[derive(Clone, Copy)]
pub(crate) struct Tally {
    pub(crate) booked: u32,
    pub(crate) refused: u32,
}

/// The tally of one report's answer.
pub(crate) fn tally_of(answer: &Answer) -> Tally
    ensures { IsTally answer.now result }
{
    match answer {
        Answer::Booked => Tally {
            booked: 1,
            refused: 0,
        },
        _ => Tally {
            booked: 0,
            refused: 1,
        },
    }
}
