//! What the allocator answers, and the text of an answer.
ghost use Rattle.std.specs.Prelude.{◌≡◌, IfOk, string_bytes};
ghost use Rattle.fleet_events.specs.Lines.{answer_line};

use crate::ids::{AllocationNumber, CollectorId, Round, TargetId};
use crate::number_lists::push_numbers;
use crate::refusal::Refusal;
use lists::{List, Plain};
use std::alloc::{AllocError, Global};

/// What the allocator answers.
#[derive(Debug, Drop)]
pub enum Answer {
    /// How many targets became live, and how many are live no longer.
    Discovered {
        added: u32,
        removed: u32,
    },
    /// The collector's number.
    Joined(CollectorId),
    Left,
    /// The collector is draining now.
    Draining,
    /// The collector's own limits are replaced.
    LimitsSet,
    /// The allocation's number.
    Published(AllocationNumber),
    /// The round that is open now.
    RoundOpen(Round),
    /// The number of the current allocation, the open round, and the targets that the collector holds in that allocation
    /// in order of number, also those that are live no longer.
    Taken {
        allocation: AllocationNumber,
        round: Round,
        held: List<TargetId>,
    },
    /// The number of the current allocation, the open round, the targets that the list has in order of number, and those that it leaves
    /// out since another collector's list still has them.
    Served {
        allocation: AllocationNumber,
        round: Round,
        listed: List<TargetId>,
        left_out: List<TargetId>,
    },
    /// How many targets the lists had.
    Released(u32),
    /// The report is booked.
    Booked,
    /// Nothing changed.
    Not(Refusal),
}

impl Answer {
    /// The answer's name, and then its values after one space each.
    pub fn line(&self, alloc: Global) -> Result<String, AllocError>
        ensures { IfOk result (λ s. string_bytes s ≡ answer_line self.now) }
    {
        match self {
            Answer::Discovered { added, removed } => {
                format!(in alloc; "Discovered {added} {removed}")
            }
            Answer::Joined(collector) => format!(in alloc; "Joined {collector}"),
            Answer::Left => String::from_str(alloc, "Left"),
            Answer::Draining => String::from_str(alloc, "Draining"),
            Answer::LimitsSet => String::from_str(alloc, "LimitsSet"),
            Answer::Published(number) => format!(in alloc; "Published {number}"),
            Answer::RoundOpen(round) => format!(in alloc; "RoundOpen {round}"),
            Answer::Taken {
                allocation,
                round,
                held,
            } => taken_line(alloc, *allocation, *round, held.as_slice()),
            Answer::Served {
                allocation,
                round,
                listed,
                left_out,
            } => served_line(
                alloc,
                *allocation,
                *round,
                listed.as_slice(),
                left_out.as_slice(),
            ),
            Answer::Released(count) => format!(in alloc; "Released {count}"),
            Answer::Booked => String::from_str(alloc, "Booked"),
            Answer::Not(refusal) => refusal.line(alloc),
        }
    }
}

/// The line of what a collector took.
fn taken_line(
    alloc: Global,
    allocation: AllocationNumber,
    round: Round,
    held: &[TargetId],
) -> Result<String, AllocError>
    ensures { IfOk result (λ s. string_bytes s ≡ answer_line (Answer.Taken allocation round held.now)) }
{
    let mut line = format!(in alloc; "Taken {allocation} {round} ")?;
    push_numbers(&mut line, held)?;
    Ok(line)
}

/// The line of what a collector was served.
fn served_line(
    alloc: Global,
    allocation: AllocationNumber,
    round: Round,
    listed: &[TargetId],
    left_out: &[TargetId],
) -> Result<String, AllocError>
    ensures { IfOk result (λ s. string_bytes s ≡ answer_line (Answer.Served allocation round listed.now left_out.now)) }
{
    let mut line = format!(in alloc; "Served {allocation} {round} ")?;
    push_numbers(&mut line, listed)?;
    line.push_str(" ")?;
    push_numbers(&mut line, left_out)?;
    Ok(line)
}

impl Plain for Answer {
    fn copy(&self) -> Result<Answer, AllocError> {
        match self {
            Answer::Discovered { added, removed } => Ok(Answer::Discovered {
                added: *added,
                removed: *removed,
            }),
            Answer::Joined(collector) => Ok(Answer::Joined(*collector)),
            Answer::Left => Ok(Answer::Left),
            Answer::Draining => Ok(Answer::Draining),
            Answer::LimitsSet => Ok(Answer::LimitsSet),
            Answer::Published(number) => Ok(Answer::Published(*number)),
            Answer::RoundOpen(round) => Ok(Answer::RoundOpen(*round)),
            Answer::Taken {
                allocation,
                round,
                held,
            } => {
                let held = held.copy()?;
                Ok(Answer::Taken {
                    allocation: *allocation,
                    round: *round,
                    held,
                })
            }
            Answer::Served {
                allocation,
                round,
                listed,
                left_out,
            } => {
                let listed = listed.copy()?;
                let left_out = left_out.copy()?;
                Ok(Answer::Served {
                    allocation: *allocation,
                    round: *round,
                    listed,
                    left_out,
                })
            }
            Answer::Released(count) => Ok(Answer::Released(*count)),
            Answer::Booked => Ok(Answer::Booked),
            Answer::Not(refusal) => Ok(Answer::Not(*refusal)),
        }
    }

    fn same(&self, other: &Answer) -> bool {
        match (self, other) {
            (
                Answer::Discovered { added, removed },
                Answer::Discovered {
                    added: other_added,
                    removed: other_removed,
                },
            ) => *added == *other_added && *removed == *other_removed,
            (Answer::Joined(collector), Answer::Joined(other_collector)) => {
                *collector == *other_collector
            }
            (Answer::Left, Answer::Left) => true,
            (Answer::Draining, Answer::Draining) => true,
            (Answer::LimitsSet, Answer::LimitsSet) => true,
            (Answer::Published(number), Answer::Published(other_number)) => {
                *number == *other_number
            }
            (Answer::RoundOpen(round), Answer::RoundOpen(other_round)) => *round == *other_round,
            (
                Answer::Taken {
                    allocation,
                    round,
                    held,
                },
                Answer::Taken {
                    allocation: other_allocation,
                    round: other_round,
                    held: other_held,
                },
            ) => {
                *allocation == *other_allocation && *round == *other_round && held.same(other_held)
            }
            (
                Answer::Served {
                    allocation,
                    round,
                    listed,
                    left_out,
                },
                Answer::Served {
                    allocation: other_allocation,
                    round: other_round,
                    listed: other_listed,
                    left_out: other_left_out,
                },
            ) => {
                *allocation == *other_allocation
                    && *round == *other_round
                    && listed.same(other_listed)
                    && left_out.same(other_left_out)
            }
            (Answer::Released(count), Answer::Released(other_count)) => *count == *other_count,
            (Answer::Booked, Answer::Booked) => true,
            (Answer::Not(refusal), Answer::Not(other_refusal)) => refusal.same(other_refusal),
            _ => false,
        }
    }
}
