//! What a reallocation by a desk comes to.
ghost use Rattle.std.specs.Prelude.{◌≡◌, IsTrue};
ghost use Rattle.allocation_core.specs.Answers.{is_install_answer};
ghost use Rattle.alloc_desk.specs.Attempts.{attempted_by};

use allocation_core::{Answer, Refusal};
use fleet_events::AllocationNumber;
use price_certificate::{Fault, Instance, Plan};

/// How a reallocation ended.
#[derive(Clone, Copy, PartialEq, Eq)]
pub enum Reallocated {
    /// The plan is the allocation of this number.
    Published(AllocationNumber),
    /// The current allocation, which has this number, has the plan's pairs.
    Unchanged(AllocationNumber),
}

/// Why a reallocation did not end so.
#[derive(Drop)]
pub enum ReallocateError {
    /// The journal has its most entries.
    JournalFull,
    /// No memory was left.
    Memory,
    /// The last number of an allocation is given.
    NumbersSpent,
    /// Each plan was refused, because other events came between its search and its Install. None where nothing was tried.
    Overtaken(Option<Lost>),
}

/// The last plan that was overtaken, the instance that it was found for, and why it was refused.
#[derive(Drop)]
pub struct Lost {
    pub fault: Fault,
    pub instance: Instance,
    pub plan: Plan,
}

/// What one attempt came to.
#[derive(Drop)]
pub(crate) enum Attempt {
    Published(AllocationNumber),
    Unchanged(AllocationNumber),
    NumbersSpent,
    Lost(Lost),
}

/// What the answer to its Install says of an attempt with this plan for this instance.
pub(crate) fn attempted(answer: &Answer, instance: Instance, plan: Plan) -> Attempt
    requires { IsTrue (is_install_answer answer.now) }
    ensures { result ≡ attempted_by answer.now instance plan }
{
    match answer {
        Answer::Published(number) => {
            drop((instance, plan));
            Attempt::Published(*number)
        }
        Answer::Not(Refusal::Unchanged(number)) => {
            drop((instance, plan));
            Attempt::Unchanged(*number)
        }
        Answer::Not(Refusal::Refused(fault)) => Attempt::Lost(Lost {
            fault: *fault,
            instance,
            plan,
        }),
        _ => {
            drop((instance, plan));
            Attempt::NumbersSpent
        }
    }
}
