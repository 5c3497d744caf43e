//! The lists of all jobs, which are to be of one allocation and one round.
ghost use Rattle.std.specs.Prelude.{◌≡◌, IfOk, None, Some, if◌then◌else◌};
ghost use Rattle.agent_exchanges.specs.Gathering.{is_one};

use agent_core::{Head, Listed, Lists};
use agent_documents::all_targets;
use std::alloc::{AllocError, Global};
use std::marker::Model;

/// The lists that were heard so far, which are all of one head. Contracts see the head, where there is one.
#[derive(Drop)]
pub struct Gathering {
    alloc: Global,
    head: Option<Head>,
    /// The time up to which the round is open for certain by each of them.
    until: u64,
    targets: Vec<Listed>,
}

impl Model for Gathering {
    ghost use Rattle.std.specs.Prelude.{Option};
    ghost use Rattle.agent_core.specs.declared.report.Head.{Head};

    ghost Value = { Option Head };

    ghost view = { λ g. g.head };
}

impl Gathering {
    /// None yet.
    pub fn new(alloc: Global) -> Gathering
        ensures { result ≡ None }
    {
        Gathering {
            alloc,
            head: None,
            until: u64::MAX,
            targets: Vec::new(alloc),
        }
    }

    /// Adds a list, where it is of the head of those before, and tells whether it is.
    pub fn add(&mut self, head: Head, until: u64, targets: Vec<Listed>) -> Result<bool, AllocError>
        ensures one { IfOk result (λ b. b ≡ is_one self.old head) }
        ensures head { IfOk result (λ b. self.new ≡ (if b then Some head else self.old)) }
    {
        if !is_one(self.head, head) {
            return Ok(false);
        }
        let mut targets = targets;
        self.targets.append(&mut targets)?;
        self.head = Some(head);
        self.until = self.until.min(until);
        Ok(true)
    }

    /// The lists, where there is one.
    pub fn lists(self) -> Result<Option<Lists>, AllocError> {
        let Gathering {
            head,
            until,
            targets,
            alloc,
        } = self;
        match head {
            Some(head) => Ok(Some(Lists {
                head,
                until,
                targets: all_targets(alloc, targets)?,
            })),
            None => Ok(None),
        }
    }
}

/// Whether a list of a head may follow those before.
fn is_one(before: Option<Head>, head: Head) -> bool
    ensures { result ≡ is_one before head }
{
    match before {
        Some(before) => {
            before.collector == head.collector
                && before.epoch == head.epoch
                && before.number == head.number
                && before.round == head.round
        }
        None => true,
    }
}
