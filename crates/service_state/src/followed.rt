//! Lists without targets that are let go once they are followed.
use fleet_events::{AllocationNumber, CollectorId, TargetId};
use lists::{all_same, copies};
use std::alloc::{AllocError, Global};

/// For how many lists it is waited at most. The one that waits for longest is to be acknowledged anew for a further one.
pub(crate) const MOST_WAITING: usize = 4_096;

/// How many lists of a collector and a job may be acknowledged at most. The first one is not any more where there is a further one.
pub(crate) const MOST_GIVEN: usize = 8;

/// A list of a collector: the allocation that it is of, in which epoch, and the place of its job.
#[derive(Clone, Copy, PartialEq, Eq)]
pub struct FollowedList {
    pub epoch: u64,
    pub allocation: AllocationNumber,
    pub collector: CollectorId,
    pub place: usize,
}

/// The lists that are waited for.
#[derive(Drop)]
pub(crate) struct Followed {
    alloc: Global,
    waiting: Vec<Waiting>,
}

/// The lists of a collector and a job that may be acknowledged.
#[derive(Drop)]
struct Waiting {
    collector: CollectorId,
    place: usize,
    epoch: u64,
    given: Vec<Given>,
    /// The last of which the collector told that it follows it, by its number.
    followed: Option<AllocationNumber>,
}

/// Lists that are of the allocation of this number, or of later ones up to the next such lists, and have none of these targets.
#[derive(Drop)]
struct Given {
    allocation: AllocationNumber,
    without: Vec<TargetId>,
}

impl Followed {
    /// None is waited for.
    pub(crate) fn new(alloc: Global) -> Followed {
        Followed {
            alloc,
            waiting: Vec::new(alloc),
        }
    }

    /// Whether a list without these targets is followed, which are in order of number. Where none is, this one is given without them.
    pub(crate) fn is_without(
        &mut self,
        list: FollowedList,
        targets: &[TargetId],
    ) -> Result<bool, AllocError> {
        let alloc = self.alloc;
        for waiting in &mut self.waiting {
            if waiting.is_of(list) {
                return waiting.is_without(alloc, list.allocation, targets);
            }
        }
        self.add(list, targets)?;
        Ok(false)
    }

    fn add(&mut self, list: FollowedList, targets: &[TargetId]) -> Result<(), AllocError> {
        let mut waiting = Waiting::new(self.alloc, list);
        if let Err(refused) = waiting.give(self.alloc, list.allocation, targets) {
            drop(waiting);
            return Err(refused);
        }
        if self.waiting.len() >= MOST_WAITING {
            drop(self.waiting.remove(0));
        }
        self.waiting.push(waiting)?;
        Ok(())
    }

    /// This one is followed.
    pub(crate) fn note(&mut self, list: FollowedList) {
        for waiting in &mut self.waiting {
            if waiting.is_of(list) {
                waiting.note(list.allocation);
            }
        }
    }

    /// No list of its collector and job is waited for any more.
    pub(crate) fn forget(&mut self, list: FollowedList) {
        self.waiting.retain(|waiting| waiting.collector != list.collector
            || waiting.place != list.place);
    }
}

impl Waiting {
    fn new(alloc: Global, list: FollowedList) -> Waiting {
        Waiting {
            collector: list.collector,
            place: list.place,
            epoch: list.epoch,
            given: Vec::new(alloc),
            followed: None,
        }
    }

    fn is_of(&self, list: FollowedList) -> bool {
        self.collector == list.collector && self.place == list.place && self.epoch == list.epoch
    }

    fn is_without(
        &mut self,
        alloc: Global,
        allocation: AllocationNumber,
        targets: &[TargetId],
    ) -> Result<bool, AllocError> {
        if self.follows_without(targets) {
            return Ok(true);
        }
        self.give(alloc, allocation, targets)?;
        Ok(false)
    }

    /// Whether the list that is followed has none of these targets.
    fn follows_without(&self, targets: &[TargetId]) -> bool {
        match self.given_up_to(self.followed) {
            Some(given) => targets
                .iter()
                .all(|target| given.without.binary_search(target).is_ok()),
            None => false,
        }
    }

    /// The last of them up to an allocation, where there is one.
    fn given_up_to(&self, allocation: Option<AllocationNumber>) -> Option<&Given> {
        let allocation = allocation?;
        let mut found = None;
        for given in self.given.as_slice() {
            if given.allocation <= allocation {
                found = Some(given);
            }
        }
        found
    }

    /// A list of this allocation is given without these targets.
    fn give(
        &mut self,
        alloc: Global,
        allocation: AllocationNumber,
        targets: &[TargetId],
    ) -> Result<(), AllocError> {
        if let Some(last) = self.given.last() {
            if all_same(last.without.as_slice(), targets) {
                return Ok(());
            }
        }
        let without = copies(alloc, targets)?;
        if self.given.len() >= MOST_GIVEN {
            self.given.remove(0);
        }
        self.given.push(Given {
            allocation,
            without,
        })?;
        Ok(())
    }

    /// A list of this allocation is followed, and none that is older from then on.
    fn note(&mut self, allocation: AllocationNumber) {
        self.followed = match self.followed {
            Some(last) => Some(last.max(allocation)),
            None => Some(allocation),
        };
    }
}
