//! The published allocations, and who took which.
ghost use Rattle.std.specs.Prelude.{◌≡◌, ◌↔◌, ◌+◌, ◌<◌, ◌≤◌, ◌≢◌, ℕ, [], ◌∷◌, ◌++◌, Ok, Err, length, AllPairs, IfOk, OnOk, OnErr, nat_eq};
ghost use Rattle.handover.specs.Handover.{carried_over, nothing_published, last_of, holder_in, held_in, held_since, taken_by, with_taken};

use crate::error::HoldersError;
use crate::rows::{follow, held_at, holder_at, since_at, targets_of};
use crate::spans::Spans;
use crate::{CollectorId, TargetId};
use indexmap::IndexMap;
use lists::List;
use std::alloc::{AllocError, Global};
use std::marker::Model;

/// The last number of an allocation.
pub const LAST_NUMBER: u32 = 4_294_967_295;

/// All published allocations, and the last number that each collector took. Contracts see a `Handover`.
#[derive(Drop)]
pub struct Holders {
    alloc: Global,
    current: u32,
    pairs: List<(TargetId, CollectorId)>,
    rows: Vec<Spans>,
    taken: IndexMap<CollectorId, u32>,
}

impl Model for Holders {
    ghost use Rattle.handover.specs.Handover.{Handover};
    ghost use Rattle.handover.specs.Spans.{lists_of, IsKept};

    ghost Value = { Handover };

    ghost view = { λ h. record { published = lists_of h.rows.items h.current; taken = h.taken.entries } };

    ghost invariant = { λ h. IsKept h.current h.pairs h.rows.items };
}

impl Holders {
    /// Nothing is published, and nobody took anything. It takes no memory.
    pub fn open(alloc: Global) -> Holders
        ensures { result ≡ nothing_published }
    {
        Holders {
            alloc,
            current: 0,
            pairs: List::new(alloc),
            rows: Vec::new(alloc),
            taken: IndexMap::new(alloc),
        }
    }

    /// This allocation is the only one, number 1; none is where it is empty. Nobody took anything.
    pub fn carried_over(
        alloc: Global,
        pairs: List<(TargetId, CollectorId)>,
    ) -> Result<Holders, AllocError>
        requires ascending { AllPairs (λ (a b : ℕ × ℕ). a.0 < b.0) pairs }
        ensures { IfOk result (λ h. h ≡ carried_over pairs) }
    {
        let mut holders = Holders::open(alloc);
        if pairs.is_empty() {
            return Ok(holders);
        }
        match holders.publish(pairs) {
            Ok(_) => Ok(holders),
            Err(_) => Err(AllocError),
        }
    }

    /// Publishes an allocation under the next number, and gives that number.
    pub fn publish(&mut self, pairs: List<(TargetId, CollectorId)>) -> Result<u32, HoldersError>
        requires ascending { AllPairs (λ (a b : ℕ × ℕ). a.0 < b.0) pairs }
        ensures number { IfOk result (λ n. n ≡ length self.old.published + 1) }
        ensures published { OnOk result (self.new ≡ record self.old { published = self.old.published ++ pairs ∷ [] }) }
        ensures spent { (result ≡ Err HoldersError.NumbersSpent) ↔ (length self.old.published ≡ LAST_NUMBER) }
        ensures not_unknown { result ≢ Err HoldersError.UnknownNumber }
        ensures err { OnErr result (self.new ≡ self.old) }
    {
        if self.current >= LAST_NUMBER {
            return Err(HoldersError::NumbersSpent);
        }
        follow(
            self.alloc,
            &mut self.rows,
            self.pairs.as_slice(),
            self.current,
            pairs.as_slice(),
        )?;
        self.pairs = pairs;
        self.current += 1;
        Ok(self.current)
    }

    /// The number of the current allocation, 0 where none is published.
    pub fn current(&self) -> u32
        ensures { result ≡ length self.now.published }
    {
        self.current
    }

    /// The pairs of the current allocation, in order of target.
    pub fn current_pairs(&self) -> &[(TargetId, CollectorId)]
        ensures pairs { result.now ≡ last_of self.now.published }
        ensures ascending { AllPairs (λ (a b : ℕ × ℕ). a.0 < b.0) result.now }
    {
        self.pairs.as_slice()
    }

    /// Who held a target in the allocation of a number. `None` where nobody did, or no allocation has the number.
    pub fn holder(&self, number: u32, target: TargetId) -> Option<CollectorId>
        ensures { result ≡ holder_in self.now.published number target }
    {
        if self.current < number {
            return None;
        }
        holder_at(self.rows.as_slice(), number, target)
    }

    /// From which allocation on the holder of a target in the current one has held it without a break. `None` where nobody holds it.
    pub fn held_since(&self, target: TargetId) -> Option<u32>
        ensures { result ≡ held_since self.now.published target }
    {
        since_at(self.rows.as_slice(), self.current, target)
    }

    /// The targets that a collector held in the allocation of a number, in order of target.
    pub fn held(&self, number: u32, collector: CollectorId) -> Result<List<TargetId>, HoldersError>
        ensures held { IfOk result (λ l. l ≡ held_in self.now.published number collector) }
        ensures unknown { (result ≡ Err HoldersError.UnknownNumber) ↔ (length self.now.published < number) }
        ensures not_spent { result ≢ Err HoldersError.NumbersSpent }
    {
        if self.current() < number {
            return Err(HoldersError::UnknownNumber);
        }
        let held = self.targets(number, collector)?;
        Ok(List::from_vec(held))
    }

    /// The targets that a collector held in the allocation of a number that is given.
    fn targets(&self, number: u32, collector: CollectorId) -> Result<Vec<TargetId>, AllocError>
        requires { number ≤ length self.now.published }
        ensures { IfOk result (λ v. v.items ≡ held_in self.now.published number collector) }
    {
        if number == self.current {
            targets_of(self.alloc, self.pairs.as_slice(), collector)
        } else {
            held_at(self.alloc, self.rows.as_slice(), number, collector)
        }
    }

    /// The number of the allocation that a collector took last, 0 where it took none.
    pub fn taken(&self, collector: CollectorId) -> u32
        ensures { result ≡ taken_by self.now.taken collector }
    {
        match self.taken.get(&collector) {
            Some(number) => *number,
            None => 0,
        }
    }

    /// A collector takes the allocation of a number.
    pub fn take(&mut self, collector: CollectorId, number: u32) -> Result<(), HoldersError>
        ensures taken { OnOk result (self.new ≡ record self.old { taken = with_taken self.old.taken collector number }) }
        ensures unknown { (result ≡ Err HoldersError.UnknownNumber) ↔ (length self.old.published < number) }
        ensures not_spent { result ≢ Err HoldersError.NumbersSpent }
        ensures err { OnErr result (self.new ≡ self.old) }
    {
        if number > self.current() {
            return Err(HoldersError::UnknownNumber);
        }
        self.taken
            .insert(collector, number)
            .map_err(AllocError::from)?;
        Ok(())
    }
}
