//! Assignments that shift.
ghost use Rattle.std.specs.Prelude.{◌≡◌, ◌==◌, ◌+◌, ◌<◌, ◌≤◌, ℕ, Contains, IsTrue, IfOk, false, length, slice_index};
ghost use Rattle.price_certificate.specs.Problem.{bins_of, drains};
ghost use Rattle.price_certificate.specs.Assignment.{IsFeasible, kept, uses_of_bin};
ghost use Rattle.price_certificate.specs.declared.shape.TheConstants.{MOST_ITEMS};
ghost use Rattle.spread_certificate.specs.Within.{AreCaps, IsWithin};
ghost use Rattle.spread_engine.specs.Witness.{IsMoved, IsShifted, MayShift, one_if};

use price_certificate::{Instance, count_bins};
use std::alloc::{AllocError, Global};
use std::marker::Model;

/// An assignment that can shift. Contracts see its pairs, and how many bins there are.
#[derive(Drop)]
pub struct Witness {
    pairs: Vec<(u32, u32)>,
    uses: Vec<usize>,
}

impl Model for Witness {
    ghost use Rattle.std.specs.Prelude.{length};
    ghost use Rattle.spread_engine.specs.Witness.{Held};
    ghost use Rattle.price_certificate.specs.Faults.{IsCounted};

    ghost Value = { Held };

    ghost view = { λ w. record { pairs = w.pairs.items; bins = length w.uses.items } };

    ghost invariant = { λ w. IsCounted (length w.uses.items) w.pairs.items w.uses.items };
}

/// Whether the bin is in the row.
fn has_bin(row: &[u32], bin: u32) -> bool
    ensures { IsTrue result → Contains row.now bin }
{
    row.iter().any(|b| *b == bin)
}

/// Whether two bins both drain, or neither.
fn are_alike(instance: &Instance, one: usize, other: usize) -> bool
    ensures { IsTrue result → drains instance.now one ≡ drains instance.now other }
{
    if instance.drains(one) {
        instance.drains(other)
    } else {
        !instance.drains(other)
    }
}

/// One item fewer in one bin, and one more in the other.
fn recount(uses: &mut Vec<usize>, from: usize, bin: usize)
    requires from { from < length uses.old.items }
    requires bin { bin < length uses.old.items }
    requires some { 0 < slice_index uses.old.items from }
    requires fits { slice_index uses.old.items bin ≤ MOST_ITEMS }
    ensures length { length uses.new.items ≡ length uses.old.items }
    ensures uses { (b : ℕ) → slice_index uses.new.items b + one_if (from == b) ≡ slice_index uses.old.items b + one_if (bin == b) }
{
    uses[from] -= 1;
    uses[bin] += 1;
}

impl Witness {
    /// A feasible assignment.
    pub fn new(
        alloc: Global,
        instance: &Instance,
        pairs: &[(u32, u32)],
    ) -> Result<Witness, AllocError>
        requires { IsFeasible instance.now pairs.now }
        ensures pairs { IfOk result (λ w. w.pairs ≡ pairs.now) }
        ensures bins { IfOk result (λ w. w.bins ≡ bins_of instance.now) }
    {
        instance.is_problem();
        let uses = count_bins(alloc, instance.bins(), pairs)?;
        let pairs = Vec::from_slice(alloc, pairs)?;
        Ok(Witness { pairs, uses })
    }

    /// The pairs of an item and a bin.
    pub fn pairs(&self) -> &[(u32, u32)]
        ensures { result.now ≡ self.now.pairs }
    {
        self.pairs.as_slice()
    }

    /// How many items a bin has; 0 past the last bin.
    fn count(&self, bin: usize) -> usize
        ensures { bin < self.now.bins → result ≡ uses_of_bin self.now.pairs bin }
    {
        match self.uses.as_slice().get(bin) {
            Some(uses) => *uses,
            None => 0,
        }
    }

    /// Whether the item of a place may move to a bin: it is one that the item may use, it has room, and it drains as its bin does.
    fn may_shift(&self, instance: &Instance, place: usize, bin: u32) -> bool
        ensures { IsTrue result → MayShift instance.now self.now.pairs self.now.bins place bin }
    {
        if place >= self.pairs.len() || bin as usize >= self.uses.len() {
            return false;
        }
        let (item, from) = self.pairs[place];
        if from as usize >= self.uses.len() || !has_bin(instance.row(item as usize), bin) {
            return false;
        }
        self.count(bin as usize) < instance.capacity(bin as usize)
            && are_alike(instance, from as usize, bin as usize)
    }

    /// Moves the item of a place to a bin, if it may, and says whether it did.
    pub fn shift(&mut self, instance: &Instance, place: usize, bin: u32) -> bool
        ensures shifted { IsShifted instance.now self.old.pairs self.new.pairs }
        ensures kept { kept instance.now self.old.pairs ≤ kept instance.now self.new.pairs + one_if result }
        ensures bins { self.new.bins ≡ self.old.bins }
        ensures done { IsTrue result → IsMoved place bin self.old.pairs self.new.pairs }
        ensures refused { result ≡ false → self.new ≡ self.old }
    {
        instance.is_problem();
        if !self.may_shift(instance, place, bin) {
            return false;
        }
        let (item, from) = self.pairs[place];
        recount(&mut self.uses, from as usize, bin as usize);
        self.pairs[place] = (item, bin);
        true
    }

    /// Makes of these shifts, each a place and a bin, those that may be made, one after the other, and says how many.
    pub fn shift_all(&mut self, instance: &Instance, shifts: &[(u32, u32)]) -> usize
        ensures shifted { IsShifted instance.now self.old.pairs self.new.pairs }
        ensures kept { kept instance.now self.old.pairs ≤ kept instance.now self.new.pairs + result }
        ensures bins { self.new.bins ≡ self.old.bins }
        ensures most { result ≤ length shifts.now }
    {
        let mut made = 0;
        for index in 0..shifts.len() {
            let (place, bin) = shifts[index];
            if self.shift(instance, place as usize, bin) {
                made += 1;
            }
        }
        made
    }

    /// Caps into which the assignment fits: how many items each bin has.
    pub fn caps(&self, alloc: Global, instance: &Instance) -> Result<Vec<u32>, AllocError>
        requires feasible { IsFeasible instance.now self.now.pairs }
        requires bins { self.now.bins ≡ bins_of instance.now }
        ensures caps { IfOk result (λ v. AreCaps instance.now v.items) }
        ensures within { IfOk result (λ v. IsWithin v.items self.now.pairs) }
        ensures exact { IfOk result (λ v. (bin : ℕ) → slice_index v.items bin ≡ uses_of_bin self.now.pairs bin) }
    {
        instance.is_problem();
        let mut caps = Vec::new(alloc);
        for bin in 0..instance.bins() {
            caps.push(self.count(bin) as u32)?;
        }
        Ok(caps)
    }
}
