//! The tables that a search fills.
ghost use Rattle.std.specs.Prelude.{◌≡◌, ◌+◌, ◌<◌, ◌≤◌, ◌∷◌, ◌++◌, List, [], ℕ, Contains, length, replicate, slice_index, slice_set, IfOk, OnOk, OnErr, IfSome, IfNone};
ghost use Rattle.std.specs.List.Sorted.{IsPermutation};
ghost use Rattle.assign_engine.specs.SearchTables.{SearchState, HasBins};
ghost use Rattle.assign_engine.specs.Pending.{HasPending, HasPendingBut, IsNearest, AllFar};
ghost use Rattle.assign_engine.specs.declared.ends.End.TheVariants.{Leave};

use crate::ends::End;
use crate::frontier::Frontier;
use crate::table::Table;
use std::alloc::{AllocError, Global};
use std::marker::Model;

/// What a search knows so far, in tables that serve one search after another.
#[derive(Drop)]
pub struct SearchTables {
    distances: Table,
    vias: Vec<usize>,
    ranks: Table,
    frontier: Frontier,
    cost: u64,
    end: End,
    settled_bins: Vec<usize>,
    looked: u64,
}

impl Model for SearchTables {
    ghost use Rattle.std.specs.Prelude.{length};
    ghost use Rattle.assign_engine.specs.SearchTables.{SearchState};

    ghost Value = { SearchState };

    ghost view = { λ l. record { distances = l.distances; vias = l.vias.items; ranks = l.ranks; pending = l.frontier; cost = l.cost; end = l.end; settled = length l.settled_bins.items; settled_bins = l.settled_bins.items } };
}

/// The nearest bin that is not settled and nearer than the cost.
fn nearest(frontier: &mut Frontier, distances: &Table, ranks: &Table, cost: u64) -> Option<usize>
    requires ranks { length ranks.now ≡ length distances.now }
    requires pending { HasPending distances.now ranks.now cost frontier.old }
    ensures some { IfSome result (λ b. IsNearest distances.now ranks.now cost b) }
    ensures pending { IfSome result (λ b. HasPendingBut distances.now ranks.now cost b frontier.new) }
    ensures none { IfNone result (AllFar distances.now ranks.now cost) }
{
    while let Some((distance, bin)) = frontier.pop() {
        if distance >= cost {
            return None;
        }
        let rank = ranks.get(bin);
        let found = distances.get(bin);
        if bin < distances.len() && rank == ranks.len() as u64 && found == distance {
            return Some(bin);
        }
    }
    None
}

impl SearchTables {
    /// Tables for so many bins.
    pub fn new(alloc: Global, bins: usize) -> Result<SearchTables, AllocError>
        ensures { IfOk result (λ l. HasBins bins l) }
    {
        let distances = Table::new(alloc, bins)?;
        let vias = vec![in alloc; 0; bins]?;
        let ranks = Table::new(alloc, bins)?;
        Ok(SearchTables {
            distances,
            vias,
            ranks,
            frontier: Frontier::new(alloc),
            cost: 0,
            end: End::Leave,
            settled_bins: Vec::new(alloc),
            looked: 0,
        })
    }

    /// Forgets the last search, and begins one for an item of this price.
    pub fn begin(&mut self, price: u64)
        ensures distances { self.new.distances ≡ replicate (length self.old.distances) price }
        ensures vias { self.new.vias ≡ self.old.vias }
        ensures ranks { self.new.ranks ≡ replicate (length self.old.ranks) (length self.old.ranks) }
        ensures pending { self.new.pending ≡ [] }
        ensures cost { self.new.cost ≡ price }
        ensures end { self.new.end ≡ Leave }
        ensures settled { self.new.settled ≡ 0 }
        ensures settled_bins { self.new.settled_bins ≡ [] }
    {
        let bins = self.ranks.len() as u64;
        self.distances.fill(price);
        self.ranks.fill(bins);
        self.frontier.clear();
        self.cost = price;
        self.end = End::Leave;
        self.settled_bins.clear();
        self.looked = 0;
    }

    /// How far a bin is.
    pub fn distance(&self, bin: usize) -> u64
        requires { bin < length self.now.distances }
        ensures { result ≡ slice_index self.now.distances bin }
    {
        self.distances.get(bin)
    }

    /// The last item on the way to a bin.
    pub fn via(&self, bin: usize) -> usize
        requires { bin < length self.now.vias }
        ensures { result ≡ slice_index self.now.vias bin }
    {
        self.vias[bin]
    }

    /// The turn in which a bin was settled, 0 past the last bin.
    pub fn rank(&self, bin: usize) -> usize
        ensures { result ≡ slice_index self.now.ranks bin }
    {
        self.ranks.get(bin) as usize
    }

    /// What the best end so far costs.
    pub fn cost(&self) -> u64
        ensures { result ≡ self.now.cost }
    {
        self.cost
    }

    /// The best end so far.
    pub fn end(&self) -> End
        ensures { result ≡ self.now.end }
    {
        self.end
    }

    /// How many bins are settled.
    pub fn settled(&self) -> usize
        ensures { result ≡ self.now.settled }
    {
        self.settled_bins.len()
    }

    /// The settled bins, in the order in which they were settled.
    pub fn settled_bins(&self) -> &[usize]
        ensures { result.now ≡ self.now.settled_bins }
    {
        self.settled_bins.as_slice()
    }

    /// How many pairs and items of settled bins were looked at.
    pub fn looked(&self) -> u64 {
        self.looked
    }

    /// Counts so many pairs or items that are looked at.
    pub fn look(&mut self, count: usize)
        ensures { self.new ≡ self.old }
    {
        self.looked = self.looked.saturating_add(count as u64);
    }

    /// Notes a way to a bin.
    pub fn lower(&mut self, bin: usize, distance: u64, via: usize)
        requires distances { bin < length self.old.distances }
        requires vias { bin < length self.old.vias }
        requires nearer { distance ≤ slice_index self.old.distances bin }
        ensures { self.new ≡ record self.old { distances = slice_set self.old.distances bin distance; vias = slice_set self.old.vias bin via } }
    {
        self.distances.lower(bin, distance);
        self.vias[bin] = via;
    }

    /// Notes the rank of a bin.
    pub fn rank_as(&mut self, bin: usize, rank: usize)
        requires bin { bin < length self.old.ranks }
        requires before { rank ≤ slice_index self.old.ranks bin }
        ensures { self.new ≡ record self.old { ranks = slice_set self.old.ranks bin rank } }
    {
        self.ranks.lower(bin, rank as u64);
    }

    /// Notes an end and what it costs.
    pub fn end_at(&mut self, cost: u64, end: End)
        ensures { self.new ≡ record self.old { cost = cost; end = end } }
    {
        self.cost = cost;
        self.end = end;
    }

    /// Puts a bin on the frontier.
    pub fn wait(&mut self, distance: u64, bin: usize) -> Result<(), AllocError>
        ensures same { OnOk result (self.new ≡ record self.old { pending = self.new.pending }) }
        ensures kept { OnOk result ((e : ℕ × ℕ) → Contains self.old.pending e → Contains self.new.pending e) }
        ensures added { OnOk result (Contains self.new.pending (distance, bin)) }
        ensures once { OnOk result (IsPermutation ((distance, bin) ∷ self.old.pending) self.new.pending) }
        ensures err { OnErr result (self.new ≡ self.old) }
    {
        self.frontier.push(distance, bin)
    }

    /// Takes the nearest bin that is not settled off the frontier, if it is nearer than the best end so far.
    pub fn nearest(&mut self) -> Option<usize>
        requires ranks { length self.old.ranks ≡ length self.old.distances }
        requires pending { HasPending self.old.distances self.old.ranks self.old.cost self.old.pending }
        ensures same { self.new ≡ record self.old { pending = self.new.pending } }
        ensures some { IfSome result (λ bin. IsNearest self.old.distances self.old.ranks self.old.cost bin) }
        ensures pending { IfSome result (λ bin. HasPendingBut self.old.distances self.old.ranks self.old.cost bin self.new.pending) }
        ensures none { IfNone result (AllFar self.old.distances self.old.ranks self.old.cost) }
    {
        nearest(&mut self.frontier, &self.distances, &self.ranks, self.cost)
    }

    /// Notes that a bin is settled.
    pub fn settle(&mut self, bin: usize) -> Result<(), AllocError>
        requires bin { bin < length self.old.ranks }
        requires before { self.old.settled ≤ slice_index self.old.ranks bin }
        ensures { OnOk result (self.new ≡ record self.old { ranks = slice_set self.old.ranks bin self.old.settled; settled = self.old.settled + 1; settled_bins = self.old.settled_bins ++ bin ∷ [] }) }
    {
        self.ranks.lower(bin, self.settled_bins.len() as u64);
        self.settled_bins.push(bin)?;
        Ok(())
    }
}
