//! Who is in which bin, by item and by bin.
ghost use Rattle.std.specs.Prelude.{◌≡◌, ◌==◌, ◌+◌, ◌++◌, ◌∷◌, ◌<◌, List, [], Option, Some, None, ℕ, length, replicate, slice_index, slice_set, IfSome, IfOk, OnOk, OnErr};
ghost use Rattle.assign_engine.specs.Usable.{one_if};
ghost use Rattle.assign_engine.specs.Seats.{sits, seat, used};
ghost use Rattle.assign_engine.specs.Roll.{Seated, times_in, roll_of, share_of};

use std::alloc::{AllocError, Global};
use std::marker::Model;

/// The place of an item in a list, if it stands at this place or past it.
fn place_from(items: &[usize], item: usize, first: usize) -> Option<usize>
    ensures in_range { IfSome result (λ place. place < length items.now) }
    ensures found { IfSome result (λ place. slice_index items.now place ≡ item) }
{
    for place in first..items.len() {
        if items[place] == item {
            return Some(place);
        }
    }
    None
}

/// The place of an item in a list that has it, looked for from a likely place on.
fn place_of(items: &[usize], item: usize, likely: usize) -> usize
    requires { 0 < times_in items.now item }
    ensures in_range { result < length items.now }
    ensures found { slice_index items.now result ≡ item }
{
    if let Some(place) = place_from(items, item, likely) {
        return place;
    }
    for place in 0..items.len() {
        if items[place] == item {
            return place;
        }
    }
    0
}

/// The items of one bin, and where one was taken out last: the next is often there or after. Contracts see the list of the
/// items.
#[derive(Drop)]
struct Members {
    items: Vec<usize>,
    last: usize,
}

impl Model for Members {
    ghost use Rattle.std.specs.Prelude.{List, ℕ};

    ghost Value = { List ℕ };

    ghost view = { λ m. m.items.items };
}

impl Members {
    fn new(alloc: Global) -> Members
        ensures { result ≡ [] }
    {
        Members {
            items: Vec::new(alloc),
            last: 0,
        }
    }

    fn len(&self) -> usize
        ensures { result ≡ length self.now }
    {
        self.items.len()
    }

    fn as_slice(&self) -> &[usize]
        ensures { result.now ≡ self.now }
    {
        self.items.as_slice()
    }

    fn add(&mut self, item: usize) -> Result<(), AllocError>
        ensures ok { OnOk result (self.new ≡ self.old ++ item ∷ []) }
        ensures err { OnErr result (self.new ≡ self.old) }
    {
        self.items.push(item)?;
        Ok(())
    }

    /// Takes one item out. Another may take its place.
    fn remove(&mut self, item: usize)
        requires { 0 < times_in self.old item }
        ensures times { (other : ℕ) → times_in self.new other + one_if (item == other) ≡ times_in self.old other }
        ensures length { length self.new + 1 ≡ length self.old }
    {
        let place = place_of(&self.items, item, self.last);
        self.items.swap_remove(place);
        self.last = place;
    }
}

/// The bin of each item, with the items of each bin.
#[derive(Drop)]
pub struct Seating {
    seats: Vec<Option<usize>>,
    rolls: Vec<Members>,
}

impl Model for Seating {
    ghost use Rattle.std.specs.Prelude.{length};
    ghost use Rattle.assign_engine.specs.Roll.{Seated, IsRoll};

    ghost Value = { Seated };

    ghost view = { λ s. record { seats = s.seats.items; bins = length s.rolls.items } };

    ghost invariant = { λ s. IsRoll s.seats.items s.rolls.items };
}

fn no_seats(alloc: Global, items: usize) -> Result<Vec<Option<usize>>, AllocError>
    ensures { IfOk result (λ v. v.items ≡ replicate items None) }
{
    vec![in alloc; None; items]
}

fn no_members(alloc: Global, bins: usize) -> Result<Vec<Members>, AllocError>
    ensures { IfOk result (λ v. v.items ≡ replicate bins []) }
{
    let mut rolls = Vec::with_capacity(alloc, bins)?;
    for _ in 0..bins {
        rolls.push(Members::new(alloc))?;
    }
    Ok(rolls)
}

/// Adds an item to the list of a bin.
fn enroll(rolls: &mut Vec<Members>, bin: usize, item: usize) -> Result<(), AllocError>
    requires { bin < length rolls.old.items }
    ensures ok { OnOk result (rolls.new.items ≡ slice_set rolls.old.items bin (roll_of rolls.old.items bin ++ item ∷ [])) }
    ensures err { OnErr result (rolls.new.items ≡ rolls.old.items) }
{
    let members = &mut rolls[bin];
    members.add(item)
}

/// Takes an item out of the list of its bin, if it has one.
fn strike(rolls: &mut Vec<Members>, seat: Option<usize>, item: usize)
    requires { (bin : ℕ) → seat ≡ Some bin → 0 < times_in (roll_of rolls.old.items bin) item }
    ensures bins { length rolls.new.items ≡ length rolls.old.items }
    ensures times { (bin other : ℕ) → times_in (roll_of rolls.new.items bin) other + share_of seat item bin other ≡ times_in (roll_of rolls.old.items bin) other }
    ensures sizes { (bin : ℕ) → length (roll_of rolls.new.items bin) + one_if (sits bin seat) ≡ length (roll_of rolls.old.items bin) }
{
    if let Some(bin) = seat {
        let members = &mut rolls[bin];
        members.remove(item);
    }
}

impl Seating {
    /// No item has a bin.
    pub fn new(alloc: Global, items: usize, bins: usize) -> Result<Seating, AllocError>
        ensures seats { IfOk result (λ s. s.seats ≡ replicate items None) }
        ensures bins { IfOk result (λ s. s.bins ≡ bins) }
    {
        let seats = no_seats(alloc, items)?;
        let rolls = no_members(alloc, bins)?;
        Ok(Seating { seats, rolls })
    }

    /// The bin of an item.
    pub fn bin_of(&self, item: usize) -> Option<usize>
        ensures { result ≡ seat self.now.seats item }
    {
        match self.seats.as_slice().get(item) {
            Some(bin) => *bin,
            None => None,
        }
    }

    /// How many items a bin has.
    pub fn count(&self, bin: usize) -> usize
        ensures { result ≡ used self.now.seats bin }
    {
        match self.rolls.as_slice().get(bin) {
            Some(members) => members.len(),
            None => 0,
        }
    }

    /// The items of a bin, each once.
    pub fn members(&self, bin: usize) -> &[usize]
        ensures { (item : ℕ) → times_in result.now item ≡ one_if (sits bin (seat self.now.seats item)) }
    {
        match self.rolls.as_slice().get(bin) {
            Some(members) => members.as_slice(),
            None => &[],
        }
    }

    /// Moves an item into a bin.
    pub fn put(&mut self, item: usize, bin: usize) -> Result<(), AllocError>
        requires item { item < length self.old.seats }
        requires bin { bin < self.old.bins }
        ensures ok { OnOk result (self.new ≡ record self.old { seats = slice_set self.old.seats item (Some bin) }) }
        ensures err { OnErr result (self.new ≡ self.old) }
    {
        enroll(&mut self.rolls, bin, item)?;
        strike(&mut self.rolls, self.seats[item], item);
        self.seats[item] = Some(bin);
        Ok(())
    }

    /// Takes an item out of its bin.
    pub fn take_out(&mut self, item: usize)
        requires { item < length self.old.seats }
        ensures { self.new ≡ record self.old { seats = slice_set self.old.seats item None } }
    {
        strike(&mut self.rolls, self.seats[item], item);
        self.seats[item] = None;
    }
}
