//! Numbers by index that are all set to one number in a single step, however many there are.
ghost use Rattle.std.specs.Prelude.{◌≡◌, ◌<◌, ◌≤◌, ℕ, length, replicate, slice_index, slice_set, IfOk};

use std::alloc::{AllocError, Global};
use std::marker::Model;

/// A number is stored as its sum with the floor. What is stored at the sum of the floor and the filling, or above, reads as
/// the filling. So the floor sinks by a new filling, and all that was stored reads as that.
#[derive(Drop)]
pub struct Table {
    stored: Vec<u64>,
    floor: u64,
    filling: u64,
}

impl Model for Table {
    ghost use Rattle.std.specs.Prelude.{List, ℕ, map};
    ghost use Rattle.assign_engine.specs.Table.{read_as, IsTable};

    ghost Value = { List ℕ };

    ghost view = { λ t. map (read_as t.floor t.filling) t.stored.items };

    ghost invariant = { λ t. IsTable t.stored.items t.floor t.filling };
}

impl Table {
    /// So many numbers, all 0.
    pub fn new(alloc: Global, count: usize) -> Result<Table, AllocError>
        ensures { IfOk result (λ t. t ≡ replicate count 0) }
    {
        Ok(Table {
            stored: vec![in alloc; u64::MAX; count]?,
            floor: u64::MAX,
            filling: 0,
        })
    }

    /// How many numbers there are.
    pub fn len(&self) -> usize
        ensures { result ≡ length self.now }
    {
        self.stored.len()
    }

    /// The number at an index, 0 past the last one.
    pub fn get(&self, index: usize) -> u64
        ensures { result ≡ slice_index self.now index }
    {
        match self.stored.as_slice().get(index) {
            Some(stored) => stored.saturating_sub(self.floor).min(self.filling),
            None => 0,
        }
    }

    /// Lowers the number at an index.
    pub fn lower(&mut self, index: usize, number: u64)
        requires index { index < length self.old }
        requires number { number ≤ slice_index self.old index }
        ensures { self.new ≡ slice_set self.old index number }
    {
        self.stored[index] = self.floor + number;
    }

    /// Sets all numbers to one.
    pub fn fill(&mut self, number: u64)
        ensures { self.new ≡ replicate (length self.old) number }
    {
        if number <= self.floor {
            self.floor -= number;
        } else {
            self.stored.fill(u64::MAX);
            self.floor = u64::MAX - number;
        }
        self.filling = number;
    }
}
