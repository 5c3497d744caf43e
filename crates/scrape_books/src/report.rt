//! What a collector reports, and the entry that is booked of it.
ghost use Rattle.std.specs.Prelude.{◌≡◌};
ghost use Rattle.scrape_books.specs.Books.{samples_of};

use lists::Plain;
use std::alloc::AllocError;

/// What a scrape came to.
#[derive(Clone, Copy, Debug, PartialEq, Eq)]
pub enum Outcome {
    /// The target answered with so many samples.
    Up(u32),
    /// The target did not answer.
    Down,
}

impl Outcome {
    /// How many samples it has: Down has none.
    pub fn samples(self) -> u32
        ensures { result ≡ samples_of self }
    {
        match self {
            Outcome::Up(samples) => samples,
            Outcome::Down => 0,
        }
    }
}

impl Plain for Outcome {
    fn copy(&self) -> Result<Outcome, AllocError> {
        Ok(*self)
    }

    fn same(&self, other: &Outcome) -> bool {
        *self == *other
    }
}

/// A scrape report as it is booked.
#[derive(Clone, Copy, Debug, PartialEq, Eq)]
pub struct Entry {
    /// The round of the scrape, from 1.
    pub round: u32,
    /// The number of the allocation that the collector scraped by.
    pub number: u32,
    /// The collector's number.
    pub collector: u32,
    pub outcome: Outcome,
}

impl Plain for Entry {
    fn copy(&self) -> Result<Entry, AllocError> {
        Ok(*self)
    }

    fn same(&self, other: &Entry) -> bool {
        *self == *other
    }
}

/// The sums over a target's entries.
#[derive(Clone, Copy, PartialEq, Eq)]
pub struct Page {
    /// How many entries there are.
    pub reports: u32,
    /// How many of them are Up.
    pub ups: u32,
    /// The samples of these together.
    pub samples: u64,
}
