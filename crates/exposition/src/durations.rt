//! Durations that were observed, as a histogram has them.
ghost use Rattle.std.specs.Prelude.{◌≡◌};

use crate::observing::observe_in;

/// How many buckets there are.
const BUCKET_COUNT: usize = 13;

/// The observations that are no longer than a bound.
#[derive(Clone, Copy)]
pub struct Bucket {
    /// The bound, in milliseconds.
    pub bound: u64,
    /// How many there are.
    pub count: u64,
}

/// How many durations were observed, by how long they were, and how long they were together.
#[derive(Clone, Copy)]
pub struct Durations {
    pub buckets: [Bucket; BUCKET_COUNT],
    /// How many there are, whatever they are.
    pub count: u64,
    /// How long they were together, in microseconds.
    pub sum: u64,
}

impl Bucket {
    ghost use Rattle.exposition.specs.Counting.{empty, observed};

    /// An empty one.
    fn up_to(bound: u64) -> Bucket
        ensures { result ≡ empty bound }
    {
        Bucket { bound, count: 0 }
    }

    /// The same with a duration that is counted where it is no longer than the bound.
    pub(crate) fn observed(self, microseconds: u64) -> Bucket
        ensures { result ≡ observed microseconds self }
    {
        if u128::from(microseconds) <= u128::from(self.bound) * 1_000 {
            let count = self.count.saturating_add(1);
            return Bucket {
                bound: self.bound,
                count,
            };
        }
        self
    }
}

impl Durations {
    ghost use Rattle.exposition.specs.Counting.{none, with_one};

    /// Without an observation. The bounds are those that Prometheus's own servers have for requests, and four below them.
    pub fn new() -> Durations
        ensures { result ≡ none }
    {
        Durations {
            buckets: [
                Bucket::up_to(5),
                Bucket::up_to(10),
                Bucket::up_to(25),
                Bucket::up_to(50),
                Bucket::up_to(100),
                Bucket::up_to(200),
                Bucket::up_to(400),
                Bucket::up_to(1_000),
                Bucket::up_to(3_000),
                Bucket::up_to(8_000),
                Bucket::up_to(20_000),
                Bucket::up_to(60_000),
                Bucket::up_to(120_000),
            ],
            count: 0,
            sum: 0,
        }
    }

    /// One more was observed. A number that would be too large for its type stays the largest.
    pub fn observe(&mut self, microseconds: u64)
        ensures { self.new ≡ with_one microseconds self.old }
    {
        observe_in(&mut self.buckets, microseconds);
        self.count = self.count.saturating_add(1);
        self.sum = self.sum.saturating_add(microseconds);
    }
}
