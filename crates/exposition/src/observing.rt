//! Observations that are counted.
ghost use Rattle.std.specs.Prelude.{◌≡◌, map};
ghost use Rattle.exposition.specs.Counting.{observed};

use crate::durations::Bucket;

/// Counts a duration in each bucket whose bound it does not exceed.
pub(crate) fn observe_in(buckets: &mut [Bucket], microseconds: u64)
    ensures { buckets.new ≡ map (observed microseconds) buckets.old }
{
    for i in 0..buckets.len() {
        buckets[i] = buckets[i].observed(microseconds);
    }
}
