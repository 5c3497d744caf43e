//! Laws of fleets in parts.
ghost use Rattle.shard_laws.specs.Parts.{BestIsBestInParts, BestWithinIsSoInParts};

/// An allocation is the best of a fleet exactly if it is the best in each part of it, however the jobs are parted.
pub fn best_is_best_in_parts()
    ensures { BestIsBestInParts }
{}

/// So it is within caps on each collector's share of each job. That a spread is as even as any is not so: a collector's load is over all jobs, and so of
/// all parts together.
pub fn best_within_is_so_in_parts()
    ensures { BestWithinIsSoInParts }
{}
