//! How many targets of a job a collector may have.
ghost use Rattle.std.specs.Prelude.{◌≡◌, ◌↔◌, ℕ};
ghost use Rattle.reach_rules.specs.OwnLimits.{own_limit};
ghost use Rattle.fleet.specs.ShareLimit.{lower_limit, share_limit, IsWithin};

use crate::collector::Collector;
use crate::job::JobSpec;

impl Collector {
    /// How many targets of the job the collector may have, where 0 is no limit: the lower of the job's limit and its own.
    pub fn share_limit(&self, job: &JobSpec) -> u32
        ensures limit { result ≡ share_limit job.now self.now }
        ensures both { (count : ℕ) → IsWithin count result
            ↔ (IsWithin count job.now.target_limit × IsWithin count (own_limit self.now.limits job.now.name)) }
    {
        lower_limit(job.target_limit, self.limits.limit(job.name.as_str()))
    }
}

/// The lower of two limits, where 0 is no limit.
fn lower_limit(limit: u32, other: u32) -> u32
    ensures lower { result ≡ lower_limit limit other }
    ensures both { (count : ℕ) → IsWithin count result ↔ (IsWithin count limit × IsWithin count other) }
{
    match (limit, other) {
        (0, _) => other,
        (_, 0) => limit,
        _ => limit.min(other),
    }
}
