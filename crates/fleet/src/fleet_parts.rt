//! What a fleet is made of.
use crate::collector::Collector;
use crate::job::JobSpec;
use crate::known_target::KnownTarget;
use lists::List;

/// What a fleet is made of, by the names of its readers.
#[derive(Drop)]
pub struct FleetParts {
    pub jobs: List<JobSpec>,
    /// For each job and source the numbers of the targets that it lists, ascending.
    pub listed: List<List<List<usize>>>,
    pub known: List<KnownTarget>,
    pub collectors: List<Collector>,
    pub last_collector: u32,
}
