//! Jobs as an allocator knows them.
use lists::{Plain, Text};
use std::alloc::AllocError;

/// A job: its name, how many of its targets a collector may have, where 0 is no limit, and how many sources
/// list its targets.
#[derive(Drop)]
pub struct JobSpec {
    pub name: Text,
    pub target_limit: u32,
    pub sources: u32,
}

impl Plain for JobSpec {
    fn copy(&self) -> Result<JobSpec, AllocError> {
        let name = self.name.copy()?;
        Ok(JobSpec {
            name,
            target_limit: self.target_limit,
            sources: self.sources,
        })
    }

    fn same(&self, other: &JobSpec) -> bool {
        self.name.same(&other.name)
            && self.target_limit == other.target_limit
            && self.sources == other.sources
    }
}
