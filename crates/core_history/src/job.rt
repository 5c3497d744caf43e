//! Jobs as JSON values.
ghost use Rattle.core_history.specs.Parts.{job_data, job_in};

use crate::part::Part;
use fleet::JobSpec;
use json_values::member;
use serde_json::{Value, json};
use std::alloc::{AllocError, Global};

impl Part for JobSpec {
    ghost part_in = { job_in };

    #[tactic(auto, unfolding(crate::specs::Parts::job_in))]
    fn read(alloc: Global, value: &Value) -> Result<Option<JobSpec>, AllocError> {
        let Some(name) = member(alloc, value, "name")? else {
            return Ok(None);
        };
        let Some(sources) = member(alloc, value, "sources")? else {
            return Ok(None);
        };
        let Some(target_limit) = member(alloc, value, "target_limit")? else {
            return Ok(None);
        };
        Ok(Some(JobSpec {
            name,
            target_limit,
            sources,
        }))
    }

    ghost part_data = { job_data };

    #[tactic(auto, unfolding(crate::specs::Parts::job_in))]
    fn write(&self, alloc: Global) -> Result<Value, AllocError> {
        let name = self.name.as_str();
        json!(in alloc; {"name": name, "sources": self.sources, "target_limit": self.target_limit})
    }
}
