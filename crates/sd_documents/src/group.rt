//! A target group.
use label_sets::Labels;
use lists::{List, Plain, Text};
use std::alloc::AllocError;

/// A target group: targets that share their labels.
#[derive(Debug, Drop)]
pub struct Group {
    pub targets: List<Text>,
    pub labels: Labels,
}

impl Plain for Group {
    fn copy(&self) -> Result<Group, AllocError> {
        let targets = self.targets.copy()?;
        let labels = self.labels.copy()?;
        Ok(Group { targets, labels })
    }

    fn same(&self, other: &Group) -> bool {
        self.targets.same(&other.targets) && self.labels.same(&other.labels)
    }
}
