//! What a collector holds of a job.
use crate::numbered_target::NumberedTarget;
use lists::List;
use reach_rules::CollectorName;

/// What a live collector holds of one job in the current allocation, in order of number.
#[derive(Drop)]
pub struct Share {
    pub collector: CollectorName,
    pub targets: List<NumberedTarget>,
}
