//! That a collector follows a list.
use fleet_events::{AllocationNumber, CollectorId};
use lists::Text;

/// That a collector follows its list of a job.
#[derive(Drop)]
pub struct Acknowledgement {
    pub collector: CollectorId,
    pub job: Text,
    /// The number of the allocation that the list is of.
    pub list: AllocationNumber,
    /// The epoch that the collector's number and the list's are of.
    pub epoch: u64,
}
