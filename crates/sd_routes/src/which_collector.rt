//! Which collector a path means.
use fleet_events::CollectorId;
use reach_rules::CollectorName;

/// Which collector a path means.
#[derive(Drop)]
pub enum WhichCollector {
    /// The one of this number.
    Number(CollectorId),
    /// The one that has this name.
    Name(CollectorName),
}
