//! What a history has.
use fleet::FleetParts;
use lists::List;
use price_certificate::{Instance, Plan};

/// The instance and the plan of the last allocation that was published.
#[derive(Debug, Drop)]
pub(crate) struct Certificate {
    pub(crate) instance: Instance,
    pub(crate) plan: Plan,
}

/// The parts of a renewed core.
#[derive(Drop)]
pub(crate) struct History {
    /// Pairs of a target and its collector.
    pub(crate) allocation: List<(u32, u32)>,
    pub(crate) certificate: Certificate,
    pub(crate) fleet: FleetParts,
    pub(crate) round: u32,
    /// For each known target the collector of which a list that was served last has it, 0 for none.
    pub(crate) served: Option<List<u32>>,
}
