//! A target beside its number.
use fleet_events::TargetId;
use label_sets::Target;

/// A target beside its number.
#[derive(Debug, Drop)]
pub struct NumberedTarget {
    pub number: TargetId,
    pub target: Target,
}
