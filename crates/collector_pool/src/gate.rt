//! What is called round each fetch.
use allocation_core::{CollectorId, TargetId};

/// What is called before and after each fetch of a turn, by the thread that fetches.
pub trait Gate {
    fn before(&self, collector: CollectorId, target: TargetId);

    fn after(&self, collector: CollectorId, target: TargetId);
}

/// The gate that lets all through.
#[derive(Clone, Copy)]
pub struct Open;

impl Gate for Open {
    fn before(&self, _collector: CollectorId, _target: TargetId) {}

    fn after(&self, _collector: CollectorId, _target: TargetId) {}
}
