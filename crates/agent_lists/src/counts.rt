//! What an agent counts.
use std::sync::atomic::{AtomicU64, Ordering};

/// What an agent counts.
#[derive(Drop)]
pub struct Counts {
    /// How many targets it holds.
    pub held: AtomicU64,
    /// How many of them are served.
    pub served: AtomicU64,
    /// How many lists its Prometheus was told.
    pub lists: AtomicU64,
    /// How often it took its lists.
    pub takes: AtomicU64,
    /// How many reports it posted.
    pub reports: AtomicU64,
    /// How often a list of reports was refused, since its list or its round was over.
    pub refusals: AtomicU64,
    /// How often the allocator was not heard.
    pub allocator_failures: AtomicU64,
    /// How often its Prometheus was not heard.
    pub prometheus_failures: AtomicU64,
    /// How often the state file could not be written.
    pub state_failures: AtomicU64,
}

impl Counts {
    pub(crate) fn new() -> Counts {
        Counts {
            held: AtomicU64::new(0),
            served: AtomicU64::new(0),
            lists: AtomicU64::new(0),
            takes: AtomicU64::new(0),
            reports: AtomicU64::new(0),
            refusals: AtomicU64::new(0),
            allocator_failures: AtomicU64::new(0),
            prometheus_failures: AtomicU64::new(0),
            state_failures: AtomicU64::new(0),
        }
    }
}

/// Counts one further.
pub(crate) fn count_one(count: &AtomicU64) {
    count.fetch_add(1, Ordering::SeqCst);
}
