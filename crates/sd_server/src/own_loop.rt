//! What a handler has of the loop that it serves on.
use event_loops::Gate;
use std::alloc::{AllocError, Global};
use std::sync::Arc;
use tokio::time::Handle;

/// What a handler has of the loop that it serves on.
#[derive(Drop)]
pub(crate) struct OwnLoop {
    /// The timers, where something is waited for.
    pub(crate) time: Handle,
    /// How many connections there are.
    pub(crate) gate: Arc<Gate>,
}

impl OwnLoop {
    /// The same for all handlers of a loop.
    pub(crate) fn shared(
        alloc: Global,
        time: &Handle,
        gate: &Arc<Gate>,
    ) -> Result<Arc<OwnLoop>, AllocError> {
        let time = time.clone()?;
        match Arc::try_clone(gate) {
            Ok(gate) => Ok(Arc::new(alloc, OwnLoop { time, gate })?),
            Err(error) => {
                drop(time);
                Err(error)
            }
        }
    }
}
