//! What the loops of a server share.
use crate::times::Times;
use std::alloc::{AllocError, Global};
use std::sync::Arc;
use std::sync::atomic::{AtomicBool, Ordering};
use tokio::sync::{Notify, OwnedNotified, OwnedSemaphorePermit, Semaphore};

/// What the loops of a server share: how many connections there may be, and whether the server is to end.
#[derive(Drop)]
pub struct Gate {
    /// A place for each connection.
    places: Arc<Semaphore>,
    most: usize,
    /// With fewer places than this, an answer is the last of its connection.
    few: usize,
    times: Times,
    stopped: AtomicBool,
    /// Wakes the loops.
    told: Arc<Notify>,
}

impl Gate {
    /// So many connections at once at most.
    pub fn new(alloc: Global, most: u32, times: Times) -> Result<Gate, AllocError> {
        let most = most as usize;
        Ok(Gate {
            places: Arc::new(alloc, Semaphore::new(alloc, most)?)?,
            most,
            few: most.div_ceil(8),
            times,
            stopped: AtomicBool::new(false),
            told: Arc::new(alloc, Notify::new(alloc)?)?,
        })
    }

    /// How many connections there may be at once.
    pub fn most(&self) -> usize {
        self.most
    }

    /// How many there are.
    pub fn taken(&self) -> usize {
        self.most.saturating_sub(self.places.available_permits())
    }

    /// How long a connection may take.
    pub fn times(&self) -> Times {
        self.times
    }

    /// Whether the server was told to end.
    pub fn is_stopped(&self) -> bool {
        self.stopped.load(Ordering::SeqCst)
    }

    /// Whether few places are free.
    pub fn is_pressed(&self) -> bool {
        self.places.available_permits() < self.few
    }

    /// Ends the server. An idle connection is closed at once, an exchange that has begun is finished.
    pub fn stop(&self) {
        self.stopped.store(true, Ordering::SeqCst);
        self.told.notify_waiters();
    }

    /// Ready once the server is told to end, from now on.
    pub(crate) fn told(&self) -> Result<OwnedNotified, AllocError> {
        Ok(Notify::notified_owned(Arc::try_clone(&self.told)?))
    }

    /// A place for a connection, if there is one.
    pub(crate) fn place(&self) -> Option<OwnedSemaphorePermit> {
        let places = Arc::try_clone(&self.places).ok()?;
        Semaphore::try_acquire_owned(places).ok()
    }
}
