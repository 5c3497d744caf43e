//! What an instance has while it stands by.
use crate::board::Board;
use crate::metrics::metrics_page;
use admission::Admission;
use lists::{Plain, Text};
use service_settings::Lifecycle;
use std::alloc::{AllocError, Global};
use std::sync::atomic::{AtomicBool, Ordering};
use std::sync::{Mutex, Wait};

/// What an instance has while it stands by: who may ask for what, and what is known of who leads.
#[derive(Drop)]
pub struct Standing {
    pub(crate) doors: Admission,
    pub(crate) lifecycle: Lifecycle,
    pub(crate) version: &'static str,
    /// The URL at which others reach this instance.
    pub(crate) own: Text,
    pub(crate) board: Mutex<Board>,
    /// Whether it was told to end.
    quits: AtomicBool,
}

impl Standing {
    /// Nothing is known yet of who leads.
    pub fn new(
        doors: Admission,
        lifecycle: Lifecycle,
        version: &'static str,
        own: Text,
    ) -> Standing {
        Standing {
            doors,
            lifecycle,
            version,
            own,
            board: Mutex::new(Board::new()),
            quits: AtomicBool::new(false),
        }
    }

    /// Whether it was told to end.
    pub fn is_quitting(&self) -> bool {
        self.quits.load(Ordering::SeqCst)
    }

    /// It is to end.
    pub fn quit(&self) {
        self.quits.store(true, Ordering::SeqCst);
    }

    /// The URL at which another instance that leads is reached, where one is known.
    pub(crate) fn leader(&self, rt: &impl Wait) -> Result<Option<Text>, AllocError> {
        let board = self.board.lock(rt);
        match &board.leader {
            Some(leader) if leader.as_str() != self.own.as_str() => Ok(Some(leader.copy()?)),
            _ => Ok(None),
        }
    }

    /// What is counted while it stands by.
    pub(crate) fn metrics(&self, rt: &impl Wait, alloc: Global) -> Result<String, AllocError> {
        let board = self.board.lock(rt);
        metrics_page(alloc, &*board)
    }

    /// A look had no answer. Gives whether the one before it had one.
    pub(crate) fn miss(&self, rt: &impl Wait) -> bool {
        let mut board = self.board.lock(rt);
        board.missed = board.missed.saturating_add(1);
        let is_first = !board.is_silent;
        board.is_silent = true;
        is_first
    }

    /// No lease was granted, so that nobody leads. Gives whether it is the first since somebody led.
    pub fn refuse(&self, rt: &impl Wait) -> bool {
        let mut board = self.board.lock(rt);
        board.refused = board.refused.saturating_add(1);
        let is_first = !board.is_refused;
        board.is_refused = true;
        is_first
    }

    /// Whether all that is kept was read once.
    pub(crate) fn is_ready(&self, rt: &impl Wait) -> bool {
        self.board.lock(rt).has_read_all
    }
}
