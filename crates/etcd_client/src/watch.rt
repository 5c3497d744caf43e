//! Whether an instance may still lead.
use std::sync::atomic::{AtomicBool, Ordering};

/// Whether an instance may still lead, which whoever keeps its lease alive tells whoever asks for it.
#[derive(Drop)]
pub struct Watch {
    is_over: AtomicBool,
    is_refused: AtomicBool,
}

impl Watch {
    /// It may.
    pub fn new() -> Watch {
        Watch {
            is_over: AtomicBool::new(false),
            is_refused: AtomicBool::new(false),
        }
    }

    /// It leads no more: its lease ended, nothing is known of that for too long, or it ends by itself.
    pub fn end(&self) {
        self.is_over.store(true, Ordering::SeqCst);
    }

    /// It leads no more, since etcd goes on refusing what is asked.
    pub fn refuse(&self) {
        self.is_refused.store(true, Ordering::SeqCst);
        self.end();
    }

    /// Whether that is why.
    pub fn is_refused(&self) -> bool {
        self.is_refused.load(Ordering::SeqCst)
    }

    pub fn is_over(&self) -> bool {
        self.is_over.load(Ordering::SeqCst)
    }
}
