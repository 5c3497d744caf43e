//! The lines that wait to be written.
use std::alloc::Global;
use std::mem;
use std::sync::atomic::{AtomicU64, Ordering};
use std::sync::{Arc, Condvar, Mutex, Wait};
use std::time::{Clock, Duration};

/// How many texts wait at most.
const MOST_TEXTS: usize = 1_024;

/// How many bytes they have at most.
const MOST_BYTES: usize = 1_048_576;

/// Texts that wait to be written to standard error. One for which there is no room is lost, and counted.
#[derive(Drop)]
pub struct LogQueue {
    waiting: Mutex<Waiting>,
    told: Condvar,
    lost: Arc<AtomicU64>,
}

#[derive(Drop)]
struct Waiting {
    texts: Vec<String>,
    bytes: usize,
    /// Whether no more come.
    is_closed: bool,
    /// Whether all are written, and no more come.
    is_written: bool,
}

impl Waiting {
    /// Adds a text, if there is room for it.
    fn add(&mut self, text: String) -> bool {
        let bytes = self.bytes.saturating_add(text.len());
        if self.texts.len() >= MOST_TEXTS || bytes > MOST_BYTES {
            return false;
        }
        self.bytes = bytes;
        self.texts.push(text).is_ok()
    }

    /// All that wait. None are left.
    fn take(&mut self) -> Vec<String> {
        self.bytes = 0;
        let left = Vec::new(*self.texts.allocator());
        mem::replace(&mut self.texts, left)
    }
}

impl LogQueue {
    /// A queue that counts here what it loses.
    pub(crate) fn new(alloc: Global, lost: Arc<AtomicU64>) -> LogQueue {
        LogQueue {
            waiting: Mutex::new(Waiting {
                texts: Vec::new(alloc),
                bytes: 0,
                is_closed: false,
                is_written: false,
            }),
            told: Condvar::new(),
            lost,
        }
    }

    /// Where it counts what it loses.
    pub fn lost(&self) -> &Arc<AtomicU64> {
        &self.lost
    }

    /// Adds a text, if there is memory for it, and room.
    pub(crate) fn add(&self, rt: &impl Wait, text: Option<String>) {
        let is_added = match text {
            Some(text) => self.waiting.lock(rt).add(text),
            None => false,
        };
        if is_added {
            self.told.notify_all();
        } else {
            self.lost.fetch_add(1, Ordering::SeqCst);
        }
    }

    /// Waits for some texts. None where all are written and no more come.
    pub(crate) fn take(&self, rt: &impl Wait) -> Option<Vec<String>> {
        let mut waiting = self.told.wait_while(rt, self.waiting.lock(rt), |waiting| {
            waiting.texts.is_empty() && !waiting.is_closed
        });
        if waiting.texts.is_empty() {
            waiting.is_written = true;
            self.told.notify_all();
            return None;
        }
        Some(waiting.take())
    }

    /// No more texts come. Waits so long for those that are there to be written, and says whether they are.
    pub fn close<R: Wait + Clock>(&self, rt: &R, time: Duration) -> bool {
        self.waiting.lock(rt).is_closed = true;
        self.told.notify_all();
        let (waiting, _) = self.told.wait_timeout_while(
            rt,
            self.waiting.lock(rt),
            time,
            |waiting| !waiting.is_written,
        );
        waiting.is_written
    }
}
