//! The exchanges of a connection.
use std::alloc::{AllocError, Global};
use std::cell::Cell;
use std::rc::Rc;
use std::sync::Arc;
use tokio::sync::{Notify, OwnedNotified};

/// What a connection's service, its socket and its limits of time tell one another.
#[derive(Drop)]
pub struct Exchanges {
    /// Whether an exchange is under way, or bytes of a head have come.
    busy: Cell<bool>,
    /// Whether that has changed since this was asked.
    changed: Cell<bool>,
    /// Whether an exchange has begun since this was asked.
    begun: Cell<bool>,
    /// Whether there was an exchange.
    was_used: Cell<bool>,
    /// Whether a head has come whose answer is not written yet.
    serving: Cell<bool>,
    /// Whether the answer to the exchange under way was given to hyper.
    answered: Cell<bool>,
    /// Whether the next exchange is the last.
    last: Cell<bool>,
    /// Whether the connection was told that the exchange under way is its last.
    told: Cell<bool>,
    /// Whether the server is to end.
    ending: Cell<bool>,
    /// Whether another connection wants its place.
    wanted: Cell<bool>,
    /// Whether the connection has ended.
    over: Cell<bool>,
    /// When it began to be idle, counted by the loop.
    idle_since: Cell<u64>,
    /// What the loop counts next.
    turn: Rc<Cell<u64>>,
    /// Wakes the connection.
    bell: Arc<Notify>,
}

impl Exchanges {
    /// Those of a new connection, which is idle, of a loop that counts here.
    pub(crate) fn new(alloc: Global, turn: Rc<Cell<u64>>) -> Result<Rc<Exchanges>, AllocError> {
        let idle_since = next(&turn);
        let bell = Arc::new(alloc, Notify::new(alloc)?)?;
        Ok(Rc::new(
            alloc,
            Exchanges {
                busy: Cell::new(false),
                changed: Cell::new(false),
                begun: Cell::new(false),
                was_used: Cell::new(false),
                serving: Cell::new(false),
                answered: Cell::new(false),
                last: Cell::new(false),
                told: Cell::new(false),
                ending: Cell::new(false),
                wanted: Cell::new(false),
                over: Cell::new(false),
                idle_since: Cell::new(idle_since),
                turn,
                bell,
            },
        )?)
    }

    /// Bytes have come.
    pub(crate) fn hear(&self) {
        if !self.busy.get() {
            self.busy.set(true);
            self.changed.set(true);
        }
    }

    /// All that was to be written is written.
    pub(crate) fn flush(&self) {
        if self.answered.get() && self.busy.get() {
            self.busy.set(false);
            self.serving.set(false);
            self.changed.set(true);
            self.idle_since.set(next(&self.turn));
        }
    }

    /// An exchange begins. Whether it is the last.
    pub(crate) fn begin(&self) -> bool {
        self.begun.set(true);
        self.was_used.set(true);
        self.serving.set(true);
        self.answered.set(false);
        self.last.get()
    }

    /// The answer to the exchange under way is given.
    pub(crate) fn answer(&self) {
        self.answered.set(true);
    }

    /// Whether an exchange has begun since this was asked.
    pub(crate) fn has_begun(&self) -> bool {
        self.begun.replace(false)
    }

    /// Whether there was an exchange.
    pub(crate) fn was_used(&self) -> bool {
        self.was_used.get()
    }

    /// Whether the connection began to be idle, or ceased to be, since this was asked.
    pub(crate) fn has_changed(&self) -> bool {
        self.changed.replace(false)
    }

    pub(crate) fn is_busy(&self) -> bool {
        self.busy.get()
    }

    pub(crate) fn is_last(&self) -> bool {
        self.last.get()
    }

    /// The next exchange is the last.
    pub fn end_with_next(&self) {
        self.last.set(true);
    }

    /// The connection was told that the exchange under way is its last.
    pub(crate) fn tell(&self) {
        self.told.set(true);
    }

    /// Whether it was.
    pub(crate) fn is_told(&self) -> bool {
        self.told.get()
    }

    /// The server is to end. The connection is woken.
    pub(crate) fn end(&self) {
        self.ending.set(true);
        self.bell.notify_waiters();
    }

    pub(crate) fn is_ending(&self) -> bool {
        self.ending.get()
    }

    /// Another connection wants its place. The connection is woken.
    pub(crate) fn want(&self) {
        self.wanted.set(true);
        self.bell.notify_waiters();
    }

    /// Whether the place is given to who wants it. Where an exchange has begun it is not, but that one or the next is the last.
    pub(crate) fn gives_place(&self) -> bool {
        let is_given = self.wanted.replace(false) && !self.serving.get();
        if !is_given {
            self.last.set(true);
        }
        is_given
    }

    /// The connection has ended.
    pub(crate) fn finish(&self) {
        self.over.set(true);
    }

    pub(crate) fn is_over(&self) -> bool {
        self.over.get()
    }

    /// When its last answer was written, or it began, where no whole head has come since, and nobody wants its place yet.
    pub(crate) fn idle_since(&self) -> Option<u64> {
        if self.serving.get() || self.over.get() || self.wanted.get() {
            return None;
        }
        Some(self.idle_since.get())
    }

    /// Ready once the connection is woken, from now on.
    pub fn told(&self) -> Result<OwnedNotified, AllocError> {
        Ok(Notify::notified_owned(Arc::try_clone(&self.bell)?))
    }
}

/// Counts one further.
fn next(turn: &Cell<u64>) -> u64 {
    let count = turn.get().wrapping_add(1);
    turn.set(count);
    count
}
