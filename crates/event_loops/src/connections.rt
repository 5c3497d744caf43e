//! The connections of a loop.
use crate::exchanges::Exchanges;
use std::alloc::{AllocError, Global};
use std::cell::Cell;
use std::rc::Rc;

/// With fewer entries than this it is not looked for connections that have ended.
const FEW: usize = 64;

/// The connections of a loop.
#[derive(Drop)]
pub struct Connections {
    alloc: Global,
    /// Some may have ended.
    held: Cell<Vec<Rc<Exchanges>>>,
    /// With so many entries those are left out that have ended.
    full: Cell<usize>,
    /// What the loop counts next.
    turn: Rc<Cell<u64>>,
}

impl Connections {
    /// None yet.
    pub fn new(alloc: Global) -> Result<Connections, AllocError> {
        Ok(Connections {
            alloc,
            held: Cell::new(Vec::new(alloc)),
            full: Cell::new(FEW),
            turn: Rc::new(alloc, Cell::new(0))?,
        })
    }

    /// The exchanges of a new connection, which is idle.
    pub fn begin(&self) -> Result<Rc<Exchanges>, AllocError> {
        let exchanges = Exchanges::new(self.alloc, self.turn.clone()?)?;
        let entry = exchanges.clone()?;
        let mut held = self.take();
        let is_added = held.push(entry);
        if held.len() >= self.full.get() {
            held.retain(|one| !one.is_over());
            self.full.set(held.len().saturating_mul(2).max(FEW));
        }
        self.held.set(held);
        is_added?;
        Ok(exchanges)
    }

    /// The connection that has been idle for longest is to end, if one is idle.
    pub fn end_oldest(&self) {
        let held = self.take();
        if let Some(oldest) = oldest(held.as_slice()) {
            oldest.want();
        }
        self.held.set(held);
    }

    /// All are to end, since the server is.
    pub fn end(&self) {
        let held = self.take();
        for one in held.as_slice() {
            one.end();
        }
        self.held.set(held);
    }

    fn take(&self) -> Vec<Rc<Exchanges>> {
        self.held.replace(Vec::new(self.alloc))
    }
}

/// The one that has been idle for longest.
fn oldest(held: &[Rc<Exchanges>]) -> Option<&Exchanges> {
    let mut first = None;
    let mut oldest: Option<&Exchanges> = None;
    for one in held {
        let since = one.idle_since();
        if is_before(since, first) {
            first = since;
            oldest = Some(one);
        }
    }
    oldest
}

/// Whether the first is there, and earlier than the other or alone.
fn is_before(since: Option<u64>, first: Option<u64>) -> bool {
    match (since, first) {
        (Some(since), Some(first)) => since < first,
        (Some(_), None) => true,
        (None, _) => false,
    }
}
