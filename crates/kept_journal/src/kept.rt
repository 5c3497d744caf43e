//! How much of a desk's journal a device keeps, and who waits for it.
ghost use Rattle.std.specs.Prelude.{◌≡◌, None, IfOk};

use crate::durable::Durable;
use crate::journal_name::JournalName;
use alloc_desk::Front;
use std::alloc::{AllocError, Global};
use std::mem;
use std::sync::{Arc, Condvar, Mutex, Wait};
use std::time::{Clock, Duration, Instant};
use tokio::sync::oneshot;
use tokio::sync::oneshot::{Receiver, Sender};

/// How long is waited for an entry at most, in milliseconds: a device that does not come back holds nobody for longer.
pub const LONGEST_WAIT_MILLIS: u64 = 20_000;

/// How much of a desk's journal a device keeps: who submits asks for his entry, and who writes tells how far he is. No thread waits
/// but that which writes.
#[derive(Drop)]
pub struct Kept<N: JournalName> {
    alloc: Global,
    progress: Mutex<Progress<N>>,
    changed: Condvar,
}

#[derive(Drop)]
struct Progress<N: JournalName> {
    /// How many entries somebody waits for.
    wanted: u64,
    /// What the device keeps, once it keeps what the desk began with.
    durable: Option<Durable<N>>,
    /// Whether the device failed. Then no further entry is kept.
    is_broken: bool,
    /// When the write began that has not come back.
    begun: Option<Instant>,
    /// Whether that was so long ago that nobody waits for it.
    is_hanging: bool,
    waiting: Vec<Waiting<N>>,
}

impl<N: JournalName> Progress<N> {
    /// The write that began has come back.
    fn end_write(&mut self) {
        self.begun = None;
        self.is_hanging = false;
    }

    /// How many entries the device keeps.
    fn entries(&self) -> u64 {
        match &self.durable {
            Some(durable) => durable.len(),
            None => 0,
        }
    }

    /// What the device keeps, where that has all that a front has seen.
    fn past(&self, front: &Front<N>) -> Option<Durable<N>> {
        match &self.durable {
            Some(durable) if durable.has(front) => Some(durable.again()),
            _ => None,
        }
    }
}

/// Somebody who waits until so many entries are kept.
#[derive(Drop)]
struct Waiting<N: JournalName> {
    entries: u64,
    teller: Sender<Durable<N>>,
}

/// What is kept, with all that a front has seen, or nothing that has it, or who will say: nothing, where he says nothing.
#[derive(Drop)]
pub enum Asked<N: JournalName> {
    Known(Option<Durable<N>>),
    Told(Receiver<Durable<N>>),
}

impl<N: JournalName> Kept<N> {
    /// A device of which nothing is known yet.
    pub fn new(alloc: Global) -> Kept<N> {
        Kept {
            alloc,
            progress: Mutex::new(Progress {
                wanted: 0,
                durable: None,
                is_broken: false,
                begun: None,
                is_hanging: false,
                waiting: Vec::new(alloc),
            }),
            changed: Condvar::new(),
        }
    }

    /// The same device once more, where there is one.
    pub fn shared(kept: &Option<Arc<Kept<N>>>) -> Result<Option<Arc<Kept<N>>>, AllocError>
        ensures { IfOk result (λ shared. shared ≡ None → kept.now ≡ None) }
    {
        match kept {
            Some(kept) => Ok(Some(Arc::try_clone(kept)?)),
            None => Ok(None),
        }
    }

    /// What is kept, with all that a front has seen: nothing is where the device failed before, or hangs.
    pub fn ask(&self, rt: &impl Wait, front: &Front<N>) -> Result<Asked<N>, AllocError> {
        let mut progress = self.progress.lock(rt);
        if let Some(durable) = progress.past(front) {
            return Ok(Asked::Known(Some(durable)));
        }
        if progress.is_broken || progress.is_hanging {
            return Ok(Asked::Known(None));
        }
        let (teller, told) = oneshot::channel(self.alloc)?;
        let entries = front.len();
        progress.waiting.push(Waiting { entries, teller })?;
        progress.wanted = progress.wanted.max(entries);
        self.changed.notify_all();
        Ok(Asked::Told(told))
    }

    /// A write begins. It ends by `keep` or by `fail`.
    pub fn begin<R: Wait + Clock>(&self, rt: &R) {
        let now = Instant::now(rt).ok();
        self.progress.lock(rt).begun = now;
    }

    /// What the device keeps now. Each call has at least what the one before had.
    pub fn keep(&self, rt: &impl Wait, durable: Durable<N>) {
        let waiting = self.advance(rt, durable.again());
        // Who waits is told with no lock held.
        let mut later = Vec::new(self.alloc);
        for one in waiting {
            if one.entries <= durable.len() {
                let _ = one.teller.send(durable.again());
            } else {
                // Where there is no memory, he is told that his entry is not kept.
                let _ = later.push(one);
            }
        }
        let mut progress = self.progress.lock(rt);
        for one in later {
            let _ = progress.waiting.push(one);
        }
    }

    /// What the device keeps now. Gives all who wait.
    fn advance(&self, rt: &impl Wait, durable: Durable<N>) -> Vec<Waiting<N>> {
        let mut progress = self.progress.lock(rt);
        progress.durable = Some(durable);
        progress.end_write();
        mem::replace(&mut progress.waiting, Vec::new(self.alloc))
    }

    /// The device failed.
    pub fn fail(&self, rt: &impl Wait) {
        let mut progress = self.progress.lock(rt);
        progress.is_broken = true;
        progress.end_write();
        progress.waiting.clear();
    }

    /// Whether a write that began has not come back for so long. From then on nobody waits for an entry until it comes back.
    pub fn is_hanging(&self, rt: &impl Wait, now: Instant, longest: Duration) -> bool {
        let mut progress = self.progress.lock(rt);
        progress.is_hanging = match progress.begun {
            Some(begun) => now.saturating_duration_since(begun) >= longest,
            None => false,
        };
        if progress.is_hanging {
            progress.waiting.clear();
        }
        progress.is_hanging
    }

    /// Whether the device failed.
    pub fn is_broken(&self, rt: &impl Wait) -> bool {
        self.progress.lock(rt).is_broken
    }

    /// Ends `wait_for_wish`, now and later: nobody is left who could wait for an entry.
    pub fn wake(&self, rt: &impl Wait) {
        self.progress.lock(rt).wanted = u64::MAX;
        self.changed.notify_all();
    }

    /// Waits so long, or until somebody waits for an entry that is not kept.
    pub fn wait_for_wish<R: Wait + Clock>(&self, rt: &R, time: Duration) {
        let (_progress, _) = self.changed.wait_timeout_while(
            rt,
            self.progress.lock(rt),
            time,
            |progress| progress.wanted <= progress.entries(),
        );
    }
}
