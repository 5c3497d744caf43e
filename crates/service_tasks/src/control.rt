//! How the threads of a service end together.
use std::sync::{Condvar, Mutex, Wait};
use std::time::{Clock, Duration};

/// Why a desk is to be closed.
#[derive(Clone, Copy, PartialEq, Eq)]
pub enum Ending {
    /// Its journal or its list of targets is nearly full: another desk is opened over its allocator, which is renewed.
    Full,
    /// Another configuration is to be followed.
    Reload,
    /// The service is to end.
    Quit,
    /// The service is to end since its journal is broken.
    Broken,
}

impl Ending {
    /// Whether no other desk follows.
    pub fn is_last(self) -> bool {
        matches!(self, Ending::Quit | Ending::Broken)
    }
}

/// Whether a desk is to be closed, and how its threads are told.
#[derive(Drop)]
pub(crate) struct Control {
    ending: Mutex<Option<Ending>>,
    told: Condvar,
}

impl Control {
    pub(crate) fn new() -> Control {
        Control {
            ending: Mutex::new(None),
            told: Condvar::new(),
        }
    }

    /// The desk is to be closed for this reason, unless there was one already.
    pub(crate) fn end(&self, rt: &impl Wait, why: Ending) {
        let mut ending = self.ending.lock(rt);
        if ending.is_none() {
            *ending = Some(why);
        }
        self.told.notify_all();
    }

    /// Why the desk is to be closed, if it is.
    pub(crate) fn ending(&self, rt: &impl Wait) -> Option<Ending> {
        *self.ending.lock(rt)
    }

    /// Waits so long, or until the desk is to be closed, and says whether it is.
    pub(crate) fn is_ended_within<R: Wait + Clock>(&self, rt: &R, time: Duration) -> bool {
        let (ending, _) = self
            .told
            .wait_timeout_while(rt, self.ending.lock(rt), time, |ending| ending.is_none());
        ending.is_some()
    }
}
