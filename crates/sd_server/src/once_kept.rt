//! What is said only once the device has what it is told of.
ghost use Rattle.std.specs.Prelude.{◌≡◌};
ghost use Rattle.sd_routes.specs.declared.request_error.RequestError.TheVariants.{NotKept};
ghost use Rattle.sd_routes.specs.declared.responding.Said.TheVariants.{Refused};
ghost use Rattle.sd_server.specs.Entries.{Comes, Leads, WaitsFor};
ghost use Rattle.sd_server.specs.Says.{is_of_journal};

use crate::entry::{Entry, Later, has};
use crate::handler::Handler;
use crate::seen::Seen;
use alloc_desk::Front;
use kept_journal::{Asked, Durable, JournalName, Kept, LONGEST_WAIT_MILLIS};
use sd_routes::{Notice, RequestError, Said};
use std::sync::Wait;
use std::sync::ledger::Ledger;
use std::time::{Clock, Duration};
use tokio::sync::oneshot::Receiver;
use tokio::time::Timeout;

impl<R: Wait + Clock + Copy, L: Ledger, B: Ledger, N: JournalName> Handler<R, L, B, N> {
    /// Whether what is submitted cannot be kept.
    pub(crate) fn is_broken(&self) -> bool {
        match &self.kept {
            Some(kept) => kept.is_broken(&self.rt),
            None => false,
        }
    }

    /// It is said at once, or, where it is of the journal, once all that was seen of that is kept.
    pub(crate) fn once_kept(&self, seen: &Seen<N>, said: Said) -> Entry<N>
        ensures { Leads N.keeps (Comes self.now.kept N.keeps seen.now said) result }
    {
        if !is_of_journal(&said) {
            return Entry::Now(said);
        }
        match &self.kept {
            Some(kept) => self.once_kept_by(kept, seen.now(), said),
            None => Entry::Now(said),
        }
    }

    /// It is said once all that a front has seen is kept.
    fn once_kept_by(&self, kept: &Kept<N>, front: &Front<N>, said: Said) -> Entry<N>
        ensures { Leads N.keeps (WaitsFor N.keeps front.now said) result }
    {
        match kept.ask(&self.rt, front) {
            Ok(Asked::Known(durable)) => self.once_known(durable, front, said),
            Ok(Asked::Told(told)) => self.later(told, front, said),
            Err(error) => {
                drop((error, said));
                not_kept()
            }
        }
    }

    /// It is said where this is kept, and has all that a front has seen.
    fn once_known(&self, durable: Option<Durable<N>>, front: &Front<N>, said: Said) -> Entry<N>
        ensures { Leads N.keeps (WaitsFor N.keeps front.now said) result }
    {
        if has(&durable, front) {
            drop(durable);
            Entry::Now(said)
        } else {
            drop((durable, said));
            not_kept()
        }
    }

    fn later(&self, told: Receiver<Durable<N>>, front: &Front<N>, said: Said) -> Entry<N>
        ensures { Leads N.keeps (WaitsFor N.keeps front.now said) result }
    {
        match self.waiting(told) {
            Some(told) => Entry::Later(Later {
                said: Some(said),
                front: front.again(),
                told,
            }),
            None => {
                drop(said);
                not_kept()
            }
        }
    }

    /// What waits for it, where there are timers, and for how long at most.
    fn waiting(&self, told: Receiver<Durable<N>>) -> Option<Timeout<Receiver<Durable<N>>>> {
        let longest = Duration::from_millis(LONGEST_WAIT_MILLIS);
        match &self.own_loop {
            Some(own_loop) => own_loop.time.timeout(&self.rt, longest, told).ok(),
            None => None,
        }
    }
}

fn not_kept<N: JournalName>() -> Entry<N>
    ensures { Leads N.keeps (λ said. said ≡ Refused NotKept) result }
{
    Entry::Now(Said::Refused(RequestError::NotKept))
}

/// Whether what is said is an answer of the journal, or a list of it, which may be empty.
fn is_of_journal(said: &Said) -> bool
    ensures { result ≡ is_of_journal said.now }
{
    match said {
        Said::Answer(_) | Said::Answers { .. } | Said::List { .. } | Said::Nothing => true,
        Said::Page(_)
        | Said::Refused(_)
        | Said::Misshapen(_)
        | Said::Notice(_)
        | Said::Metrics(_)
        | Said::Document(_)
        | Said::Reloaded(_)
        | Said::NotReloaded(_) => false,
    }
}
