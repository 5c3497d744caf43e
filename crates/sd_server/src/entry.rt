//! What is said, or what it waits for.
ghost use Rattle.std.specs.Prelude.{◌≡◌, IsTrue};
ghost use Rattle.sd_server.specs.Entries.{KeptPast, MaySayEntry, MaySayLater};
ghost use Rattle.sd_server.specs.Says.{SaysReload};

use alloc_desk::Front;
use futures::task::{Context, Poll};
use futures::{Future, ready};
use kept_journal::{Durable, JournalName};
use lists::Text;
use sd_routes::{RequestError, Said};
use service_state::unanswered;
use std::alloc::Global;
use std::mem;
use tokio::sync::oneshot::Receiver;
use tokio::sync::oneshot::error::RecvError;
use tokio::time::Timeout;
use tokio::time::error::Elapsed;

/// What is said, or what it waits for.
#[derive(Drop)]
pub enum Entry<N: JournalName> {
    Now(Said),
    /// What was seen of the journal is to be kept before.
    Later(Later<N>),
    /// The configuration is read again before.
    Reload(Reload),
}

impl<N: JournalName> Future for Entry<N> {
    type Output = Said;

    ghost gives = { MaySayEntry N.keeps };

    fn poll(&mut self, cx: &mut Context<'_>) -> Poll<Said> {
        match self {
            Entry::Now(said) => Poll::Ready(mem::replace(
                said,
                Said::Refused(RequestError::Memory),
            )),
            Entry::Later(later) => {
                let told = ready!(later.told.poll(cx));
                Poll::Ready(later.said(told))
            }
            Entry::Reload(reload) => {
                let told = ready!(reload.told.poll(cx));
                Poll::Ready(reload.said(told))
            }
        }
    }
}

/// What is said once all that a front has seen is kept.
#[derive(Drop)]
pub struct Later<N: JournalName> {
    pub(crate) said: Option<Said>,
    pub(crate) front: Front<N>,
    pub(crate) told: Timeout<Receiver<Durable<N>>>,
}

impl<N: JournalName> Later<N> {
    /// What is said after this was told.
    pub(crate) fn said(&mut self, told: Result<Result<Durable<N>, RecvError>, Elapsed>) -> Said
        ensures { MaySayLater N.keeps self.old result }
    {
        let durable = match told {
            Ok(Ok(durable)) => Some(durable),
            _ => None,
        };
        let is_kept = has(&durable, &self.front);
        drop(durable);
        match self.said.take() {
            Some(said) if is_kept => said,
            _ => Said::Refused(RequestError::NotKept),
        }
    }
}

/// Whether this is kept, and has all that a front has seen.
pub(crate) fn has<N: JournalName>(durable: &Option<Durable<N>>, front: &Front<N>) -> bool
    ensures { IsTrue result → KeptPast N.keeps front.now }
{
    match durable {
        Some(durable) => durable.has(front),
        None => false,
    }
}

/// What is said once the configuration was read again.
#[derive(Drop)]
pub struct Reload {
    pub(crate) alloc: Global,
    pub(crate) told: Receiver<Result<Text, Text>>,
}

impl Reload {
    /// What is said after this was told.
    pub(crate) fn said(&self, told: Result<Result<Text, Text>, RecvError>) -> Said
        ensures { SaysReload result }
    {
        match told {
            Ok(Ok(changes)) => Said::Reloaded(changes),
            Ok(Err(fault)) => Said::NotReloaded(fault),
            Err(_) => match unanswered(self.alloc) {
                Ok(fault) => Said::NotReloaded(fault),
                Err(_) => Said::Refused(RequestError::Memory),
            },
        }
    }
}
