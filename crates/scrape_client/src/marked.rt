//! A fetch with its mark.
use crate::beginning::{Timed, came_to};
use crate::exchange::Exchange;
use crate::fetching::fetched;
use crate::while_memory::WhileMemory;
use futures::Future;
use futures::task::{Context, Poll};
use http_get::{Cause, Reply};
use std::alloc::Global;
use tokio::time::Timeout;

/// A fetch that is under way, with the mark by which its end is told.
#[derive(Drop)]
pub(crate) struct Marked {
    pub(crate) alloc: Global,
    pub(crate) mark: usize,
    pub(crate) timed: Timed,
}

impl Future for Marked {
    ghost use Rattle.std.specs.Prelude.{◌≤◌, IfOk, length};
    ghost use Rattle.scrape_client.specs.declared.fetching.TheConstants.{LONGEST_BODY};

    type Output = (usize, Result<Reply, Cause>);

    ghost can_poll = { λ m. ⟦<WhileMemory<Timeout<Exchange>> as Future>⟧.can_poll m.timed };

    ghost gives = { λ _ ended. IfOk ended.1 (λ reply. length reply.body ≤ LONGEST_BODY) };

    fn poll(&mut self, cx: &mut Context<'_>) -> Poll<(usize, Result<Reply, Cause>)> {
        match self.timed.poll(cx) {
            Poll::Ready(ended) => Poll::Ready((self.mark, fetched(self.alloc, came_to(ended)))),
            Poll::Pending => Poll::Pending,
        }
    }
}
