//! A future that ends where memory does.
ghost use Rattle.std.specs.Prelude.{◌≡◌, IfOk};

use futures::Future;
use futures::task::{Context, Poll};
use std::alloc::{AllocError, Global};

/// Gives what a future gives, or an error where there is no memory. Sockets and timers that find none to wait with ask to be polled again
/// at once, so that the wait would be busy, and without an end where no timer was ever set.
#[derive(Drop)]
pub(crate) struct WhileMemory<F> {
    alloc: Global,
    future: F,
}

impl<F> WhileMemory<F> {
    pub(crate) fn new(alloc: Global, future: F) -> WhileMemory<F>
        ensures { result.future ≡ future }
    {
        WhileMemory { alloc, future }
    }
}

impl<F: Future> Future for WhileMemory<F> {
    type Output = Result<F::Output, AllocError>;

    ghost can_poll = { λ w. F.can_poll w.future };

    ghost needs = { λ w. F.needs w.future };

    ghost gives = { λ w r. IfOk r (F.gives w.future) };

    fn poll(&mut self, cx: &mut Context<'_>) -> Poll<Result<F::Output, AllocError>> {
        if let Err(e) = Vec::<u8>::with_capacity(self.alloc, 1) {
            return Poll::Ready(Err(e));
        }
        match self.future.poll(cx) {
            Poll::Ready(output) => Poll::Ready(Ok(output)),
            Poll::Pending => Poll::Pending,
        }
    }
}
