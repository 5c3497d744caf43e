//! A service that tells when an exchange begins, and when its answer is given.
ghost use Rattle.std.specs.Prelude.{◌≡◌};

use crate::exchanges::Exchanges;
use futures::Future;
use futures::task::{Context, Poll};
use hyper::service::Service;
use std::rc::Rc;

/// A service that tells when an exchange begins.
#[derive(Drop)]
pub struct ExchangeService<S> {
    inner: S,
    exchanges: Rc<Exchanges>,
}

/// A reply. The last one of a connection waits until the connection was told, so that its head says `connection: close`.
#[derive(Drop)]
pub struct ExchangeReply<F> {
    reply: F,
    is_last: bool,
    exchanges: Option<Rc<Exchanges>>,
}

impl<F> ExchangeReply<F> {
    fn waits(&self) -> bool {
        match &self.exchanges {
            Some(exchanges) => self.is_last && !exchanges.is_told(),
            None => false,
        }
    }

    fn answer(&self) {
        if let Some(exchanges) = &self.exchanges {
            exchanges.answer();
        }
    }
}

impl<S> ExchangeService<S> {
    /// Tells these exchanges of each call.
    pub fn new(inner: S, exchanges: Rc<Exchanges>) -> ExchangeService<S>
        ensures { result.inner ≡ inner }
    {
        ExchangeService { inner, exchanges }
    }
}

impl<Q, S: Service<Q>> Service<Q> for ExchangeService<S> {
    type Response = S::Response;

    type Error = S::Error;

    type Future = ExchangeReply<S::Future>;

    ghost can_call = { λ p. S.can_call p.inner };

    ghost calls = { λ p req paused. S.calls p.inner req paused.reply };

    fn call(&self, req: Q) -> ExchangeReply<S::Future> {
        let is_last = self.exchanges.begin();
        let reply = self.inner.call(req);
        let exchanges = self.exchanges.clone().ok();
        ExchangeReply {
            reply,
            is_last,
            exchanges,
        }
    }
}

impl<F: Future> Future for ExchangeReply<F> {
    type Output = F::Output;

    ghost can_poll = { λ p. F.can_poll p.reply };

    ghost gives = { λ p. F.gives p.reply };

    fn poll(&mut self, cx: &mut Context<'_>) -> Poll<F::Output> {
        if self.waits() {
            return cx.yield_now();
        }
        let polled = self.reply.poll(cx);
        if polled.is_ready() {
            self.answer();
        }
        polled
    }
}
