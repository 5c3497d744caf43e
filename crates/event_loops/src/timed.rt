//! A connection with its limits of time and its place.
ghost use Rattle.futures.specs.Poll.{OnPending};
ghost use Rattle.futures.specs.Task.{IsArmed, Keeps};

use crate::exchanges::Exchanges;
use crate::times::Times;
use futures::task::{Context, Poll};
use futures::{Future, ready};
use hyper::server::graceful::GracefulConnection;
use std::rc::Rc;
use std::time::{Clock, Duration, Instant};
use tokio::sync::{OwnedNotified, OwnedSemaphorePermit};
use tokio::time::Sleep;

/// What ends a connection.
#[derive(Drop)]
pub struct Limits<K> {
    pub clock: K,
    pub times: Times,
    pub exchanges: Rc<Exchanges>,
    /// Ready once the connection is to end.
    pub told: Option<OwnedNotified>,
    /// Ready once the connection has been idle, or an exchange has gone on, for too long.
    pub limit: Sleep,
    /// Its place among the connections of the server.
    pub place: OwnedSemaphorePermit,
}

/// Serves a connection until it is closed, and at most within its limits.
#[derive(Drop)]
pub struct Timed<C, K> {
    pub conn: C,
    pub limits: Limits<K>,
}

impl<K: Clock> Limits<K> {
    /// Whether the connection was woken since this was asked.
    fn is_told(&mut self, cx: &mut Context<'_>) -> bool
        ensures { Keeps cx.old cx.new }
    {
        let Some(told) = &mut self.told else {
            return false;
        };
        if told.poll(cx).is_pending() {
            return false;
        }
        self.told = self.exchanges.told().ok();
        true
    }

    /// Whether a connection that was woken ends, since the server does. One that is new serves an exchange before, if that comes at once.
    fn ends(&mut self) -> bool {
        if !self.exchanges.is_ending() {
            return false;
        }
        self.exchanges.end_with_next();
        let was_used = self.exchanges.was_used();
        let millis = if was_used {
            self.times.last
        } else {
            self.times.linger
        };
        self.set_limit_to(millis);
        was_used
    }

    /// The limit begins anew where the connection began to be idle, or ceased to be.
    fn set_limit(&mut self) {
        if !self.exchanges.has_changed() {
            return;
        }
        self.set_limit_to(self.limit_now());
    }

    /// How long the connection may go on as it is now, in milliseconds.
    fn limit_now(&self) -> u64 {
        if self.exchanges.is_ending() {
            self.times.last
        } else if self.exchanges.is_busy() {
            self.times.request
        } else {
            self.times.idle
        }
    }

    /// The limit is so many milliseconds away.
    fn set_limit_to(&mut self, millis: u64) {
        if let Ok(now) = Instant::now(&self.clock)
            && let Some(deadline) = now.checked_add(Duration::from_millis(millis))
        {
            self.limit.reset(deadline);
        }
    }

    /// Ready once the limit is reached.
    fn is_over(&mut self, cx: &mut Context<'_>) -> Poll<()>
        ensures registered { OnPending result (IsArmed cx.new) }
        ensures kept { Keeps cx.old cx.new }
    {
        let _ = ready!(self.limit.poll(cx));
        self.exchanges.finish();
        Poll::Ready(())
    }

    /// Whether the exchange that has begun since this was asked is the last.
    fn is_last(&self) -> bool {
        self.exchanges.has_begun() && self.exchanges.is_last()
    }
}

impl<C: GracefulConnection + Future<Output = T>, K: Clock + Drop, T: Drop> Future for Timed<C, K> {
    type Output = ();

    ghost can_poll = { λ t. C.can_poll t.conn };

    fn poll(&mut self, cx: &mut Context<'_>) -> Poll<()> {
        let is_told = self.limits.is_told(cx);
        if is_told && self.limits.exchanges.gives_place() {
            self.limits.exchanges.finish();
            return Poll::Ready(());
        }
        if is_told && self.limits.ends() {
            self.conn.graceful_shutdown();
        }
        if self.conn.poll(cx).is_ready() {
            self.limits.exchanges.finish();
            return Poll::Ready(());
        }
        if self.limits.is_last() {
            self.conn.graceful_shutdown();
            self.limits.exchanges.tell();
        }
        self.limits.set_limit();
        self.limits.is_over(cx)
    }
}
