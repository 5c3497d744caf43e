//! A connection that tells when bytes come and go, and whose end lingers.
ghost use Rattle.std.specs.Prelude.{⊤};
ghost use Rattle.futures.specs.Poll.{OnPending};
ghost use Rattle.futures.specs.Task.{IsArmed, Keeps};

use crate::exchanges::Exchanges;
use futures::task::{Context, Poll};
use futures::{Future, ready};
use hyper::rt::Timer;
use std::io;
use std::rc::Rc;
use std::time::Duration;
use tokio::io::{AsyncRead, AsyncWrite};
use tokio::time::Sleep;

/// How much is thrown away at once, and for how long at most where the server ends.
const PIECE_BYTES: usize = 16_384;

const LAST_MILLIS: u64 = 100;

/// A connection of a server.
#[derive(Drop)]
pub struct Socket<I, T> {
    inner: I,
    timer: T,
    exchanges: Rc<Exchanges>,
    linger: u64,
    /// When it no longer lingers, once it does.
    ending: Option<Sleep>,
    is_shut: bool,
}

impl<I, T: Timer> Socket<I, T> {
    pub fn new(inner: I, timer: T, exchanges: Rc<Exchanges>, linger: u64) -> Socket<I, T> {
        Socket {
            inner,
            timer,
            exchanges,
            linger,
            ending: None,
            is_shut: false,
        }
    }

    /// The lingering begins.
    fn begin_to_linger(&mut self) {
        self.is_shut = true;
        let millis = if self.exchanges.is_ending() {
            LAST_MILLIS
        } else {
            self.linger
        };
        if let Some(now) = self.timer.now()
            && let Some(deadline) = now.checked_add(Duration::from_millis(millis))
            && let Ok(sleep) = self.timer.sleep_until(deadline)
        {
            self.ending = sleep;
        }
    }
}

impl<I: AsyncRead, T: Timer> Socket<I, T> {
    /// Throws one piece away. Whether there may be more.
    fn throws_away(&mut self, cx: &mut Context<'_>) -> Poll<bool>
        ensures registered { OnPending result (IsArmed cx.new) }
        ensures kept { Keeps cx.old cx.new }
    {
        let mut piece = [0u8; PIECE_BYTES];
        match self.inner.poll_read(cx, &mut piece) {
            Poll::Ready(Ok(count)) => Poll::Ready(count > 0),
            Poll::Ready(Err(_)) => Poll::Ready(false),
            Poll::Pending => Poll::Pending,
        }
    }

    /// Ready once nothing more comes, or the time is over.
    fn linger(&mut self, cx: &mut Context<'_>) -> Poll<()>
        ensures registered { OnPending result (IsArmed cx.new) }
        ensures kept { Keeps cx.old cx.new }
    {
        let Some(ending) = &mut self.ending else {
            return Poll::Ready(());
        };
        if ending.poll(cx).is_ready() {
            return Poll::Ready(());
        }
        match self.throws_away(cx) {
            Poll::Ready(true) => cx.yield_now(),
            Poll::Ready(false) => Poll::Ready(()),
            Poll::Pending => Poll::Pending,
        }
    }
}

impl<I: AsyncRead, T: Timer> AsyncRead for Socket<I, T> {
    ghost needs = { λ s. I.needs s.inner };

    ghost reads = { λ _ _ _. ⊤ };

    ghost is_at_end = { λ _. ⊤ };

    ghost reads_nothing = { λ _. tt };

    ghost reads_in_order = { λ _ _ _ _ _ _ _. tt };

    fn poll_read(&mut self, cx: &mut Context<'_>, buf: &mut [u8]) -> Poll<io::Result<usize>> {
        let read = self.inner.poll_read(cx, buf);
        if let Poll::Ready(Ok(_)) = &read {
            self.exchanges.hear();
        }
        read
    }
}

impl<I: AsyncRead + AsyncWrite, T: Timer> AsyncWrite for Socket<I, T> {
    ghost writes = { λ _ _ _. ⊤ };

    ghost writes_nothing = { λ _. tt };

    ghost writes_in_order = { λ _ _ _ _ _ _ _. tt };

    fn poll_write(&mut self, cx: &mut Context<'_>, buf: &[u8]) -> Poll<io::Result<usize>> {
        // An answer that is still being written is not over, though its head was flushed.
        self.exchanges.hear();
        self.inner.poll_write(cx, buf)
    }

    fn poll_flush(&mut self, cx: &mut Context<'_>) -> Poll<io::Result<()>> {
        let flushed = ready!(self.inner.poll_flush(cx));
        self.exchanges.flush();
        Poll::Ready(flushed)
    }

    // What a peer still sends is thrown away for a while, so that it reads its answer before it learns of the close.
    fn poll_shutdown(&mut self, cx: &mut Context<'_>) -> Poll<io::Result<()>> {
        if !self.is_shut {
            let _ = ready!(self.inner.poll_shutdown(cx));
            self.begin_to_linger();
        }
        ready!(self.linger(cx));
        Poll::Ready(Ok(()))
    }
}
