//! Fetches over HTTP that are under way at once, all on the calling thread.
ghost use Rattle.std.specs.Prelude.{◌≡◌, IfOk};
ghost use Rattle.futures.specs.Queued.{AllPollable, set_places};
ghost use Rattle.futures.specs.Task.{IsArmed, Keeps};
ghost use Rattle.futures.specs.Poll.{OnPending};

use crate::beginning::{deadline_of, timed_at};
use crate::fetching::ask_of;
use crate::looking::{Looked, Looking};
use crate::lookups::Lookups;
use crate::marked::Marked;
use futures::stream::FuturesUnordered;
use futures::task::{Context, Poll};
use futures::{Future, Stream};
use http_get::{Asker, Cause, FetchSeveral, Get, Next, address_of};
use std::alloc::AllocGlobal;
use std::io;
use std::net::{Net, SocketAddr};
use std::random::RandomSource;
use std::sync::{Arc, Wait};
use std::time::{Clock, Duration, Instant};
use tokio::runtime::{Handle, LocalRuntime};
use tokio::time::Sleep;

/// A device over HTTP/1.1 that has several fetches under way, each over a new connection. A name is looked up first. No redirect is followed.
#[derive(Drop)]
pub struct HyperFetches<R> {
    rt: R,
    limit: Duration,
    lookups: Arc<Lookups>,
}

/// The fetches that are under way for an asker.
#[derive(Drop)]
struct UnderWay<'a, R, A> {
    rt: &'a R,
    limit: Duration,
    handle: Handle,
    asker: &'a mut A,
    looking: Looking<'a>,
    fetches: FuturesUnordered<Marked>,
    pause: Option<Sleep>,
}

impl<R> HyperFetches<R> {
    /// A device that gives each fetch so much time, from the looking up of its name to the end of the body.
    pub fn new(rt: R, limit: Duration, lookups: Arc<Lookups>) -> HyperFetches<R> {
        HyperFetches { rt, limit, lookups }
    }
}

impl<R> FetchSeveral for HyperFetches<R>
where
    R: Wait + Clock + Net + RandomSource + AllocGlobal,
{
    fn fetch_for<A: Asker>(&self, asker: &mut A) -> io::Result<()> {
        let mut runtime = LocalRuntime::new(&self.rt)?;
        let ended = match self.under_way(&runtime, asker) {
            Ok(under_way) => match runtime.block_on(&self.rt, under_way) {
                Ok(ended) => ended,
                Err(e) => Err(e),
            },
            Err(e) => Err(e),
        };
        drop(runtime);
        ended
    }
}

impl<R> HyperFetches<R>
where
    R: Wait + Clock + Net + RandomSource + AllocGlobal,
{
    /// No fetch is under way yet.
    fn under_way<'a, A: Asker>(
        &'a self,
        runtime: &LocalRuntime,
        asker: &'a mut A,
    ) -> io::Result<UnderWay<'a, R, A>>
        ensures { IfOk result (λ u. AllPollable ⟦<Marked as Future>⟧.can_poll (set_places u.fetches)) }
    {
        let handle = runtime.handle().clone()?;
        match FuturesUnordered::new(self.rt.alloc()) {
            Ok(fetches) => Ok(UnderWay {
                rt: &self.rt,
                limit: self.limit,
                handle,
                asker,
                looking: Looking::begin(&self.rt, self.rt.alloc(), &self.lookups),
                fetches,
                pause: None,
            }),
            Err(refused) => {
                drop(handle);
                Err(refused.into())
            }
        }
    }
}

impl<R, A> UnderWay<'_, R, A>
where
    R: Wait + Clock + Net + RandomSource + AllocGlobal,
    A: Asker,
{
    /// Begins a fetch. One that cannot begin has come to that.
    fn begin(&mut self, mark: usize, get: Get) -> io::Result<()>
        requires { AllPollable ⟦<Marked as Future>⟧.can_poll (set_places self.old.fetches) }
        ensures { AllPollable ⟦<Marked as Future>⟧.can_poll (set_places self.new.fetches) }
    {
        let deadline = match deadline_of(self.rt, self.limit) {
            Ok(deadline) => deadline,
            Err(cause) => {
                drop(get);
                return self.tell(mark, cause);
            }
        };
        match address_of(get.address.as_str()) {
            Some(address) => {
                let begun = self.connect(mark, &get, deadline, SocketAddr::V4(address));
                drop(get);
                begun
            }
            None => self.look_up(mark, get, deadline),
        }
    }

    /// Has the name of a fetch looked up.
    fn look_up(&mut self, mark: usize, get: Get, deadline: Instant) -> io::Result<()>
        ensures { self.new.fetches ≡ self.old.fetches }
    {
        match self.looking.ask(self.rt, mark, get, deadline) {
            Ok(()) => Ok(()),
            Err(cause) => self.tell(mark, cause),
        }
    }

    /// Goes on with a fetch whose name was looked up.
    fn go_on(&mut self, looked: Looked) -> io::Result<()>
        requires { AllPollable ⟦<Marked as Future>⟧.can_poll (set_places self.old.fetches) }
        ensures { AllPollable ⟦<Marked as Future>⟧.can_poll (set_places self.new.fetches) }
    {
        let begun = match looked.came {
            Ok(address) => self.connect(looked.mark, &looked.get, looked.deadline, address),
            Err(cause) => self.tell(looked.mark, cause),
        };
        drop(looked);
        begun
    }

    /// Begins a fetch of the host at an address.
    fn connect(
        &mut self,
        mark: usize,
        get: &Get,
        deadline: Instant,
        address: SocketAddr,
    ) -> io::Result<()>
        requires { AllPollable ⟦<Marked as Future>⟧.can_poll (set_places self.old.fetches) }
        ensures { AllPollable ⟦<Marked as Future>⟧.can_poll (set_places self.new.fetches) }
    {
        let alloc = self.rt.alloc();
        let ask = ask_of(get, self.limit);
        match timed_at(self.rt, &self.handle, deadline, address, &ask) {
            Ok(timed) => self.push(Marked { alloc, mark, timed }),
            Err(cause) => self.tell(mark, cause),
        }
    }

    /// Another fetch is under way.
    fn push(&mut self, fetch: Marked) -> io::Result<()>
        requires fetch { ⟦<Marked as Future>⟧.can_poll fetch }
        requires fetches { AllPollable ⟦<Marked as Future>⟧.can_poll (set_places self.old.fetches) }
        ensures { AllPollable ⟦<Marked as Future>⟧.can_poll (set_places self.new.fetches) }
    {
        match self.fetches.push(fetch) {
            Ok(()) => Ok(()),
            Err(lost) => {
                drop(lost);
                Err(io::ErrorKind::OutOfMemory.into())
            }
        }
    }

    /// A fetch has come to this.
    fn tell(&mut self, mark: usize, cause: Cause) -> io::Result<()>
        ensures { self.new.fetches ≡ self.old.fetches }
    {
        self.asker.hear(mark, Err(cause));
        Ok(())
    }

    /// Waits for the next end, at most so long.
    fn wait(&mut self, time: Duration, cx: &mut Context<'_>) -> Poll<io::Result<()>>
        requires { AllPollable ⟦<Marked as Future>⟧.can_poll (set_places self.old.fetches) }
        ensures again { OnPending result (AllPollable ⟦<Marked as Future>⟧.can_poll (set_places self.new.fetches)) }
        ensures armed { OnPending result (IsArmed cx.new) }
        ensures kept { Keeps cx.old cx.new }
    {
        if self.fetches.is_empty() {
            return self.pause(time, cx);
        }
        match self.fetches.poll_next(cx) {
            Poll::Ready(Some((mark, fetched))) => {
                self.asker.hear(mark, fetched);
                cx.yield_now()
            }
            Poll::Ready(None) => Poll::Ready(Err(io::ErrorKind::UnexpectedEof.into())),
            Poll::Pending => self.pause(time, cx),
        }
    }

    /// Asks to be polled again after a pause.
    fn pause(&mut self, time: Duration, cx: &mut Context<'_>) -> Poll<io::Result<()>>
        requires { AllPollable ⟦<Marked as Future>⟧.can_poll (set_places self.old.fetches) }
        ensures again { OnPending result (AllPollable ⟦<Marked as Future>⟧.can_poll (set_places self.new.fetches)) }
        ensures armed { OnPending result (IsArmed cx.new) }
        ensures kept { Keeps cx.old cx.new }
    {
        let mut pause = match self.handle.time().sleep(self.rt, time) {
            Ok(pause) => pause,
            Err(e) => return Poll::Ready(Err(e)),
        };
        match pause.poll(cx) {
            Poll::Ready(_) => cx.yield_now(),
            Poll::Pending => {
                drop(self.pause.replace(pause));
                Poll::Pending
            }
        }
    }
}

impl<R, A> Future for UnderWay<'_, R, A>
where
    R: Wait + Clock + Net + RandomSource + AllocGlobal,
    A: Asker,
{
    ghost use Rattle.futures.specs.Queued.{AllPollable, set_places};

    type Output = io::Result<()>;

    ghost can_poll = { λ u. AllPollable ⟦<Marked as Future>⟧.can_poll (set_places u.fetches) };

    fn poll(&mut self, cx: &mut Context<'_>) -> Poll<io::Result<()>> {
        if let Some(looked) = self.looking.next(self.rt) {
            return match self.go_on(looked) {
                Ok(()) => cx.yield_now(),
                Err(e) => Poll::Ready(Err(e)),
            };
        }
        match self.asker.next() {
            Next::Ask { mark, get } => match self.begin(mark, get) {
                Ok(()) => cx.yield_now(),
                Err(e) => Poll::Ready(Err(e)),
            },
            Next::Wait(time) => self.wait(time, cx),
            Next::End => Poll::Ready(Ok(())),
        }
    }
}
