//! A reply: the response to a request, once its body has come and what it rests on is kept.
ghost use Rattle.std.specs.Prelude.{◌≡◌, ◌⊎◌, IfOk};
ghost use Rattle.std.specs.Arc.{arc_value};
ghost use Rattle.sd_routes.specs.declared.request_error.RequestError.TheVariants.{Shape, Memory};
ghost use Rattle.sd_routes.specs.declared.responding.Said.TheVariants.{Refused};
ghost use Rattle.sd_responses.specs.Writing.{Writes};
ghost use Rattle.sd_server.specs.Entries.{Leads, OnceKept};
ghost use Rattle.sd_server.specs.Replies.{CanRead, Gives, Reads, SaysRead};
ghost use Rattle.sd_server.specs.Spans.{Moves};
ghost use Rattle.sd_server.specs.declared.reply.Stage.TheVariants as stage;

use crate::counter::Counter;
use crate::entry::Entry;
use crate::handler::Handler;
use crate::seen::Seen;
use admission::LONGEST_BODY;
use bytes::Bytes;
use futures::task::{Context, Poll};
use futures::{Future, ready};
use http::Response;
use http_body_util::combinators::Collect;
use http_body_util::{BodyExt, Collected, Full, Limited, LimitedError};
use hyper::body::Incoming;
use kept_journal::JournalName;
use sd_responses::{ListTags, Manner};
use sd_routes::{Ask, RequestError, Said};
use std::alloc::{AllocError, Global};
use std::sync::Wait;
use std::sync::ledger::Ledger;
use std::time::Clock;

/// The response to a request, once its body has come and what it rests on is kept.
#[derive(Drop)]
pub struct Reply<R, L: Ledger, B: Ledger, N: JournalName, I> {
    alloc: Global,
    /// What has been seen of the journal. What is said is of it.
    seen: Seen<N>,
    stage: Stage<R, L, B, N, I>,
    manner: Manner,
    /// What counts the request once it is answered.
    counter: Option<Counter<R>>,
    /// The entity tags that are known.
    tags: Option<ListTags<R>>,
}

#[derive(Drop)]
enum Stage<R, L: Ledger, B: Ledger, N: JournalName, I> {
    Told(Entry<N>),
    Reading(Reading<R, L, B, N, I>),
}

/// A request whose body comes.
#[derive(Drop)]
struct Reading<R, L: Ledger, B: Ledger, N: JournalName, I> {
    handler: Handler<R, L, B, N>,
    ask: Ask,
    body: Collect<Limited<Incoming<I>>>,
}

impl<R, L: Ledger, B: Ledger, N: JournalName, I: Drop> Reply<R, L, B, N, I> {
    /// A reply to a request whose body is not read.
    pub(crate) fn of(
        alloc: Global,
        counter: Option<Counter<R>>,
        tags: Option<ListTags<R>>,
        seen: Seen<N>,
        entry: Entry<N>,
        manner: Manner,
    ) -> Reply<R, L, B, N, I>
        ensures can_read { CanRead result }
        ensures stage { result.stage ≡ stage.Told entry }
        ensures seen { result.seen ≡ seen }
    {
        Reply {
            alloc,
            seen,
            stage: Stage::Told(entry),
            manner,
            counter,
            tags,
        }
    }
}

impl<R: Wait + Clock + Copy, L: Ledger, B: Ledger, N: JournalName, I: Drop> Reply<R, L, B, N, I> {
    /// A reply to a request with this body.
    pub(crate) fn to(
        handler: Handler<R, L, B, N>,
        seen: Seen<N>,
        ask: Ask,
        body: Incoming<I>,
    ) -> Reply<R, L, B, N, I>
        ensures can_read { CanRead result }
        ensures stage { Reads handler.kept (arc_value handler.pages) ask result.stage }
        ensures seen { result.seen ≡ seen }
    {
        let alloc = handler.alloc;
        let counter = handler.counter(ask.route(), handler.now());
        let body = Limited::new(body, LONGEST_BODY as usize).collect(alloc);
        Reply {
            alloc,
            seen,
            stage: Stage::Reading(Reading { handler, ask, body }),
            manner: Manner::plain(false),
            counter,
            tags: None,
        }
    }

    /// The response that says it. The request is counted.
    fn answered(&self, said: Said) -> Result<Response<Full<Bytes>>, AllocError>
        ensures { IfOk result (Writes self.now.manner said) }
    {
        let written = self.manner.written(self.alloc, &self.tags, said);
        self.count(&written);
        written
    }

    /// The request is counted by the status of its response, if there is one.
    fn count(&self, written: &Result<Response<Full<Bytes>>, AllocError>) {
        if let (Some(counter), Ok(response)) = (&self.counter, written) {
            counter.count(response.status());
        }
    }
}

impl<R: Wait + Clock + Copy, L: Ledger, B: Ledger, N: JournalName, I: Drop> Reading<R, L, B, N, I> {
    /// What is said once the body has come, or what that waits for.
    fn entry(
        &self,
        seen: &mut Seen<N>,
        read: Result<Collected, LimitedError<hyper::Error>>,
    ) -> Entry<N>
        ensures says { Leads N.keeps (SaysRead seen.new (arc_value self.now.handler.pages) self.now.ask) result }
        ensures kept { Leads N.keeps (OnceKept self.now.handler.kept N.keeps seen.new) result }
        ensures moves { Moves seen.old seen.new }
    {
        match read {
            Ok(collected) => self.entry_of(seen, collected),
            Err(LimitedError::LengthLimit) => {
                seen.now();
                refused(RequestError::TooLong)
            }
            Err(LimitedError::Body(error)) => {
                seen.now();
                refused(unread(&error))
            }
        }
    }

    fn entry_of(&self, seen: &mut Seen<N>, collected: Collected) -> Entry<N>
        ensures says { Leads N.keeps (SaysRead seen.new (arc_value self.now.handler.pages) self.now.ask) result }
        ensures kept { Leads N.keeps (OnceKept self.now.handler.kept N.keeps seen.new) result }
        ensures moves { Moves seen.old seen.new }
    {
        match collected.to_bytes() {
            Ok(bytes) => self.handler.entry(seen, &self.ask, bytes.as_slice()),
            Err(_) => {
                seen.now();
                refused(RequestError::Memory)
            }
        }
    }
}

fn refused<N: JournalName>(error: RequestError) -> Entry<N>
    ensures { Leads N.keeps (λ said. said ≡ Refused error) result }
{
    Entry::Now(Said::Refused(error))
}

/// Why a body that was not read is refused.
fn unread(error: &hyper::Error) -> RequestError
    ensures { (result ≡ Shape) ⊎ (result ≡ Memory) }
{
    if error.is_out_of_memory() {
        RequestError::Memory
    } else {
        RequestError::Shape
    }
}

impl<R: Wait + Clock + Copy + Drop, L: Ledger, B: Ledger, N: JournalName, I: Drop> Future
    for Reply<R, L, B, N, I> {
    type Output = Result<Response<Full<Bytes>>, AllocError>;

    ghost can_poll = { CanRead };

    ghost gives = { Gives N.keeps };

    fn poll(&mut self, cx: &mut Context<'_>) -> Poll<Result<Response<Full<Bytes>>, AllocError>> {
        match &mut self.stage {
            Stage::Told(entry) => {
                let said = ready!(entry.poll(cx));
                Poll::Ready(self.answered(said))
            }
            Stage::Reading(reading) => {
                let read = ready!(reading.body.poll(cx));
                let entry = reading.entry(&mut self.seen, read);
                drop(std::mem::replace(&mut self.stage, Stage::Told(entry)));
                cx.yield_now()
            }
        }
    }
}
