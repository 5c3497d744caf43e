//! The service that a connection calls for each request.
ghost use Rattle.std.specs.Prelude.{◌≡◌, [], IfOk, IsSome};
ghost use Rattle.std.specs.Arc.{arc_value};
ghost use Rattle.http.specs.Request as request;
ghost use Rattle.http_uri.specs.Uri.{uri_path, uri_query};
ghost use Rattle.sd_routes.specs.Asks.{asked};
ghost use Rattle.admission.specs.Admission.{let_in};
ghost use Rattle.sd_routes.specs.Gives.{Gives};
ghost use Rattle.sd_server.specs.Entries.{Leads, OnceKept};
ghost use Rattle.sd_server.specs.Says.{Says};
ghost use Rattle.sd_server.specs.Replies.{Begins, BeginsWith, CanRead, IsReplyTo};
ghost use Rattle.sd_server.specs.Spans.{Moves};
ghost use Rattle.sd_routes.specs.declared.request_error.RequestError.TheVariants.{Memory};
ghost use Rattle.sd_server.specs.declared.entry.Entry.TheVariants as entry;
ghost use Rattle.sd_server.specs.declared.reply.Stage.TheVariants as stage;
ghost use Rattle.sd_routes.specs.declared.responding.Said.TheVariants.{Refused};

use crate::entry::Entry;
use crate::handler::Handler;
use crate::reply::Reply;
use crate::seen::Seen;
use bytes::Bytes;
use event_loops::Gate;
use http::request::Parts;
use http::{Request, Response};
use http_body_util::Full;
use hyper::body::Incoming;
use hyper::service::Service;
use kept_journal::JournalName;
use sd_responses::{Manner, wants_document};
use sd_routes::{Ask, RequestError, Route, Routes, Said, route};
use std::alloc::{AllocError, Global};
use std::net::SocketAddr;
use std::sync::ledger::Ledger;
use std::sync::{Arc, Wait};
use std::time::{Clock, Instant};
use tokio::time::Handle;

/// Answers requests with what a desk says.
#[derive(Drop)]
pub struct AllocatorService<R, L: Ledger, B: Ledger, N: JournalName> {
    pub handler: Handler<R, L, B, N>,
    /// The table of paths.
    pub routes: Arc<Routes>,
}

/// What a head comes to: something that is said, to a request of this route, or a body to be read.
#[derive(Drop)]
enum Begun<N: JournalName> {
    Told(Entry<N>, Route),
    Reads(Ask),
}

impl<R: Wait + Clock + Copy, L: Ledger, B: Ledger, N: JournalName> AllocatorService<R, L, B, N> {
    /// Another for the same desk, and for who asks.
    pub(crate) fn of(
        handler: &Handler<R, L, B, N>,
        routes: &Arc<Routes>,
        peer: Option<SocketAddr>,
    ) -> Result<AllocatorService<R, L, B, N>, AllocError>
        ensures same { IfOk result (λ s. (arc_value s.handler.pages ≡ arc_value handler.now.pages) × (IsSome handler.now.kept → IsSome s.handler.kept)) }
        ensures epoch { IfOk result (λ s. s.handler.epoch ≡ handler.now.epoch) }
    {
        let routes = Arc::try_clone(routes)?;
        match handler.another() {
            Ok(mut handler) => {
                handler.peer = peer;
                Ok(AllocatorService { handler, routes })
            }
            Err(error) => {
                drop(routes);
                Err(error)
            }
        }
    }

    /// One for the same desk, with the timers and the gate of a loop.
    pub(crate) fn of_loop(
        handler: &Handler<R, L, B, N>,
        time: &Handle,
        gate: &Arc<Gate>,
    ) -> Result<AllocatorService<R, L, B, N>, AllocError>
        ensures same { IfOk result (λ s. (arc_value s.handler.pages ≡ arc_value handler.now.pages) × (IsSome handler.now.kept → IsSome s.handler.kept)) }
        ensures epoch { IfOk result (λ s. s.handler.epoch ≡ handler.now.epoch) }
    {
        let routes = shared_routes(handler.alloc)?;
        match handler.of_loop(time, gate) {
            Ok(handler) => Ok(AllocatorService { handler, routes }),
            Err(error) => {
                drop(routes);
                Err(error)
            }
        }
    }

    fn begin(&self, seen: &mut Seen<N>, head: &Parts) -> Begun<N>
        ensures moves { Moves seen.old seen.new }
        ensures begins { Begins self.now.handler.kept N.keeps seen.new (arc_value self.now.handler.pages) (let_in (arc_value self.now.handler.doors) head.now.headers (asked head.now.method (uri_path head.now.uri) (uri_query head.now.uri))) result }
    {
        match self.came(head) {
            Ok(ask) => self.begin_with(seen, ask, wants_document(&head.headers)),
            Err(error) => {
                seen.now();
                Begun::Told(Entry::Now(Said::Refused(error)), Route::NoRoute)
            }
        }
    }

    /// What a head asks for, where it is let in.
    fn came(&self, head: &Parts) -> Result<Ask, RequestError>
        ensures { Gives result (let_in (arc_value self.now.handler.doors) head.now.headers (asked head.now.method (uri_path head.now.uri) (uri_query head.now.uri))) }
    {
        match route(&self.routes, self.handler.alloc, &head.method, &head.uri) {
            Ok(ask) => match self.handler.doors.refusal(Some(&ask), &head.headers) {
                Some(error) => Err(error),
                None => Ok(ask),
            },
            Err(RequestError::Memory) => Err(RequestError::Memory),
            Err(missing) => match self.handler.doors.refusal(None, &head.headers) {
                Some(error) => Err(error),
                None => Err(missing),
            },
        }
    }

    /// Of a request whose body is not read.
    fn without_memory<I: Drop>(&self, seen: Seen<N>) -> Reply<R, L, B, N, I>
        ensures can_read { CanRead result }
        ensures stage { result.stage ≡ stage.Told (entry.Now (Refused Memory)) }
        ensures seen { result.seen ≡ seen }
    {
        let entry = Entry::Now(Said::Refused(RequestError::Memory));
        Reply::of(
            self.handler.alloc,
            None,
            None,
            seen,
            entry,
            Manner::plain(true),
        )
    }

    /// Of a request of a route that came then, and to which this is told or will be.
    fn told<I: Drop>(
        &self,
        begun: Option<Instant>,
        manner: Manner,
        seen: Seen<N>,
        entry: Entry<N>,
        route: Route,
    ) -> Reply<R, L, B, N, I>
        ensures can_read { CanRead result }
        ensures stage { result.stage ≡ stage.Told entry }
        ensures seen { result.seen ≡ seen }
    {
        let counter = self.handler.counter(route, begun);
        let tags = self.handler.tags_for(&entry);
        Reply::of(self.handler.alloc, counter, tags, seen, entry, manner)
    }

    fn begin_with(&self, seen: &mut Seen<N>, ask: Ask, for_people: bool) -> Begun<N>
        ensures begins { BeginsWith self.now.handler.kept N.keeps seen.new (arc_value self.now.handler.pages) ask result }
        ensures moves { Moves seen.old seen.new }
    {
        match ask {
            Ask::Join | Ask::Drain(_) | Ask::SetLimits(_) | Ask::Report => {
                seen.now();
                Begun::Reads(ask)
            }
            _ => Begun::Told(self.entry(seen, &ask, for_people), ask.route()),
        }
    }

    /// What a request without a body is told, or what that waits for: of what has a page for people, that page where it is asked for.
    #[tactic(auto, using(crate::proofs::SpanLemmas::moves_trans))]
    fn entry(&self, seen: &mut Seen<N>, ask: &Ask, for_people: bool) -> Entry<N>
        ensures says { Leads N.keeps (Says seen.new (arc_value self.now.handler.pages) ask.now []) result }
        ensures kept { Leads N.keeps (OnceKept self.now.handler.kept N.keeps seen.new) result }
        ensures moves { Moves seen.old seen.new }
    {
        if !for_people {
            return self.handler.entry(seen, ask, b"");
        }
        match self.handler.document(seen, ask) {
            Some(said) => self.handler.once_kept(seen, said),
            None => self.handler.entry(seen, ask, b""),
        }
    }
}

impl<R: Wait + Clock + Copy + Drop, L: Ledger, B: Ledger, N: JournalName, I: Drop> Service<
    Request<Incoming<I>>,
> for AllocatorService<R, L, B, N> {
    type Response = Response<Full<Bytes>>;

    type Error = AllocError;

    type Future = Reply<R, L, B, N, I>;

    ghost calls = { λ s req future. IsReplyTo N.opening N.keeps s.handler.kept (arc_value s.handler.pages)
        (let_in (arc_value s.handler.doors) (request.head_of req).headers
        (asked (request.head_of req).method (uri_path (request.head_of req).uri) (uri_query (request.head_of req).uri))) future };

    fn call(&self, req: Request<Incoming<I>>) -> Reply<R, L, B, N, I> {
        let begun = self.handler.now();
        let (head, body) = req.into_parts();
        let mut seen = self.handler.seen();
        match self.begin(&mut seen, &head) {
            Begun::Told(entry, route) => {
                let manner = Manner::of(&head.headers);
                drop((head, body));
                self.told(begun, manner, seen, entry, route)
            }
            Begun::Reads(ask) => {
                drop(head);
                match self.handler.another() {
                    Ok(handler) => Reply::to(handler, seen, ask, body),
                    Err(_) => {
                        drop((ask, body));
                        self.without_memory(seen)
                    }
                }
            }
        }
    }
}

/// What a path means, for those who serve it.
pub(crate) fn shared_routes(alloc: Global) -> Result<Arc<Routes>, AllocError> {
    Ok(Arc::new(alloc, Routes::open(alloc)?)?)
}
