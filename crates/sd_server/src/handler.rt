//! What a request is handled with.
ghost use Rattle.std.specs.Prelude.{◌≡◌, IfOk, IsSome};
ghost use Rattle.std.specs.Arc.{arc_value};
ghost use Rattle.sd_server.specs.Spans.{Moves, Span};
ghost use Rattle.sd_server.specs.Named.{AreNamed};
ghost use Rattle.sd_server.specs.Entries.{Leads, OnceKept};
ghost use Rattle.sd_server.specs.Says.{IsAtOnce, IsPlain, Says, SaysCopy, SaysIn, SaysPage, SaysRefused};

use crate::counter::Counter;
use crate::entry::{Entry, Reload};
use crate::handler_parts::HandlerParts;
use crate::list_texts::ListTexts;
use crate::own_list::OwnList;
use crate::own_loop::OwnLoop;
use crate::seen::Seen;
use admission::Admission;
use alloc_desk::{Desk, Pass, shared_desk};
use allocation_core::Event;
use event_loops::Gate;
use kept_journal::{JournalName, Kept};
use lists::{Plain, Text};
use sd_responses::ListTags;
use sd_routes::{Ask, Notice, RequestError, Route, Said, Wanted, event_of, misshapen_member};
use service_state::{ConfigPages, ServiceState};
use std::alloc::{AllocError, Global};
use std::net::SocketAddr;
use std::sync::ledger::Ledger;
use std::sync::{Arc, Mutex, Wait};
use std::time::{Clock, Instant};
use tokio::time::Handle;

/// What a request is handled with: the runtime's handle, the desk, a pass of it and the configuration's pages. The jobs of the allocator that the desk
/// was opened with are those of the configuration (`are_named`).
#[derive(Drop)]
pub struct Handler<R, L: Ledger, B: Ledger, N: JournalName> {
    pub rt: R,
    pub alloc: Global,
    pub desk: Arc<Desk<L, B, N>>,
    pub pass: Arc<Mutex<Pass<L, B, N>>>,
    pub pages: Arc<ConfigPages>,
    /// The handlers of a loop have a reference of their own, so that loops do not count one together.
    pub state: Arc<Arc<ServiceState>>,
    /// How much of the journal is kept, where it is to be kept before an answer is given.
    pub kept: Option<Arc<Kept<N>>>,
    /// What changes with each renewal and each new journal. A report that names another one is refused.
    pub epoch: u64,
    /// The texts of the lists that were taken.
    pub texts: Arc<ListTexts<N>>,
    /// Who may ask for what.
    pub doors: Arc<Admission>,
    /// Who asks, where that is known.
    pub peer: Option<SocketAddr>,
    /// What it has of its loop, where it is one's.
    pub(crate) own_loop: Option<Arc<OwnLoop>>,
    /// A list that this connection was told, where it is kept.
    pub(crate) last: Mutex<Option<OwnList<N>>>,
    ghost named: { AreNamed (arc_value pages).names N.opening.fleet.jobs },
}

impl<R: Copy, L: Ledger, B: Ledger, N: JournalName> Handler<R, L, B, N> {
    /// Over a desk, with a pass of it. It is not known yet who asks.
    pub fn over(
        rt: R,
        alloc: Global,
        parts: HandlerParts<N>,
        desk: Desk<L, B, N>,
        pass: Pass<L, B, N>,
    ) -> Result<Handler<R, L, B, N>, AllocError>
        requires { AreNamed (arc_value parts.pages).names N.opening.fleet.jobs }
        ensures { IfOk result (λ h. h.kept ≡ parts.kept) }
    {
        let state = match shared_state(alloc, &parts.state) {
            Ok(state) => state,
            Err(error) => {
                drop((parts, desk, pass));
                return Err(error);
            }
        };
        match shared_desk(alloc, desk, pass) {
            Ok((desk, pass)) => Ok(Handler {
                rt,
                alloc,
                desk,
                pass,
                pages: parts.pages,
                state,
                kept: parts.kept,
                epoch: parts.epoch,
                texts: parts.texts,
                doors: parts.doors,
                peer: None,
                own_loop: None,
                last: Mutex::new(None),
            }),
            Err(error) => {
                drop((parts, state));
                Err(error)
            }
        }
    }
}

impl<R: Wait + Clock + Copy, L: Ledger, B: Ledger, N: JournalName> Handler<R, L, B, N> {
    /// Another for the same desk and the same pass.
    pub fn another(&self) -> Result<Handler<R, L, B, N>, AllocError>
        ensures same { IfOk result (λ h. (arc_value h.pages ≡ arc_value self.now.pages) × (IsSome self.now.kept → IsSome h.kept)) }
        ensures epoch { IfOk result (λ h. h.epoch ≡ self.now.epoch) }
    {
        let state = Arc::try_clone(&self.state)?;
        match self.same_loop() {
            Ok(own_loop) => self.with(state, own_loop),
            Err(error) => {
                drop(state);
                Err(error)
            }
        }
    }

    /// Another for the same desk and the same pass, with these of a loop.
    fn with(
        &self,
        state: Arc<Arc<ServiceState>>,
        own_loop: Option<Arc<OwnLoop>>,
    ) -> Result<Handler<R, L, B, N>, AllocError>
        ensures same { IfOk result (λ h. (arc_value h.pages ≡ arc_value self.now.pages) × (IsSome self.now.kept → IsSome h.kept)) }
        ensures epoch { IfOk result (λ h. h.epoch ≡ self.now.epoch) }
    {
        let (desk, pass, pages) = match self.same_desk() {
            Ok(same) => same,
            Err(error) => {
                drop((state, own_loop));
                return Err(error);
            }
        };
        match self.same_texts() {
            Ok((kept, texts, doors)) => Ok(Handler {
                rt: self.rt,
                alloc: self.alloc,
                desk,
                pass,
                pages,
                state,
                kept,
                epoch: self.epoch,
                texts,
                doors,
                peer: self.peer,
                own_loop,
                last: Mutex::new(None),
            }),
            Err(error) => {
                drop((state, own_loop, desk, pass, pages));
                Err(error)
            }
        }
    }

    fn same_desk(
        &self,
    ) -> Result<
        (
            Arc<Desk<L, B, N>>,
            Arc<Mutex<Pass<L, B, N>>>,
            Arc<ConfigPages>,
        ),
        AllocError,
    >
        ensures { IfOk result (λ r. arc_value r.2 ≡ arc_value self.now.pages) }
    {
        let desk = Arc::try_clone(&self.desk)?;
        let pass = match Arc::try_clone(&self.pass) {
            Ok(pass) => pass,
            Err(error) => {
                drop(desk);
                return Err(error);
            }
        };
        match Arc::try_clone(&self.pages) {
            Ok(pages) => Ok((desk, pass, pages)),
            Err(error) => {
                drop((desk, pass));
                Err(error)
            }
        }
    }

    fn same_texts(
        &self,
    ) -> Result<(Option<Arc<Kept<N>>>, Arc<ListTexts<N>>, Arc<Admission>), AllocError>
        ensures { IfOk result (λ r. IsSome self.now.kept → IsSome r.0) }
    {
        let kept = Kept::shared(&self.kept)?;
        let texts = match Arc::try_clone(&self.texts) {
            Ok(texts) => texts,
            Err(error) => {
                drop(kept);
                return Err(error);
            }
        };
        match Arc::try_clone(&self.doors) {
            Ok(doors) => Ok((kept, texts, doors)),
            Err(error) => {
                drop((kept, texts));
                Err(error)
            }
        }
    }

    /// Another for the same desk and the same pass, with the timers and the gate of a loop.
    pub(crate) fn of_loop(
        &self,
        time: &Handle,
        gate: &Arc<Gate>,
    ) -> Result<Handler<R, L, B, N>, AllocError>
        ensures same { IfOk result (λ h. (arc_value h.pages ≡ arc_value self.now.pages) × (IsSome self.now.kept → IsSome h.kept)) }
        ensures epoch { IfOk result (λ h. h.epoch ≡ self.now.epoch) }
    {
        let state = shared_state(self.alloc, &*self.state)?;
        match OwnLoop::shared(self.alloc, time, gate) {
            Ok(own_loop) => self.with(state, Some(own_loop)),
            Err(error) => {
                drop(state);
                Err(error)
            }
        }
    }

    /// What it has of its loop once more, where it is one's.
    fn same_loop(&self) -> Result<Option<Arc<OwnLoop>>, AllocError> {
        match &self.own_loop {
            Some(own_loop) => Ok(Some(Arc::try_clone(own_loop)?)),
            None => Ok(None),
        }
    }

    /// When it is, where a clock tells.
    pub(crate) fn now(&self) -> Option<Instant> {
        Instant::now(&self.rt).ok()
    }

    /// What counts a request of a route that began then, once it is told something.
    pub(crate) fn counter(&self, route: Route, begun: Option<Instant>) -> Option<Counter<R>> {
        let state = Arc::try_clone(&self.state).ok()?;
        Some(Counter {
            rt: self.rt,
            state,
            route,
            begun,
        })
    }

    /// The entity tags that are known, where what is said may be a list whose tag was not made.
    pub(crate) fn tags_for(&self, entry: &Entry<N>) -> Option<ListTags<R>> {
        match entry {
            Entry::Now(Said::List { groups, .. }) if !groups.is_tagged() => self.tags(),
            Entry::Later(_) => self.tags(),
            Entry::Now(_) | Entry::Reload(_) => None,
        }
    }

    fn tags(&self) -> Option<ListTags<R>> {
        let known = self.texts.tags()?;
        Some(ListTags { rt: self.rt, known })
    }

    /// What the journal has when a request comes.
    pub fn seen(&self) -> Seen<N>
        ensures opening { result.opening ≡ N.opening }
        ensures same { result.before ≡ result.after }
    {
        Seen::of(self.desk.front(&self.rt))
    }

    /// What a request with this body is told, or what that waits for. It is told of the one journal that comes out of the desk, of which
    /// both had been seen: what is new when the request comes, and what has been seen then.
    /// An answer and a list come only once the device has all of it.
    pub fn entry(&self, seen: &mut Seen<N>, ask: &Ask, body: &[u8]) -> Entry<N>
        ensures says { Leads N.keeps (Says seen.new (arc_value self.now.pages) ask.now body.now) result }
        ensures kept { Leads N.keeps (OnceKept self.now.kept N.keeps seen.new) result }
        ensures moves { Moves seen.old seen.new }
    {
        match ask {
            Ask::Reload => {
                seen.now();
                self.reload()
            }
            _ => {
                let said = self.said(seen, ask, body);
                self.once_kept(seen, said)
            }
        }
    }

    /// What is told, once it may be.
    #[tactic(auto, unfolding(crate::specs::Says::SaysIn))]
    fn said(&self, seen: &mut Seen<N>, ask: &Ask, body: &[u8]) -> Said
        ensures says { SaysIn seen.new (arc_value self.now.pages) ask.now self.now.epoch body.now result }
        ensures moves { Moves seen.old seen.new }
    {
        match event_of(self.alloc, ask, body, self.epoch) {
            Ok(Some(Wanted::Event(event))) => self.entered(seen, event),
            Ok(Some(Wanted::OfNamed { name, change })) => {
                let said = self.changed(seen, &name, change);
                drop(name);
                said
            }
            Ok(Some(Wanted::Reports(events))) => {
                let said = self.reported(seen, events.as_slice());
                drop(events);
                said
            }
            Ok(None) => self.shown(seen, ask),
            Err(error) => {
                seen.now();
                self.refused(ask, body, error)
            }
        }
    }

    /// Why a body is refused, with the member at fault where there is one.
    fn refused(&self, ask: &Ask, body: &[u8], error: RequestError) -> Said
        ensures { SaysRefused error result }
    {
        match error {
            RequestError::Shape => match misshapen_member(self.alloc, ask, body) {
                Ok(Some(member)) => Said::Misshapen(member),
                _ => Said::Refused(error),
            },
            _ => Said::Refused(error),
        }
    }

    fn shown(&self, seen: &mut Seen<N>, ask: &Ask) -> Said
        ensures says { SaysPage seen.new (arc_value self.now.pages) ask.now result }
        ensures moves { Moves seen.old seen.new }
    {
        match ask {
            Ask::CollectorTargets { job, name, takes } => self.collector(seen, job, name, *takes),
            Ask::Reload => {
                seen.now();
                Said::Refused(RequestError::Memory)
            }
            _ => self.page(seen, ask),
        }
    }

    /// What is told at once.
    fn page(&self, seen: &mut Seen<N>, ask: &Ask) -> Said
        ensures says { IsAtOnce ask.now → SaysPage seen.new (arc_value self.now.pages) ask.now result }
        ensures moves { Moves seen.old seen.new }
    {
        match ask {
            Ask::Books(round) => self.books(seen, *round),
            Ask::Certificate => self.certificate(seen),
            Ask::Uncovered(job) => self.uncovered(seen, job.as_str()),
            Ask::JobTargets(job) => self.job(seen, job.as_str()),
            Ask::Collector(which) => self.one_collector(seen, which),
            _ => {
                seen.now();
                self.plain_page(ask)
            }
        }
    }

    /// What is told at once, and not of what the desk has.
    fn plain_page(&self, ask: &Ask) -> Said
        ensures { IsPlain ask.now → (span : Span) → SaysPage span (arc_value self.now.pages) ask.now result }
    {
        match ask {
            Ask::ScrapeConfigs { rules: true } => copied(&self.pages.as_read),
            Ask::ScrapeConfigs { rules: false } => copied(&self.pages.scrape_configs),
            Ask::Jobs => copied(&self.pages.jobs),
            Ask::Allocations => self.allocations(),
            Ask::Healthy => Said::Notice(Notice::Healthy),
            Ask::Live => self.live(),
            Ask::Ready => self.ready(),
            Ask::Leading => Said::Notice(Notice::Leading),
            Ask::Metrics => self.metrics(),
            Ask::Quit => self.quit(),
            Ask::Status => self.status(),
            Ask::FindTargets(text) => self.found(text.as_str()),
            Ask::Job(job) => self.one_job(job.as_str()),
            Ask::Acknowledged { told, counts } => self.acknowledged(told, *counts),
            Ask::Collectors => self.collectors(),
            Ask::Books(_)
            | Ask::Certificate
            | Ask::Uncovered(_)
            | Ask::JobTargets(_)
            | Ask::Collector(_)
            | Ask::Reload
            | Ask::CollectorTargets { .. }
            | Ask::Join
            | Ask::Leave(_)
            | Ask::Drain(_)
            | Ask::Release(_)
            | Ask::SetLimits(_)
            | Ask::Report => Said::Refused(RequestError::Memory),
        }
    }
}

fn copied(text: &Text) -> Said
    ensures { SaysCopy text.now result }
{
    match text.copy() {
        Ok(text) => Said::Page(text),
        Err(_) => Said::Refused(RequestError::Memory),
    }
}

/// The state for the handlers of a loop, with a reference that they share.
fn shared_state(
    alloc: Global,
    state: &Arc<ServiceState>,
) -> Result<Arc<Arc<ServiceState>>, AllocError> {
    let state = Arc::try_clone(state)?;
    Ok(Arc::new(alloc, state)?)
}
