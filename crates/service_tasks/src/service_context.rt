//! What a service keeps from one desk to the next.
ghost use Rattle.std.specs.Prelude.{◌≡◌, IfOk};

use crate::configuration::Configuration;
use crate::journal::Journal;
use crate::logging::{log_error, log_warning};
use crate::refreshing::Watch;
use crate::scheduling::Schedule;
use crate::service::{JobText, Service};
use crate::source::Source;
use crate::sources::Sources;
use admission::Admission;
use http_get::FetchSeveral;
use journal_files::round_age;
use lists::List;
use sd_documents::Job;
use service_state::{ConfigPages, RoundStart, ServiceState};
use std::alloc::{AllocError, Global};
use std::io;
use std::net::TcpListener;
use std::sync::{Arc, Wait};
use std::time::{Clock, Duration, Instant};

/// What a service keeps from one desk to the next: where it listens, its sources as they are watched, and what it says of itself.
#[derive(Drop)]
pub struct ServiceContext<S, F, C> {
    pub listener: TcpListener,
    /// How many connections there may be at once.
    pub connections: u32,
    pub pages: Arc<ConfigPages>,
    pub doors: Arc<Admission>,
    pub state: Arc<ServiceState>,
    pub schedule: Schedule<C>,
    pub watch: Watch<S>,
    pub journal: Journal<F>,
    /// Whether no desk was opened yet for the configuration.
    pub(crate) is_new: bool,
}

impl<S: FetchSeveral + Drop, F: Drop, C: Configuration + Drop> ServiceContext<S, F, C> {
    /// That of a service that begins.
    pub fn open<R: Clock + Wait>(
        rt: &R,
        alloc: Global,
        service: &Service,
        listener: TcpListener,
        journal: Journal<F>,
        device: S,
        configuration: C,
    ) -> io::Result<ServiceContext<S, F, C>>
        ensures { IfOk result (λ o. o.journal ≡ journal) }
    {
        match Parts::of(rt, alloc, service, &journal) {
            Ok(parts) => {
                let Parts {
                    state,
                    start,
                    shares,
                    sources,
                } = parts;
                let Shares {
                    pages,
                    doors,
                    job_texts,
                    jobs,
                } = shares;
                Ok(ServiceContext {
                    listener,
                    connections: service.connections,
                    pages,
                    doors,
                    state,
                    schedule: Schedule::new(alloc, start, job_texts, configuration),
                    watch: Watch {
                        device,
                        jobs,
                        sources,
                        left: None,
                        forgotten: None,
                    },
                    journal,
                    is_new: true,
                })
            }
            Err(error) => {
                drop((listener, journal, device, configuration));
                Err(error)
            }
        }
    }

    /// Tells that the configuration that was read last is not followed.
    pub(crate) fn refuse<R: Clock + Eprint + Copy>(&self, rt: &R) {
        log_warning(rt, "no memory to follow the configuration");
        self.state.set_not_reloaded();
    }

    /// Remembers for the next journal the names that collectors have or had. Where there is no memory for them those from before stay.
    pub fn remember_names(&mut self, rt: &impl Wait, alloc: Global)
        ensures { self.new.journal.file ≡ self.old.journal.file }
    {
        if let Ok(names) = self.state.names(rt, alloc) {
            drop(std::mem::replace(&mut self.journal.names, names));
        }
    }

    /// Whether there is a journal's file, and nothing can be kept in it any more.
    pub(crate) fn is_broken(&self) -> bool {
        match &self.journal.file {
            Some(file) => file.is_broken(),
            None => false,
        }
    }

    /// Nothing is begun behind a journal that is broken: all goes on as it is until the service is started again.
    pub(crate) fn stay<R: Clock + Eprint + Copy>(&mut self, rt: &R)
        ensures { self.new.journal ≡ self.old.journal }
    {
        log_error(
            rt,
            "the journal is broken: nothing is renewed or read again until a start",
        );
        if self.schedule.is_read {
            self.schedule.is_read = false;
            self.state.set_not_reloaded();
        }
    }

    /// Follows another configuration from the next desk on, with these sources.
    pub(crate) fn follow(
        &mut self,
        service: &Service,
        sources: Vec<Source>,
    ) -> Result<(), AllocError>
        ensures { self.new.journal ≡ self.old.journal }
    {
        match self.share(service, sources.len() as u64) {
            Ok(()) => {
                let sources = Sources::new(sources);
                drop(std::mem::replace(&mut self.watch.sources, sources));
                self.is_new = true;
                Ok(())
            }
            Err(error) => {
                drop(sources);
                Err(error)
            }
        }
    }

    /// Shares what another configuration has, with so many sources.
    fn share(&mut self, service: &Service, sources: u64) -> Result<(), AllocError>
        ensures { self.new.journal ≡ self.old.journal }
    {
        self.pages = Arc::try_clone(&service.pages)?;
        self.doors = Arc::try_clone(&service.doors)?;
        self.connections = service.connections;
        self.state.await_sources(sources);
        self.watch.jobs = Arc::try_clone(&service.jobs)?;
        Ok(())
    }
}

/// What it has of its service when that begins.
#[derive(Drop)]
struct Parts {
    state: Arc<ServiceState>,
    start: RoundStart,
    shares: Shares,
    sources: Sources,
}

/// What it shares with its service.
#[derive(Drop)]
struct Shares {
    pages: Arc<ConfigPages>,
    doors: Arc<Admission>,
    job_texts: Arc<List<JobText>>,
    jobs: Arc<List<Job>>,
}

impl Shares {
    fn of(service: &Service) -> Result<Shares, AllocError> {
        let pages = Arc::try_clone(&service.pages)?;
        let doors = Arc::try_clone(&service.doors)?;
        let job_texts = Arc::try_clone(&service.job_texts)?;
        let jobs = Arc::try_clone(&service.jobs)?;
        Ok(Shares {
            pages,
            doors,
            job_texts,
            jobs,
        })
    }
}

impl Parts {
    fn of<R: Clock + Wait, F>(
        rt: &R,
        alloc: Global,
        service: &Service,
        journal: &Journal<F>,
    ) -> io::Result<Parts> {
        let start = round_start(rt, service, journal.epoch)?;
        let state = state_in(rt, alloc, service, journal)?;
        match Shares::of(service) {
            Ok(shares) => match sources_of(alloc, service) {
                Ok(sources) => Ok(Parts {
                    state,
                    start,
                    shares,
                    sources: Sources::new(sources),
                }),
                Err(error) => {
                    drop((state, shares));
                    Err(error.into())
                }
            },
            Err(error) => {
                drop(state);
                Err(error.into())
            }
        }
    }
}

/// When the open round began of a service that begins: a whole number of rounds behind the epoch.
fn round_start<R: Clock>(rt: &R, service: &Service, epoch: u64) -> io::Result<RoundStart> {
    let now = Instant::now(rt)?;
    let age = match milliseconds_now(rt) {
        Some(time) => round_age(epoch, time, service.settings.scrape_interval),
        None => 0,
    };
    Ok(RoundStart::open_for(now, Duration::from_millis(age)))
}

/// The milliseconds since 1970, where a clock tells them.
fn milliseconds_now<R: Clock>(rt: &R) -> Option<u64> {
    match rt.since_1970() {
        Ok(now) => u64::try_from(now.as_millis()).ok(),
        Err(_) => None,
    }
}

/// The state of a service that begins, with the names that its journal has.
fn state_in<R: Clock + Wait, F>(
    rt: &R,
    alloc: Global,
    service: &Service,
    journal: &Journal<F>,
) -> Result<Arc<ServiceState>, AllocError> {
    let state = state_of(rt, alloc, service)?;
    for (name, id) in journal.names.iter() {
        state.note_live(rt, name.as_str(), *id);
    }
    Ok(Arc::new(alloc, state)?)
}

/// The state of a service that has tried none of its sources.
fn state_of<R: Clock>(
    rt: &R,
    alloc: Global,
    service: &Service,
) -> Result<ServiceState, AllocError> {
    let mut state = ServiceState::new(
        alloc,
        service.settings.lifecycle,
        service.sources.len() as u64,
    )?;
    if let Ok(since) = rt.since_1970() {
        state.set_started(since.as_secs());
    }
    state.set_version(service.version);
    if service.is_leading {
        state.set_leading();
    }
    if let Some(lost_lines) = &service.lost_lines {
        match Arc::try_clone(lost_lines) {
            Ok(lost_lines) => state.set_log(lost_lines),
            Err(error) => {
                drop(state);
                return Err(error);
            }
        }
    }
    Ok(state)
}

impl<S, F, C> ServiceContext<S, F, C> {
    /// The epoch of a journal that begins now: the time in milliseconds since 1970 at which the open round was opened, so that a start finds
    /// when it ends, or the next number where that is no later one.
    pub(crate) fn next_epoch<R: Clock>(&self, rt: &R) -> u64 {
        let next = self.journal.epoch.saturating_add(1);
        match (milliseconds_now(rt), Instant::now(rt)) {
            (Some(time), Ok(now)) => {
                let age = self.schedule.start.age(now).as_millis();
                let age = u64::try_from(age).unwrap_or(u64::MAX);
                time.saturating_sub(age).max(next)
            }
            _ => next,
        }
    }

    /// Whether there is a journal's file, and another one is to begin.
    pub(crate) fn is_long(&self) -> bool {
        match &self.journal.file {
            Some(file) => file.is_long(),
            None => false,
        }
    }
}

/// The sources of a service, none asked yet.
pub(crate) fn sources_of(alloc: Global, service: &Service) -> Result<Vec<Source>, AllocError> {
    let count = u32::try_from(service.sources.len()).unwrap_or(u32::MAX);
    let mut sources = Vec::new(alloc);
    let mut turn: u32 = 0;
    for settings in service.sources.iter() {
        turn = turn.saturating_add(1);
        sources.push(Source::new(*settings, turn, count))?;
    }
    Ok(sources)
}
