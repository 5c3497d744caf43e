//! What lies outside of an agent: this machine's clock and disk, the allocator and the Prometheus over HTTP, and the store of lists.
use crate::asking::count;
use crate::jobs::Jobs;
use crate::places::Places;
use crate::state_file::write_state;
use agent_core::{Agent, Lasts, Report, Said, Serving};
use agent_documents::list_of;
use agent_lists::{JobList, ListStore};
use agent_turns::{Heard, Outside, Posted};
use lists::Text;
use log::error;
use logfmt::{Logfmt, Quoted};
use scrape_client::Lookups;
use std::alloc::{AllocError, AllocGlobal, Global};
use std::fs::File;
use std::io;
use std::net::Net;
use std::random::RandomSource;
use std::rt::Files;
use std::sync::Wait;
use std::sync::atomic::{AtomicBool, AtomicU64, Ordering};
use std::time::Clock;

/// What lies outside of an agent.
#[derive(Drop)]
pub(crate) struct Edge<'a, R> {
    pub(crate) rt: R,
    pub(crate) alloc: Global,
    pub(crate) lookups: &'a Lookups,
    pub(crate) store: &'a ListStore,
    pub(crate) places: &'a Places,
    pub(crate) jobs: Jobs,
    /// How long a round is, in milliseconds. 0 where nobody told.
    pub(crate) round: AtomicU64,
    /// When the lists were taken last. 0 where they were not.
    pub(crate) taken: AtomicU64,
    pub(crate) is_allocator_away: AtomicBool,
    pub(crate) is_prometheus_away: AtomicBool,
}

impl<'a, R: AllocGlobal + Copy> Edge<'a, R> {
    /// Nobody was asked yet.
    pub(crate) fn new(
        rt: &R,
        lookups: &'a Lookups,
        store: &'a ListStore,
        places: &'a Places,
    ) -> Edge<'a, R> {
        Edge {
            rt: *rt,
            alloc: rt.alloc(),
            lookups,
            store,
            places,
            jobs: Jobs::new(rt.alloc()),
            round: AtomicU64::new(0),
            taken: AtomicU64::new(0),
            is_allocator_away: AtomicBool::new(false),
            is_prometheus_away: AtomicBool::new(false),
        }
    }
}

impl<R: Wait> Edge<'_, R> {
    /// The lists that an agent serves, of each job that was heard of.
    fn lists_of(&self, agent: &Agent) -> Result<Vec<JobList>, AllocError> {
        let names = self.jobs.names(&self.rt)?;
        let mut lists = Vec::new(self.alloc);
        match self.add_lists(&mut lists, agent, names) {
            Ok(()) => Ok(lists),
            Err(error) => {
                drop(lists);
                Err(error)
            }
        }
    }

    fn add_lists(
        &self,
        lists: &mut Vec<JobList>,
        agent: &Agent,
        names: Vec<Text>,
    ) -> Result<(), AllocError> {
        let mut index: u32 = 0;
        for job in names {
            let list = list_of(self.alloc, agent.targets(), agent.served(), index)?;
            lists.push(JobList { job, list })?;
            index = index.saturating_add(1);
        }
        Ok(())
    }

    /// Puts the lists into the store, up to the end of the lease that begins at a time.
    fn put(&self, agent: &Agent, at: u64) {
        let until = self
            .places
            .settings
            .lease
            .map(|lease| at.saturating_add(lease));
        if let Ok(lists) = self.lists_of(agent) {
            self.store.put(&self.rt, until, lists);
        }
    }

    /// Notes how many targets an agent holds, and serves.
    fn note(&self, agent: &Agent) {
        let counts = &self.store.counts;
        counts
            .held
            .store(agent.targets().len() as u64, Ordering::SeqCst);
        counts
            .served
            .store(agent.served().len() as u64, Ordering::SeqCst);
    }
}

impl<R> Outside for Edge<'_, R>
where
    R: Wait + Clock + Net + Files<File = File> + RandomSource + AllocGlobal + Eprint + Copy,
{
    ghost use Rattle.std.specs.Prelude.{⊤};

    ghost may_act = { λ _ _ _. ⊤ };

    fn now(&self) -> u64 {
        match self.rt.since_1970() {
            Ok(now) => u64::try_from(now.as_millis()).unwrap_or(u64::MAX),
            Err(_) => 0,
        }
    }

    fn look(&self, at: u64) -> Heard {
        self.hear(at, false)
    }

    fn lasts(&self, agent: &Agent) -> Lasts {
        self.last_scrapes(agent)
    }

    fn said(&self) -> Option<Said> {
        self.scrapes()
    }

    fn is_missed(&self, agent: &Agent, at: u64) -> bool {
        self.is_long_untaken(agent.head(), at)
    }

    fn has_let_go(&self, agent: &Agent) -> bool {
        self.is_let_go(agent)
    }

    fn serve(&self, agent: &Agent, at: u64) {
        self.note(agent);
        match agent.serving(at) {
            Serving::Served => self.put(agent, at),
            Serving::Nothing => {}
            Serving::Unknown => {}
        }
    }

    fn write(&mut self, text: &str) -> bool {
        match write_state(&self.rt, self.places.settings.state.as_str(), text) {
            Ok(()) => true,
            Err(error) => {
                count(&self.store.counts.state_failures, 1);
                log_failure(&self.rt, self.places.settings.state.as_str(), &error);
                false
            }
        }
    }

    fn post(&mut self, reports: &[Report]) -> Posted {
        self.post_all(reports)
    }

    fn take(&mut self, at: u64) -> Heard {
        let heard = self.hear(at, true);
        self.note_take(at, &heard);
        heard
    }
}

fn log_failure<R: Clock + Eprint + Copy>(rt: &R, path: &str, error: &io::Error) {
    let path = Quoted(path);
    error!(Logfmt(*rt); state:% = path; "the state file cannot be written, and nothing is reported meanwhile: {error}");
}
