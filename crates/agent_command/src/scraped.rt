//! What Prometheus scraped, and scrapes.
use crate::edge::Edge;
use agent_core::{Agent, Lasts, Listed, Said, Series};
use agent_documents::{Durations, read_durations, read_said};
use agent_exchanges::{Known, active_path, has_shared, range_path, read_active, read_lasts};
use agent_turns::lets_go;
use indexmap::IndexMap;
use scrape_client::Answer;
use std::alloc::AllocGlobal;
use std::net::Net;
use std::random::RandomSource;
use std::sync::Wait;
use std::sync::atomic::Ordering;
use std::time::Clock;

/// Prometheus is asked for the points of so many rounds.
const ROUNDS: u64 = 3;

/// And for those of so long at least and at most, in milliseconds.
const LEAST_RANGE: u64 = 60_000;

const MOST_RANGE: u64 = 900_000;

impl<R> Edge<'_, R>
where
    R: Wait + Clock + Net + RandomSource + AllocGlobal + Eprint + Copy,
{
    /// What Prometheus says of its scrapes.
    pub(crate) fn scrapes(&self) -> Option<Said> {
        let up = self.points("up")?;
        let Some(samples) = self.points("scrape_samples_scraped") else {
            drop(up);
            return None;
        };
        let said = read_said(self.alloc, up.body.as_slice(), samples.body.as_slice());
        drop((up, samples));
        said.ok()
    }

    /// The points of a metric.
    fn points(&self, metric: &str) -> Option<Answer> {
        let base = self.places.prometheus.base.as_str();
        let path = range_path(self.alloc, base, metric, self.range()).ok()?;
        self.ask_prometheus(path.as_str())
    }

    /// For how long back Prometheus is asked.
    fn range(&self) -> u64 {
        self.round
            .load(Ordering::SeqCst)
            .saturating_mul(ROUNDS)
            .max(LEAST_RANGE)
            .min(MOST_RANGE)
    }

    /// Whether Prometheus scrapes nothing any more of what an agent holds and no longer serves.
    pub(crate) fn is_let_go(&self, agent: &Agent) -> bool {
        match self.scraped() {
            Some(scraped) => {
                let lets_go = lets_go(
                    self.alloc,
                    agent.targets(),
                    agent.served(),
                    scraped.as_slice(),
                );
                drop(scraped);
                lets_go.unwrap_or(false)
            }
            None => false,
        }
    }

    /// The series that Prometheus scrapes.
    fn scraped(&self) -> Option<Vec<Series>> {
        let answer = self.active()?;
        let series = read_active(self.alloc, answer.body.as_slice());
        drop(answer);
        series.ok()
    }

    /// What Prometheus says of the last scrapes of the series that an agent's targets share. Where none do it is not asked.
    pub(crate) fn last_scrapes(&self, agent: &Agent) -> Lasts {
        let nothing = IndexMap::new(self.alloc);
        if has_shared(agent.targets()) {
            self.lasts_of(agent.targets()).unwrap_or(nothing)
        } else {
            nothing
        }
    }

    fn lasts_of(&self, targets: &[Listed]) -> Option<Lasts> {
        let active = self.active()?;
        let lasts = self.lasts_in(targets, active.body.as_slice());
        drop(active);
        lasts
    }

    fn lasts_in(&self, targets: &[Listed], active: &[u8]) -> Option<Lasts> {
        let durations = self.durations()?;
        let lasts = self.lasts_by(targets, active, &durations);
        drop(durations);
        lasts
    }

    fn lasts_by(&self, targets: &[Listed], active: &[u8], durations: &Durations) -> Option<Lasts> {
        let jobs = self.jobs.names(&self.rt).ok()?;
        let known = Known {
            jobs: jobs.as_slice(),
            durations,
        };
        read_lasts(self.alloc, known, targets, active).ok()
    }

    /// How long the scrapes lasted that Prometheus stored.
    fn durations(&self) -> Option<Durations> {
        let answer = self.points("scrape_duration_seconds")?;
        let durations = read_durations(self.alloc, answer.body.as_slice());
        drop(answer);
        durations.ok()
    }

    /// What Prometheus says of the targets that it scrapes.
    fn active(&self) -> Option<Answer> {
        let path = active_path(self.alloc, self.places.prometheus.base.as_str()).ok()?;
        self.ask_prometheus(path.as_str())
    }
}
