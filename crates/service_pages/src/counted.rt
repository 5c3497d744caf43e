//! What may need attention, counted.
ghost use Rattle.std.specs.Prelude.{◌≡◌};
ghost use Rattle.std.specs.List.{count_by, sum_by};
ghost use Rattle.service_pages.specs.Counted.{counted, fails, is_behind, is_draining, is_waited_for, live, uncovered, handing_over};

use crate::figures::{CollectorFigures, Figures, JobFigures};
use crate::notes::SourceNote;
use crate::standing::Standing;

/// What may need attention, counted.
#[derive(Clone, Copy)]
pub struct Counted {
    /// The live targets of all jobs.
    pub live: u128,
    /// Those of them that nobody holds.
    pub uncovered: u128,
    /// Those of them that the lists of their holders leave out.
    pub handing_over: u128,
    pub sources: usize,
    /// The sources whose last refresh failed.
    pub failing: usize,
    pub collectors: usize,
    /// The collectors whose list is not of the current allocation.
    pub behind: usize,
    /// The collectors whose lists have targets that others hold.
    pub waited_for: usize,
    pub draining: usize,
    pub is_broken: bool,
    pub is_hanging: bool,
    pub is_followed: bool,
    /// Whether there is no place for another connection.
    pub is_full: bool,
}

impl Counted {
    /// What is counted of figures, of sources and of how a service stands.
    pub fn of(figures: &Figures, sources: &[SourceNote], standing: &Standing) -> Counted
        ensures { result ≡ counted figures.now sources.now standing.now }
    {
        let jobs = figures.jobs.as_slice();
        let collectors = figures.collectors.as_slice();
        Counted {
            live: sum_of_live(jobs),
            uncovered: sum_of_uncovered(jobs),
            handing_over: sum_of_handing_over(jobs),
            sources: sources.len(),
            failing: count_failing(sources),
            collectors: collectors.len(),
            behind: count_behind(collectors, figures.allocation),
            waited_for: count_waited_for(collectors),
            draining: count_draining(collectors),
            is_broken: standing.is_broken,
            is_hanging: standing.is_hanging,
            is_followed: standing.is_followed,
            is_full: standing.is_full(),
        }
    }
}

fn sum_of_live(jobs: &[JobFigures]) -> u128
    ensures { result ≡ sum_by live jobs.now }
{
    let mut sum: u128 = 0;
    for job in jobs {
        sum += u128::from(job.live);
    }
    sum
}

fn sum_of_uncovered(jobs: &[JobFigures]) -> u128
    ensures { result ≡ sum_by uncovered jobs.now }
{
    let mut sum: u128 = 0;
    for job in jobs {
        sum += u128::from(job.uncovered());
    }
    sum
}

fn sum_of_handing_over(jobs: &[JobFigures]) -> u128
    ensures { result ≡ sum_by handing_over jobs.now }
{
    let mut sum: u128 = 0;
    for job in jobs {
        sum += u128::from(job.handing_over);
    }
    sum
}

fn count_failing(sources: &[SourceNote]) -> usize
    ensures { result ≡ count_by fails sources.now }
{
    let mut count = 0;
    for source in sources {
        if source.fails() {
            count += 1;
        }
    }
    count
}

fn count_behind(collectors: &[CollectorFigures], allocation: u32) -> usize
    ensures { result ≡ count_by (is_behind allocation) collectors.now }
{
    let mut count = 0;
    for collector in collectors {
        if collector.is_behind(allocation) {
            count += 1;
        }
    }
    count
}

fn count_waited_for(collectors: &[CollectorFigures]) -> usize
    ensures { result ≡ count_by is_waited_for collectors.now }
{
    let mut count = 0;
    for collector in collectors {
        if collector.is_waited_for() {
            count += 1;
        }
    }
    count
}

fn count_draining(collectors: &[CollectorFigures]) -> usize
    ensures { result ≡ count_by is_draining collectors.now }
{
    let mut count = 0;
    for collector in collectors {
        if collector.draining {
            count += 1;
        }
    }
    count
}
