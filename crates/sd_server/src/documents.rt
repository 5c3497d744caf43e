//! The pages for people of jobs, of collectors and of searches, and what is told of a job in JSON.
ghost use Rattle.std.specs.Prelude.{◌≡◌, [], IfOk, IfSome};
ghost use Rattle.std.specs.Arc.{arc_value};
ghost use Rattle.service_state.specs.Jobs.{place_of};
ghost use Rattle.sd_server.specs.Says.{IsJobRowText, Says, SaysCollectorPage, SaysFound, SaysOneJob};
ghost use Rattle.sd_server.specs.Spans.{Moves, Span};
ghost use Rattle.sd_routes.specs.declared.which_collector.WhichCollector.{WhichCollector};

use crate::handler::Handler;
use crate::seen::Seen;
use allocation_core::{Answer, Refusal};
use fleet_events::TargetId;
use json_values::{Spelled, text_of};
use kept_journal::JournalName;
use lists::{List, Text};
use page_rows::{
    CollectorState, FoundState, JobState, collector_state, found_state, held_by_name, job_state,
    source_rows,
};
use sd_routes::{Ask, JobRow, RequestError, Said, SourceRow, WhichCollector, job_row_page};
use service_pages::{
    MOST_ROWS, Rows, ShownCollector, ShownJob, collector_document, found_document, job_document,
};
use service_state::Notes;
use std::alloc::AllocError;
use std::sync::Wait;
use std::sync::ledger::Ledger;
use std::time::Clock;

impl<R: Wait + Clock + Copy, L: Ledger, B: Ledger, N: JournalName> Handler<R, L, B, N> {
    /// The page for people of what is asked for, where it has one.
    pub(crate) fn document(&self, seen: &mut Seen<N>, ask: &Ask) -> Option<Said>
        ensures says { IfSome result (λ said. Says seen.new (arc_value self.now.pages) ask.now [] said) }
        ensures moves { Moves seen.old seen.new }
    {
        match ask {
            Ask::Books(round) => Some(self.books_document(seen, *round)),
            _ => {
                seen.now();
                self.plain_document(ask)
            }
        }
    }

    /// That which is not of what a contract tells of a desk.
    fn plain_document(&self, ask: &Ask) -> Option<Said>
        ensures { IfSome result (λ said. (span : Span) → Says span (arc_value self.now.pages) ask.now [] said) }
    {
        match ask {
            Ask::Job(job) => Some(self.job_document(job.as_str())),
            Ask::Collector(which) => Some(self.collector_document(which)),
            Ask::FindTargets(text) => Some(self.found_document(text.as_str())),
            Ask::Books(_)
            | Ask::Status
            | Ask::ScrapeConfigs { rules: _ }
            | Ask::Jobs
            | Ask::JobTargets(_)
            | Ask::CollectorTargets { .. }
            | Ask::Uncovered(_)
            | Ask::Acknowledged { .. }
            | Ask::Allocations
            | Ask::Certificate
            | Ask::Collectors
            | Ask::Join
            | Ask::Leave(_)
            | Ask::Drain(_)
            | Ask::Release(_)
            | Ask::SetLimits(_)
            | Ask::Report
            | Ask::Healthy
            | Ask::Live
            | Ask::Ready
            | Ask::Leading
            | Ask::Metrics
            | Ask::Reload
            | Ask::Quit => None,
        }
    }

    /// What is told of a job.
    pub(crate) fn one_job(&self, job: &str) -> Said
        ensures { SaysOneJob job.now (place_of job.now (arc_value self.now.pages).names) result }
    {
        let Some(place) = self.pages.place(job) else {
            return Said::Answer(Answer::Not(Refusal::UnknownJob));
        };
        match self.job_row_text(job, place) {
            Ok(text) => Said::Page(text),
            Err(_) => Said::Refused(RequestError::Memory),
        }
    }

    fn job_row_text(&self, job: &str, place: usize) -> Result<Text, AllocError>
        ensures { IfOk result (IsJobRowText job.now) }
    {
        let row = self.job_row(job, place)?;
        let page = job_row_page(self.alloc, &row);
        drop(row);
        page
    }

    fn job_row(&self, job: &str, place: usize) -> Result<JobRow, AllocError>
        ensures { IfOk result (λ row. row.name ≡ job.now) }
    {
        let state = self.job_state(place, 0)?;
        let row = self.job_row_of(job, place, &state);
        drop(state);
        row
    }

    fn job_row_of(&self, job: &str, place: usize, state: &JobState) -> Result<JobRow, AllocError>
        ensures { IfOk result (λ row. row.name ≡ job.now) }
    {
        let name = Text::from_str(self.alloc, job)?;
        match self.held_and_sources(job, place, state) {
            Ok((held, sources)) => Ok(JobRow {
                name,
                live: state.live,
                covered: state.covered(),
                uncovered: state.uncovered(),
                unreached: state.unreached(),
                handing_over: state.handing_over(),
                held,
                sources,
            }),
            Err(error) => {
                drop(name);
                Err(error)
            }
        }
    }

    fn held_and_sources(
        &self,
        job: &str,
        place: usize,
        state: &JobState,
    ) -> Result<(List<(Text, u32)>, List<SourceRow>), AllocError> {
        let held = held_by_name(self.alloc, state.shares.as_slice())?;
        match self.sources_of(job, place) {
            Ok(sources) => Ok((held, sources)),
            Err(error) => {
                drop(held);
                Err(error)
            }
        }
    }

    fn sources_of(&self, job: &str, place: usize) -> Result<List<SourceRow>, AllocError> {
        let notes = self.state.notes(&self.rt, self.alloc)?;
        let urls = self.pages.urls_at(place);
        let rows = source_rows(self.alloc, job, urls, notes.sources.as_slice());
        drop(notes);
        rows
    }

    fn job_state(&self, place: usize, most_rows: usize) -> Result<JobState, AllocError> {
        let mut pass = self.pass.lock(&self.rt);
        self.desk.read(
            &self.rt,
            &mut *pass,
            |record| job_state(self.alloc, record.core(), place, most_rows),
        )
    }

    fn job_document(&self, job: &str) -> Said
        ensures { SaysOneJob job.now (place_of job.now (arc_value self.now.pages).names) result }
    {
        let Some(place) = self.pages.place(job) else {
            return Said::Answer(Answer::Not(Refusal::UnknownJob));
        };
        match self.job_document_text(job, place) {
            Ok(text) => Said::Document(text),
            Err(_) => Said::Refused(RequestError::Memory),
        }
    }

    fn job_document_text(&self, job: &str, place: usize) -> Result<Text, AllocError> {
        let state = self.job_state(place, MOST_ROWS)?;
        let text = match self.state.notes(&self.rt, self.alloc) {
            Ok(notes) => {
                let text = self.job_document_of(job, place, &state, &notes);
                drop(notes);
                text
            }
            Err(error) => Err(error),
        };
        drop(state);
        text
    }

    fn job_document_of(
        &self,
        job: &str,
        place: usize,
        state: &JobState,
        notes: &Notes,
    ) -> Result<Text, AllocError> {
        let standing = self.state.standing(&self.rt, self.kept.is_some());
        let shown = ShownJob {
            name: job,
            live: u64::from(state.live),
            covered: u64::from(state.covered()),
            uncovered: u64::from(state.uncovered()),
            unreached: u64::from(state.unreached()),
            handing_over: u64::from(state.handing_over()),
            shares: state.shares.as_slice(),
            sources: notes.sources.as_slice(),
            urls: self.pages.urls_at(place),
            targets: Rows {
                first: state.targets.as_slice(),
                all: u64::from(state.live),
            },
            moment: state.moment,
            standing: &standing,
        };
        job_document(self.alloc, &shown)
    }

    fn collector_document(&self, which: &WhichCollector) -> Said
        ensures { (span : Span) → SaysCollectorPage span which.now result }
    {
        match self.collector_state(which) {
            Ok(Some(state)) => self.collector_told(&state),
            Ok(None) => Said::Answer(Answer::Not(Refusal::UnknownCollector)),
            Err(_) => Said::Refused(RequestError::Memory),
        }
    }

    fn collector_told(&self, state: &CollectorState) -> Said
        ensures { (span : Span) (which : WhichCollector) → SaysCollectorPage span which result }
    {
        match self.collector_document_text(state) {
            Ok(text) => Said::Document(text),
            Err(_) => Said::Refused(RequestError::Memory),
        }
    }

    fn collector_state(
        &self,
        which: &WhichCollector,
    ) -> Result<Option<CollectorState>, AllocError> {
        let mut pass = self.pass.lock(&self.rt);
        self.desk.read(
            &self.rt,
            &mut *pass,
            |record| collector_state(self.alloc, record.core(), which),
        )
    }

    fn collector_document_text(&self, state: &CollectorState) -> Result<Text, AllocError> {
        let row = &state.row;
        let reach = text_of(self.alloc, &row.reach.write(self.alloc)?)?;
        let standing = self.state.standing(&self.rt, self.kept.is_some());
        let shown = ShownCollector {
            id: row.id,
            name: row.name.as_str(),
            draining: row.draining,
            reach: reach.as_str(),
            limits: row.limits.entries(),
            held: row.held.as_slice(),
            taken: row.taken,
            last_take: self.state.last_asked(&self.rt, row.id),
            targets: Rows {
                first: state.targets.as_slice(),
                all: state.held(),
            },
            moment: state.moment,
            standing: &standing,
        };
        collector_document(self.alloc, &shown)
    }

    fn found_document(&self, text: &str) -> Said
        ensures { SaysFound result }
    {
        match self.found_document_text(text) {
            Ok(text) => Said::Document(text),
            Err(_) => Said::Refused(RequestError::Memory),
        }
    }

    fn found_document_text(&self, text: &str) -> Result<Text, AllocError> {
        let numbers = self.matching(text)?;
        let state = self.found_state(numbers.as_slice());
        drop(numbers);
        let state = state?;
        let page = found_document(self.alloc, &state.shown(text));
        drop(state);
        page
    }

    fn found_state(&self, numbers: &[TargetId]) -> Result<FoundState, AllocError> {
        let mut pass = self.pass.lock(&self.rt);
        self.desk.read(
            &self.rt,
            &mut *pass,
            |record| found_state(self.alloc, record.core(), numbers),
        )
    }
}
