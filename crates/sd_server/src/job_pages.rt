//! The pages of a job's targets, of those that none has, and the certificate.
ghost use Rattle.std.specs.Prelude.{◌≡◌, IfOk};
ghost use Rattle.std.specs.Arc.{arc_value};
ghost use Rattle.alloc_desk.specs.Views.{shares_of};
ghost use Rattle.service_state.specs.Jobs.{place_of};
ghost use Rattle.sd_server.specs.Spans.{Moves, now_of};
ghost use Rattle.sd_server.specs.Texts.{certificate_text, job_text};
ghost use Rattle.sd_server.specs.Says.{IsUncoveredText, SaysJob, SaysText, SaysUncovered};

use crate::certificate_page::certificate_page;
use crate::handler::Handler;
use crate::seen::Seen;
use allocation_core::{Answer, Refusal};
use fleet_events::TargetId;
use kept_journal::JournalName;
use lists::{List, Text};
use page_rows::{Uncovered, uncovered_of};
use price_certificate::{Instance, Plan};
use sd_routes::{RequestError, Said, job_page, uncovered_page};
use std::alloc::AllocError;
use std::sync::Wait;
use std::sync::ledger::Ledger;
use std::time::Clock;
use target_shares::{NumberedTarget, Share};

impl<R: Wait + Clock + Copy, L: Ledger, B: Ledger, N: JournalName> Handler<R, L, B, N> {
    pub(crate) fn certificate(&self, seen: &mut Seen<N>) -> Said
        ensures says { SaysText seen.new certificate_text result }
        ensures moves { Moves seen.old seen.new }
    {
        match self.certificate_text(seen) {
            Ok(text) => Said::Page(text),
            Err(_) => Said::Refused(RequestError::Memory),
        }
    }

    fn certificate_text(&self, seen: &mut Seen<N>) -> Result<Text, AllocError>
        ensures text { IfOk result (λ t. t ≡ certificate_text (now_of seen.new)) }
        ensures moves { Moves seen.old seen.new }
    {
        let (instance, plan) = self.published(seen)?;
        certificate_page(self.alloc, &instance, &plan)
    }

    fn published(&self, seen: &mut Seen<N>) -> Result<(Instance, Plan), AllocError>
        ensures read { IfOk result (λ c. (c.0 ≡ (now_of seen.new).state.problem) × (c.1 ≡ (now_of seen.new).state.plan)) }
        ensures moves { Moves seen.old seen.new }
    {
        let mut pass = self.pass.lock(&self.rt);
        seen.latest.certificate(&self.rt, &self.desk, &mut *pass)
    }

    pub(crate) fn job(&self, seen: &mut Seen<N>, job: &str) -> Said
        ensures says { SaysJob seen.new job.now (place_of job.now (arc_value self.now.pages).names) result }
        ensures moves { Moves seen.old seen.new }
    {
        match self.pages.place(job) {
            Some(place) => self.job_at(seen, job, place),
            None => {
                seen.now();
                Said::Answer(Answer::Not(Refusal::UnknownJob))
            }
        }
    }

    fn job_at(&self, seen: &mut Seen<N>, job: &str, place: usize) -> Said
        ensures says { SaysText seen.new (job_text job.now place) result }
        ensures moves { Moves seen.old seen.new }
    {
        match self.job_text(seen, job, place) {
            Ok(text) => Said::Page(text),
            Err(_) => Said::Refused(RequestError::Memory),
        }
    }

    fn job_text(&self, seen: &mut Seen<N>, job: &str, place: usize) -> Result<Text, AllocError>
        ensures text { IfOk result (λ t. t ≡ job_text job.now place (now_of seen.new)) }
        ensures moves { Moves seen.old seen.new }
    {
        let shares = self.shares(seen, place)?;
        job_page(self.alloc, job, shares.as_slice())
    }

    fn shares(&self, seen: &mut Seen<N>, place: usize) -> Result<List<Share>, AllocError>
        ensures read { IfOk result (λ l. l ≡ shares_of (now_of seen.new).state place) }
        ensures moves { Moves seen.old seen.new }
    {
        let mut pass = self.pass.lock(&self.rt);
        seen.latest
            .shares(&self.rt, &self.desk, &mut *pass, self.alloc, place)
    }

    pub(crate) fn uncovered(&self, seen: &mut Seen<N>, job: &str) -> Said
        ensures says { SaysUncovered (place_of job.now (arc_value self.now.pages).names) result }
        ensures moves { Moves seen.old seen.new }
    {
        let Some(place) = self.pages.place(job) else {
            seen.now();
            return Said::Answer(Answer::Not(Refusal::UnknownJob));
        };
        match self.uncovered_text(seen, place) {
            Ok(text) => Said::Page(text),
            Err(_) => Said::Refused(RequestError::Memory),
        }
    }

    #[tactic(auto, using(crate::proofs::SpanLemmas::moves_trans))]
    fn uncovered_text(&self, seen: &mut Seen<N>, place: usize) -> Result<Text, AllocError>
        ensures text { IfOk result IsUncoveredText }
        ensures moves { Moves seen.old seen.new }
    {
        let uncovered = self.uncovered_at(seen, place)?;
        let text = self.uncovered_text_of(seen, place, &uncovered);
        drop(uncovered);
        text
    }

    #[tactic(auto, using(crate::proofs::SpanLemmas::moves_trans))]
    fn uncovered_text_of(
        &self,
        seen: &mut Seen<N>,
        place: usize,
        uncovered: &Uncovered,
    ) -> Result<Text, AllocError>
        ensures text { IfOk result IsUncoveredText }
        ensures moves { Moves seen.old seen.new }
    {
        let full = self.numbered(seen, place, uncovered.full.as_slice())?;
        let (waiting, unreached) = match self.numbered_both(
            seen,
            place,
            uncovered.handing_over.as_slice(),
            uncovered.unreached.as_slice(),
        ) {
            Ok(both) => both,
            Err(error) => {
                drop(full);
                return Err(error);
            }
        };
        let text = uncovered_page(
            self.alloc,
            full.as_slice(),
            waiting.as_slice(),
            unreached.as_slice(),
        );
        drop((full, waiting, unreached));
        text
    }

    #[tactic(auto, using(crate::proofs::SpanLemmas::moves_trans))]
    fn numbered_both(
        &self,
        seen: &mut Seen<N>,
        place: usize,
        some: &[TargetId],
        others: &[TargetId],
    ) -> Result<(List<NumberedTarget>, List<NumberedTarget>), AllocError>
        ensures moves { Moves seen.old seen.new }
    {
        let some = self.numbered(seen, place, some)?;
        match self.numbered(seen, place, others) {
            Ok(others) => Ok((some, others)),
            Err(error) => {
                drop(some);
                Err(error)
            }
        }
    }

    fn uncovered_at(&self, seen: &mut Seen<N>, place: usize) -> Result<Uncovered, AllocError>
        ensures moves { Moves seen.old seen.new }
    {
        let mut pass = self.pass.lock(&self.rt);
        seen.latest.read(
            &self.rt,
            &self.desk,
            &mut *pass,
            |record| uncovered_of(self.alloc, record.core(), place),
        )
    }
}
