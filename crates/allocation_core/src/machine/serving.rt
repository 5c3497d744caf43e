//! Lists that are served, and let go.
ghost use Rattle.std.specs.Prelude.{◌≡◌, None, Some, true, IfOk, OnOk, OnErr};
ghost use Rattle.allocation_core.specs.State.{held_live, left_out_at, list_at, served_at, was_given};
ghost use Rattle.allocation_core.specs.Steps.{answer_of, job_meant, place_of, refusal_of, state_after};
ghost use Rattle.fleet_events.specs.declared.event.Event.TheVariants.{Release, Serve};
ghost use Rattle.served_lists.specs.Served.{number_of};

use super::Core;
use fleet::job_named;
use fleet_events::{Answer, CollectorId, Refusal, TargetId};
use lists::{List, Text};
use served_lists::ServedList;
use std::alloc::AllocError;

impl Core {
    /// A collector is served its list of a job. Memory is wanted only after all checks.
    #[tactic(auto, unfolding(crate::specs::Steps::answer_of, crate::specs::Steps::state_after))]
    pub(super) fn serve(&mut self, id: CollectorId, name: Text) -> Result<Answer, AllocError>
        ensures answer { IfOk result (λ a. a ≡ answer_of self.old (Serve id name)) }
        ensures state { OnOk result (self.new ≡ state_after self.old (Serve id name)) }
        ensures err { OnErr result (self.new ≡ self.old) }
        ensures late { OnErr result (refusal_of self.old (Serve id name) ≡ None) }
    {
        let Some(job) = self.place_of(name.as_str()) else {
            return Ok(Answer::Not(Refusal::UnknownJob));
        };
        if !self.was_given(id) {
            return Ok(Answer::Not(Refusal::UnknownCollector));
        }
        let list = self.listed(id, job)?;
        Ok(Answer::Served {
            allocation: self.holders.current(),
            round: self.round,
            listed: list.listed,
            left_out: list.left_out,
        })
    }

    /// The list of the job at a place, from now on the last one that the collector was served.
    fn listed(&mut self, id: CollectorId, job: usize) -> Result<ServedList, AllocError>
        requires { was_given self.old id ≡ true }
        ensures listed { IfOk result (λ l. l.listed ≡ list_at self.old id (Some job)) }
        ensures left_out { IfOk result (λ l. l.left_out ≡ left_out_at self.old id (Some job)) }
        ensures state { OnOk result (self.new ≡ record self.old { served = served_at self.old id (Some job) }) }
        ensures err { OnErr result (self.new ≡ self.old) }
    {
        let held = self.held_live(id)?;
        let number = self.holders.current();
        self.served
            .serve(self.fleet.known(), id, job, number, held.as_slice())
    }

    /// What a collector's list of a job would have if it were served now, and what it would leave out; nothing where there is no such job.
    pub fn list(&self, id: CollectorId, name: &str) -> Result<ServedList, AllocError>
        ensures listed { IfOk result (λ l. l.listed ≡ list_at self.now id (place_of self.now name.now)) }
        ensures left_out { IfOk result (λ l. l.left_out ≡ left_out_at self.now id (place_of self.now name.now)) }
    {
        match self.place_of(name) {
            Some(job) => self.list_of(id, job),
            None => Ok(ServedList {
                listed: List::new(self.alloc),
                left_out: List::new(self.alloc),
            }),
        }
    }

    fn list_of(&self, id: CollectorId, job: usize) -> Result<ServedList, AllocError>
        ensures listed { IfOk result (λ l. l.listed ≡ list_at self.now id (Some job)) }
        ensures left_out { IfOk result (λ l. l.left_out ≡ left_out_at self.now id (Some job)) }
    {
        let held = self.held_live(id)?;
        self.served
            .list(self.fleet.known(), id, job, held.as_slice())
    }

    /// The number of the allocation of the list of a job that a collector was served last, if it was served one that it has not let go.
    pub fn served_number(&self, collector: CollectorId, job: usize) -> Option<u32>
        ensures { result ≡ number_of self.now.served.numbers collector job }
    {
        self.served.number(collector, job)
    }

    /// What a live collector holds; nothing where it has left.
    pub(super) fn held_live(&self, id: CollectorId) -> Result<List<TargetId>, AllocError>
        ensures { IfOk result (λ l. l ≡ held_live self.now id) }
    {
        if !self.fleet.is_joined(id) {
            return Ok(List::new(self.alloc));
        }
        self.held(id)
    }

    /// The lists that a collector was served last, or that of a job, are let go. It takes no memory.
    #[tactic(auto, unfolding(crate::specs::Steps::answer_of, crate::specs::Steps::state_after))]
    pub(super) fn release(&mut self, id: CollectorId, name: Option<Text>) -> Answer
        ensures answer { result ≡ answer_of self.old (Release id name) }
        ensures state { self.new ≡ state_after self.old (Release id name) }
    {
        let job = match self.job_meant(&name) {
            Ok(job) => job,
            Err(refusal) => return Answer::Not(refusal),
        };
        if !self.was_given(id) {
            return Answer::Not(Refusal::UnknownCollector);
        }
        Answer::Released(self.served.release(self.fleet.known(), id, job))
    }

    /// The place of the job that is named, if one is.
    fn job_meant(&self, name: &Option<Text>) -> Result<Option<usize>, Refusal>
        ensures { result ≡ job_meant self.now name.now }
    {
        match name {
            None => Ok(None),
            Some(name) => match self.place_of(name.as_str()) {
                Some(job) => Ok(Some(job)),
                None => Err(Refusal::UnknownJob),
            },
        }
    }

    /// The place of the job of a name.
    pub(super) fn place_of(&self, name: &str) -> Option<usize>
        ensures { result ≡ place_of self.now name.now }
    {
        job_named(self.fleet.jobs(), name)
    }

    /// Whether a collector joined under the number once.
    pub(super) fn was_given(&self, id: CollectorId) -> bool
        ensures { result ≡ was_given self.now id }
    {
        0 < id && id <= self.fleet.last_collector()
    }
}
