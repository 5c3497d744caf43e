//! Lists that let targets go once they are acknowledged.
ghost use Rattle.std.specs.Prelude.{IfOk, IfSome, IsSome};
ghost use Rattle.std.specs.Arc.{arc_value};
ghost use Rattle.sd_server.specs.Keeping.{FindsKept};
ghost use Rattle.sd_server.specs.Says.{SaysAcknowledged, SaysServed};
ghost use Rattle.sd_server.specs.Spans.{Moves, now_of};

use crate::handler::Handler;
use crate::keeping::{Keeping, kept_at};
use crate::seen::Seen;
use fleet_events::{AllocationNumber, CollectorId};
use kept_journal::JournalName;
use lists::Text;
use sd_routes::{Acknowledgement, RequestError, Said};
use service_state::FollowedList;
use std::alloc::AllocError;
use std::sync::Wait;
use std::sync::ledger::Ledger;
use std::time::Clock;

impl<R: Wait + Clock + Copy, L: Ledger, B: Ledger, N: JournalName> Handler<R, L, B, N> {
    /// What a collector is served of a job. Where its last list has targets that another collector holds, and it did not tell that it
    /// follows a list without them, what that list keeps.
    #[tactic(auto, using(crate::proofs::SpanLemmas::moves_trans))]
    pub(crate) fn acknowledged_list(
        &self,
        seen: &mut Seen<N>,
        place: usize,
        job: &Text,
        id: CollectorId,
    ) -> Said
        requires { IsSome (arc_value self.now.pages).acknowledge }
        ensures says { SaysServed seen.new (arc_value self.now.pages).acknowledge job.now place id result }
        ensures moves { Moves seen.old seen.new }
    {
        match self.kept(seen, place, id) {
            Ok(Some(kept)) => self.kept_list(seen, place, job, id, &kept),
            Ok(None) => self.served(seen, place, job, id),
            Err(_) => Said::Refused(RequestError::Memory),
        }
    }

    /// What its last list keeps, where that has targets which another collector holds and no list without them is acknowledged.
    fn kept(
        &self,
        seen: &mut Seen<N>,
        place: usize,
        id: CollectorId,
    ) -> Result<Option<Keeping>, AllocError>
        ensures read { IfOk result (λ found. IfSome found (λ k. FindsKept (now_of seen.new).state place id k.look)) }
        ensures moves { Moves seen.old seen.new }
    {
        let found = self.kept_now(seen, place, id)?;
        if self.may_go(place, id, &found) {
            return Ok(None);
        }
        Ok(found)
    }

    fn kept_now(
        &self,
        seen: &mut Seen<N>,
        place: usize,
        id: CollectorId,
    ) -> Result<Option<Keeping>, AllocError>
        ensures read { IfOk result (λ found. IfSome found (λ k. FindsKept (now_of seen.new).state place id k.look)) }
        ensures moves { Moves seen.old seen.new }
    {
        let mut pass = self.pass.lock(&self.rt);
        seen.latest.read(
            &self.rt,
            &self.desk,
            &mut *pass,
            |record| kept_at(self.alloc, record, place, id),
        )
    }

    /// Whether what its last list has may be let go: nobody holds it, or the collector told that it follows a list without it.
    fn may_go(&self, place: usize, id: CollectorId, found: &Option<Keeping>) -> bool {
        let Some(kept) = found else {
            self.state
                .forget_followed(&self.rt, self.list_of(place, id, 0));
            return true;
        };
        let list = self.list_of(place, id, kept.look.allocation);
        let may_go = self
            .state
            .is_followed_without(&self.rt, list, kept.goes.as_slice());
        if may_go {
            self.state.forget_followed(&self.rt, list);
        }
        may_go
    }

    /// Its list of the job that is of an allocation.
    fn list_of(
        &self,
        place: usize,
        collector: CollectorId,
        allocation: AllocationNumber,
    ) -> FollowedList {
        FollowedList {
            epoch: self.epoch,
            allocation,
            collector,
            place,
        }
    }

    /// What its last list keeps.
    fn kept_list(
        &self,
        seen: &mut Seen<N>,
        place: usize,
        job: &Text,
        id: CollectorId,
        kept: &Keeping,
    ) -> Said
        requires at { IsSome (arc_value self.now.pages).acknowledge }
        requires look { FindsKept (now_of seen.old).state place id kept.now.look }
        ensures says { SaysServed seen.new (arc_value self.now.pages).acknowledge job.now place id result }
        ensures moves { Moves seen.old seen.new }
    {
        if self.is_broken() {
            seen.now();
            return Said::Refused(RequestError::NotKept);
        }
        self.look_told(seen, &self.pages.acknowledge, place, job, id, &kept.look)
    }

    /// A collector tells that it follows a list: it scrapes that it does, and is given no figures. It is noted where that is to count.
    pub(crate) fn acknowledged(&self, told: &Acknowledgement, counts: bool) -> Said
        ensures { SaysAcknowledged (arc_value self.now.pages).acknowledge result }
    {
        if self.pages.acknowledge.is_none() {
            return Said::Refused(RequestError::NoRoute);
        }
        if counts {
            self.note_followed(told);
        }
        Said::Metrics(Text::from_string(String::new(self.alloc)))
    }

    /// Notes that a collector follows its list of a job, where that is of this epoch.
    fn note_followed(&self, told: &Acknowledgement) {
        if let Some(place) = self.pages.place(told.job.as_str()) {
            if told.epoch == self.epoch && self.is_given(told.list) {
                let list = self.list_of(place, told.collector, told.list);
                self.state.note_followed(&self.rt, list);
            }
        }
    }

    /// Whether there is an allocation of a number.
    fn is_given(&self, number: AllocationNumber) -> bool {
        let mut pass = self.pass.lock(&self.rt);
        self.desk.read(
            &self.rt,
            &mut *pass,
            |record| number <= record.core().current(),
        )
    }
}
