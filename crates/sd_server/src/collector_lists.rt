//! The lists that collectors ask for.
ghost use Rattle.std.specs.Prelude.{◌≡◌, ◌<◌, true, false, Some, IfOk, IfErr, IfSome, IsTrue, All, length};
ghost use Rattle.std.specs.Arc.{arc_value};
ghost use Rattle.fleet.specs.Fleet.{id_named};
ghost use Rattle.fleet_events.specs.declared.event.Event.TheVariants.{Serve, Take};
ghost use Rattle.allocation_core.specs.Idle.{IsIdle};
ghost use Rattle.alloc_desk.specs.History.{history_of};
ghost use Rattle.alloc_desk.specs.Views.{numbered_of};
ghost use Rattle.service_state.specs.Jobs.{place_of};
ghost use Rattle.sd_server.specs.Listing.{AreGroups, AreKnown, IsGroups, IsListText};
ghost use Rattle.sd_server.specs.Looks.{HeadIs, IsLook};
ghost use Rattle.sd_server.specs.Texts.{groups_text};
ghost use Rattle.sd_server.specs.Spans.{Moves, now_of};
ghost use Rattle.sd_server.specs.Says.{IsAnswered, SaysCollector, SaysGiven, SaysGone, SaysHeld, SaysList, SaysLook, SaysLookOf, SaysNot, SaysGroups, SaysServed, SaysTold};

use crate::handler::Handler;
use crate::list_text::ListText;
use crate::look::{Look, look_at};
use crate::seen::Seen;
use alloc_desk::Front;
use allocation_core::{Answer, Core, Event, Refusal};
use bytes::Bytes;
use entity_tags::TaggedText;
use fleet_events::{AllocationNumber, CollectorId, Round, TargetId};
use kept_journal::JournalName;
use lists::{List, Plain, Text};
use reach_rules::CollectorName;
use sd_routes::{ListHead, RequestError, Said, WrittenHead, acknowledged_list, targets_page};
use std::alloc::AllocError;
use std::sync::ledger::Ledger;
use std::sync::{Arc, Wait};
use std::time::Clock;
use target_shares::NumberedTarget;

impl<R: Wait + Clock + Copy, L: Ledger, B: Ledger, N: JournalName> Handler<R, L, B, N> {
    /// What is told of a job to who asks under a name: by an event that changes something where there is one to be, or without one.
    pub(crate) fn collector(
        &self,
        seen: &mut Seen<N>,
        job: &Text,
        name: &CollectorName,
        takes: bool,
    ) -> Said
        ensures says { SaysCollector seen.new (arc_value self.now.pages).acknowledge job.now name.now takes (place_of job.now (arc_value self.now.pages).names) result }
        ensures moves { Moves seen.old seen.new }
    {
        let Some(place) = self.pages.place(job.as_str()) else {
            seen.now();
            return Said::Answer(Answer::Not(Refusal::UnknownJob));
        };
        self.told_under(seen, place, job, name.as_str(), takes)
    }

    fn told_under(
        &self,
        seen: &mut Seen<N>,
        place: usize,
        job: &Text,
        name: &str,
        takes: bool,
    ) -> Said
        ensures says { SaysHeld seen.new (arc_value self.now.pages).acknowledge place job.now name.now takes result }
        ensures moves { Moves seen.old seen.new }
    {
        if takes {
            self.held(seen, place, job, name)
        } else {
            self.looked(seen, place, job, name)
        }
    }

    /// What is told of a job to the collector of a name. It is what it was told before, where nothing was entered since.
    fn held(&self, seen: &mut Seen<N>, place: usize, job: &Text, name: &str) -> Said
        ensures says { SaysHeld seen.new (arc_value self.now.pages).acknowledge place job.now name.now true result }
        ensures moves { Moves seen.old seen.new }
    {
        match self.told_before(seen, place, job, name) {
            Some(said) => {
                seen.now();
                said
            }
            None => self.held_anew(seen, place, job, name),
        }
    }

    fn held_anew(&self, seen: &mut Seen<N>, place: usize, job: &Text, name: &str) -> Said
        ensures says { SaysHeld seen.new (arc_value self.now.pages).acknowledge place job.now name.now true result }
        ensures moves { Moves seen.old seen.new }
    {
        let said = self.held_now(seen, place, job, name);
        self.note_told(seen, place, job, name, &said);
        said
    }

    #[tactic(auto, using(crate::proofs::SpanLemmas::moves_trans), unfolding(crate::specs::Says::SaysHeld))]
    fn held_now(&self, seen: &mut Seen<N>, place: usize, job: &Text, name: &str) -> Said
        ensures says { SaysHeld seen.new (arc_value self.now.pages).acknowledge place job.now name.now true result }
        ensures moves { Moves seen.old seen.new }
    {
        match self.named(seen, name) {
            Some(id) => {
                self.state.note_asked(&self.rt, name, id);
                self.state.note_taker(&self.rt, id);
                self.list(seen, place, job, name, id)
            }
            None => self.gone(seen, job, name),
        }
    }

    /// The number of the live collector of a name.
    pub(crate) fn named(&self, seen: &mut Seen<N>, name: &str) -> Option<CollectorId>
        ensures read { result ≡ id_named (now_of seen.new).state.fleet.collectors name.now }
        ensures moves { Moves seen.old seen.new }
    {
        let mut pass = self.pass.lock(&self.rt);
        seen.latest.named(&self.rt, &self.desk, &mut *pass, name)
    }

    /// What a collector is told of a job.
    fn list(
        &self,
        seen: &mut Seen<N>,
        place: usize,
        job: &Text,
        name: &str,
        id: CollectorId,
    ) -> Said
        ensures says { SaysList seen.new (arc_value self.now.pages).acknowledge place job.now id true result }
        ensures moves { Moves seen.old seen.new }
    {
        if !self.state.is_ordered() {
            return self.given(seen, place, job, id, Event::Take(id));
        }
        self.ordered_list(seen, place, job, name, id)
    }

    /// What it is told where lists are served in order.
    #[tactic(auto, using(crate::proofs::SpanLemmas::moves_trans))]
    fn ordered_list(
        &self,
        seen: &mut Seen<N>,
        place: usize,
        job: &Text,
        name: &str,
        id: CollectorId,
    ) -> Said
        ensures says { SaysServed seen.new (arc_value self.now.pages).acknowledge job.now place id result }
        ensures moves { Moves seen.old seen.new }
    {
        self.let_earlier_go(seen, job, name, id);
        match &self.pages.acknowledge {
            Some(_) => self.acknowledged_list(seen, place, job, id),
            None => self.served(seen, place, job, id),
        }
    }

    /// Its list of the job is the one that it is served under its number of now.
    fn let_earlier_go(&self, seen: &mut Seen<N>, job: &Text, name: &str, id: CollectorId)
        ensures moves { Moves seen.old seen.new }
    {
        match self.state.earlier(&self.rt, name, id) {
            Some(earlier) => {
                let _ = self.let_go(seen, job, earlier);
            }
            None => {
                seen.now();
            }
        }
    }

    pub(crate) fn served(
        &self,
        seen: &mut Seen<N>,
        place: usize,
        job: &Text,
        id: CollectorId,
    ) -> Said
        ensures says { SaysGiven seen.new (arc_value self.now.pages).acknowledge job.now place id (Serve id job.now) result }
        ensures moves { Moves seen.old seen.new }
    {
        match job.copy() {
            Ok(copy) => {
                let collector = id;
                let event = Event::Serve {
                    collector,
                    job: copy,
                };
                self.given(seen, place, job, id, event)
            }
            Err(_) => {
                seen.now();
                Said::Refused(RequestError::Memory)
            }
        }
    }

    /// What a collector is told of a job by the answer to an event.
    #[tactic(auto, using(crate::proofs::SpanLemmas::moves_trans))]
    fn given(
        &self,
        seen: &mut Seen<N>,
        place: usize,
        job: &Text,
        id: CollectorId,
        event: Event,
    ) -> Said
        ensures says { SaysGiven seen.new (arc_value self.now.pages).acknowledge job.now place id event result }
        ensures moves { Moves seen.old seen.new }
    {
        match self.answered(seen, event) {
            Ok(answer) => self.told(seen, place, job, id, answer),
            Err(error) => Said::Refused(error),
        }
    }

    /// What is told under a name that no live collector has: who had it is to let go of what it scrapes.
    fn gone(&self, seen: &mut Seen<N>, job: &Text, name: &str) -> Said
        ensures says { SaysGone seen.new result }
        ensures moves { Moves seen.old seen.new }
    {
        let Some(id) = self.state.number_of(&self.rt, name) else {
            seen.now();
            return Said::Answer(Answer::Not(Refusal::UnknownCollector));
        };
        self.state.note_taker(&self.rt, id);
        if !self.state.is_ordered() {
            seen.now();
            return Said::Nothing;
        }
        match self.let_go(seen, job, id) {
            Ok(()) => Said::Nothing,
            Err(error) => Said::Refused(error),
        }
    }

    /// The list of a job of a collector that left is let go.
    fn let_go(
        &self,
        seen: &mut Seen<N>,
        job: &Text,
        collector: CollectorId,
    ) -> Result<(), RequestError>
        ensures not { IfErr result (SaysNot seen.new) }
        ensures moves { Moves seen.old seen.new }
    {
        let Ok(job) = job.copy() else {
            seen.now();
            return Err(RequestError::Memory);
        };
        match self.answered(seen, Event::Serve { collector, job }) {
            Ok(answer) => {
                drop(answer);
                Ok(())
            }
            Err(error) => Err(error),
        }
    }

    /// The answer to an event. An event that would change nothing is not entered.
    #[tactic(auto, using(crate::proofs::SpanLemmas::moves_trans))]
    fn answered(&self, seen: &mut Seen<N>, event: Event) -> Result<Answer, RequestError>
        ensures answer { IfOk result (IsAnswered seen.new event) }
        ensures not { IfErr result (SaysNot seen.new) }
        ensures moves { Moves seen.old seen.new }
    {
        if self.is_broken() {
            drop(event);
            seen.now();
            return Err(RequestError::NotKept);
        }
        match self.unchanged(seen, &event) {
            Some(told) => {
                drop(event);
                Ok(told)
            }
            None => self.answered_once_entered(seen, event),
        }
    }

    fn answered_once_entered(
        &self,
        seen: &mut Seen<N>,
        event: Event,
    ) -> Result<Answer, RequestError>
        ensures answer { IfOk result (IsAnswered seen.new event) }
        ensures not { IfErr result (SaysNot seen.new) }
        ensures moves { Moves seen.old seen.new }
    {
        match self.submitted(seen, event) {
            Ok(receipt) => Ok(receipt.answer),
            Err(error) => Err(error),
        }
    }

    /// What an event is answered that would change nothing.
    fn unchanged(&self, seen: &mut Seen<N>, event: &Event) -> Option<Answer>
        ensures read { IfSome result (λ answer. IsIdle (now_of seen.new).state event.now (Some answer)) }
        ensures moves { Moves seen.old seen.new }
    {
        let mut pass = self.pass.lock(&self.rt);
        match seen
            .latest
            .unchanged(&self.rt, &self.desk, &mut *pass, event)
        {
            Ok(Some((_entries, answer))) => Some(answer),
            _ => None,
        }
    }

    /// What the answer to a Take or a Serve of a collector is told as.
    fn told(
        &self,
        seen: &mut Seen<N>,
        place: usize,
        job: &Text,
        id: CollectorId,
        answer: Answer,
    ) -> Said
        ensures says { SaysTold seen.new (arc_value self.now.pages).acknowledge job.now place id answer result }
        ensures moves { Moves seen.old seen.new }
    {
        match answer {
            Answer::Taken {
                allocation,
                round,
                held,
            } => {
                let head = self.head(id, allocation, round, None);
                self.groups_told(seen, &None, job.as_str(), place, head, held.as_slice())
            }
            Answer::Served {
                allocation,
                round,
                listed,
                left_out,
            } => match u32::try_from(left_out.len()) {
                Ok(left_out) => {
                    let head = self.head(id, allocation, round, Some(left_out));
                    self.groups_told(
                        seen,
                        &self.pages.acknowledge,
                        job.as_str(),
                        place,
                        head,
                        listed.as_slice(),
                    )
                }
                Err(_) => {
                    seen.now();
                    Said::Refused(RequestError::Memory)
                }
            },
            other => {
                seen.now();
                Said::Answer(other)
            }
        }
    }

    /// The head of a list.
    pub(crate) fn head(
        &self,
        collector: CollectorId,
        allocation: AllocationNumber,
        round: Round,
        left_out: Option<u32>,
    ) -> ListHead
        ensures { HeadIs collector allocation round left_out result }
    {
        let times = self.state.round_times(&self.rt);
        ListHead {
            allocation,
            round,
            left_out,
            collector,
            epoch: self.epoch,
            age: times.age,
            length: times.length,
        }
    }

    /// A list with this head, which is acknowledged where that is told to.
    fn groups_told(
        &self,
        seen: &mut Seen<N>,
        at: &Option<Text>,
        job: &str,
        place: usize,
        head: ListHead,
        targets: &[TargetId],
    ) -> Said
        ensures says { SaysGroups seen.new at.now job.now place head targets.now result }
        ensures moves { Moves seen.old seen.new }
    {
        match self.text_of_list(seen, at, job, place, &head, targets) {
            Ok(groups) => match WrittenHead::new(self.alloc, head) {
                Ok(head) => Said::List { head, groups },
                Err(_) => {
                    drop(groups);
                    Said::Refused(RequestError::Memory)
                }
            },
            Err(_) => Said::Refused(RequestError::Memory),
        }
    }

    /// What is shown to who only looks, and takes nothing.
    #[tactic(auto, using(crate::proofs::SpanLemmas::moves_trans), unfolding(crate::specs::Says::SaysHeld))]
    fn looked(&self, seen: &mut Seen<N>, place: usize, job: &Text, name: &str) -> Said
        ensures says { SaysHeld seen.new (arc_value self.now.pages).acknowledge place job.now name.now false result }
        ensures moves { Moves seen.old seen.new }
    {
        match self.named(seen, name) {
            Some(id) => self.look(seen, place, job, id),
            None if self.state.was_live(&self.rt, name) => Said::Nothing,
            None => Said::Answer(Answer::Not(Refusal::UnknownCollector)),
        }
    }

    #[tactic(auto, using(crate::proofs::SpanLemmas::moves_trans))]
    fn look(&self, seen: &mut Seen<N>, place: usize, job: &Text, id: CollectorId) -> Said
        ensures says { SaysLook seen.new place job.now id result }
        ensures moves { Moves seen.old seen.new }
    {
        match self.look_now(seen, job, id) {
            Ok(look) => self.look_told(seen, &None, place, job, id, &look),
            Err(_) => Said::Refused(RequestError::Memory),
        }
    }

    /// What a look is told as, which is acknowledged where that is told to.
    pub(crate) fn look_told(
        &self,
        seen: &mut Seen<N>,
        at: &Option<Text>,
        place: usize,
        job: &Text,
        id: CollectorId,
        look: &Look,
    ) -> Said
        ensures says { SaysLookOf seen.new at.now job.now place id look.now result }
        ensures moves { Moves seen.old seen.new }
    {
        let head = self.head(id, look.allocation, look.round, look.left_out);
        self.groups_told(seen, at, job.as_str(), place, head, look.targets.as_slice())
    }

    fn look_now(&self, seen: &mut Seen<N>, job: &Text, id: CollectorId) -> Result<Look, AllocError>
        ensures read { IfOk result (IsLook (now_of seen.new).state job.now id) }
        ensures moves { Moves seen.old seen.new }
    {
        let is_ordered = self.state.is_ordered();
        let mut pass = self.pass.lock(&self.rt);
        seen.latest
            .read(&self.rt, &self.desk, &mut *pass, |record| {
                look_at(record.core(), job.as_str(), id, is_ordered)
            })
    }

    fn text_of_list(
        &self,
        seen: &mut Seen<N>,
        at: &Option<Text>,
        job: &str,
        place: usize,
        head: &ListHead,
        targets: &[TargetId],
    ) -> Result<TaggedText, AllocError>
        ensures text { IfOk result (IsListText seen.new at.now job.now head.now place targets.now) }
        ensures moves { Moves seen.old seen.new }
    {
        match at {
            Some(at) => self.acknowledged_text(seen, at.as_str(), job, place, head, targets),
            None => self.groups(seen, place, head.collector, head.allocation, targets),
        }
    }

    /// The text of a list that is acknowledged.
    fn acknowledged_text(
        &self,
        seen: &mut Seen<N>,
        at: &str,
        job: &str,
        place: usize,
        head: &ListHead,
        targets: &[TargetId],
    ) -> Result<TaggedText, AllocError>
        ensures text { IfOk result (IsListText seen.new (Some at.now) job.now head.now place targets.now) }
        ensures moves { Moves seen.old seen.new }
    {
        let groups = self.groups(seen, place, head.collector, head.allocation, targets)?;
        Ok(TaggedText::untagged(acknowledged_list(self.alloc, at, job, head, groups.as_slice())?))
    }

    /// The text of these targets of a collector in an allocation.
    fn groups(
        &self,
        seen: &mut Seen<N>,
        place: usize,
        collector: CollectorId,
        allocation: AllocationNumber,
        held: &[TargetId],
    ) -> Result<TaggedText, AllocError>
        ensures text { IfOk result (IsGroups seen.new place held.now) }
        ensures moves { Moves seen.old seen.new }
    {
        let known = self
            .texts
            .text(&self.rt, seen.now(), collector, place, held)?;
        match known {
            Some(text) => Ok(text),
            None => self.new_groups(seen, place, collector, allocation, held),
        }
    }

    /// The text anew, which is kept where there is memory.
    fn new_groups(
        &self,
        seen: &mut Seen<N>,
        place: usize,
        collector: CollectorId,
        allocation: AllocationNumber,
        held: &[TargetId],
    ) -> Result<TaggedText, AllocError>
        ensures text { IfOk result (IsGroups seen.new place held.now) }
        ensures moves { Moves seen.old seen.new }
    {
        let text = self.groups_now(seen, place, held)?;
        self.keep_text(seen, place, collector, allocation, held, &text);
        Ok(text)
    }

    /// Keeps a text, where there is memory.
    fn keep_text(
        &self,
        seen: &Seen<N>,
        place: usize,
        collector: CollectorId,
        allocation: AllocationNumber,
        held: &[TargetId],
        text: &TaggedText,
    )
        requires { AreGroups place held.now text.now (now_of seen.now) }
    {
        if let Ok(kept) = self.kept_text(seen.now(), place, held, text) {
            let _ = self
                .texts
                .keep(&self.rt, allocation, collector, place, kept);
        }
    }

    /// A text of what a front has seen, to be kept.
    fn kept_text(
        &self,
        front: &Front<N>,
        place: usize,
        held: &[TargetId],
        text: &TaggedText,
    ) -> Result<Arc<ListText<N>>, AllocError>
        requires { AreGroups place held.now text.now (history_of N.opening front.now) }
    {
        let text = ListText::new(self.alloc, front, place, held, text.again()?)?;
        Ok(Arc::new(self.alloc, text)?)
    }

    /// The text of these targets now. There is none where one is not known, as those of a list are.
    fn groups_now(
        &self,
        seen: &mut Seen<N>,
        place: usize,
        held: &[TargetId],
    ) -> Result<TaggedText, AllocError>
        ensures text { IfOk result (λ t. AreGroups place held.now t (now_of seen.new)) }
        ensures moves { Moves seen.old seen.new }
    {
        if !self.are_known(seen, held) {
            return Err(AllocError);
        }
        self.groups_text(seen, place, held)
    }

    fn groups_text(
        &self,
        seen: &mut Seen<N>,
        place: usize,
        held: &[TargetId],
    ) -> Result<TaggedText, AllocError>
        ensures text { IfOk result (λ t. t ≡ groups_text place held.now (now_of seen.new)) }
        ensures moves { Moves seen.old seen.new }
    {
        let targets = self.numbered(seen, place, held)?;
        let page = targets_page(self.alloc, targets.as_slice())?;
        TaggedText::tagged(self.alloc, Bytes::from_string(page.into_string())?)
    }

    fn are_known(&self, seen: &mut Seen<N>, held: &[TargetId]) -> bool
        ensures known { IsTrue result → AreKnown (now_of seen.new) held.now }
        ensures moves { Moves seen.old seen.new }
    {
        let mut pass = self.pass.lock(&self.rt);
        seen.latest.read(
            &self.rt,
            &self.desk,
            &mut *pass,
            |record| are_known(record.core(), held),
        )
    }

    pub(crate) fn numbered(
        &self,
        seen: &mut Seen<N>,
        place: usize,
        held: &[TargetId],
    ) -> Result<List<NumberedTarget>, AllocError>
        ensures read { IfOk result (λ l. l ≡ numbered_of (now_of seen.new).state place held.now) }
        ensures moves { Moves seen.old seen.new }
    {
        let mut pass = self.pass.lock(&self.rt);
        seen.latest
            .numbered(&self.rt, &self.desk, &mut *pass, self.alloc, place, held)
    }
}

/// Whether all of these targets are known.
fn are_known(core: &Core, held: &[TargetId]) -> bool
    ensures { IsTrue result → All (λ target. target < length core.now.fleet.known) held.now }
{
    let known = core.fleet().known().len();
    held.iter().all(|target| (*target as usize) < known)
}
