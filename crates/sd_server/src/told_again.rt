//! Lists that are told again as they were told before, where nothing was entered since.
ghost use Rattle.std.specs.Prelude.{◌≡◌, None, true, IfSome};
ghost use Rattle.std.specs.Arc.{arc_value};
ghost use Rattle.sd_server.specs.Says.{SaysHeld};

use crate::handler::Handler;
use crate::own_list::OwnList;
use crate::seen::Seen;
use crate::told_list::ToldList;
use fleet_events::CollectorId;
use kept_journal::JournalName;
use lists::Text;
use sd_routes::Said;
use service_state::RoundTimes;
use std::alloc::AllocError;
use std::sync::ledger::Ledger;
use std::sync::{Arc, Wait};
use std::time::Clock;

impl<R: Wait + Clock + Copy, L: Ledger, B: Ledger, N: JournalName> Handler<R, L, B, N> {
    /// What a collector was told of a job before, where nothing was entered since. None where lists are acknowledged, are not served in order, or
    /// are not kept any more.
    pub(crate) fn told_before(
        &self,
        seen: &Seen<N>,
        place: usize,
        job: &Text,
        name: &str,
    ) -> Option<Said>
        ensures { IfSome result (SaysHeld seen.now (arc_value self.now.pages).acknowledge place job.now name.now true) }
    {
        match &self.pages.acknowledge {
            None if self.is_told_again() => self.told_again(seen, place, job, name),
            _ => None,
        }
    }

    fn is_told_again(&self) -> bool {
        self.state.is_ordered() && !self.is_broken()
    }

    fn told_again(&self, seen: &Seen<N>, place: usize, job: &Text, name: &str) -> Option<Said>
        ensures { IfSome result (SaysHeld seen.now None place job.now name.now true) }
    {
        let id = self.state.asked_again(&self.rt, name)?;
        let times = self.state.round_times(&self.rt);
        let said = match self.told_here(seen, place, job, name, times) {
            Some(said) => said,
            None => self.told_there(seen, place, job, name, times, id)?,
        };
        self.state.note_taker(&self.rt, id);
        Some(said)
    }

    /// The list that was told last on this connection. Where it is not the one that is asked for, it is let go.
    fn told_here(
        &self,
        seen: &Seen<N>,
        place: usize,
        job: &Text,
        name: &str,
        times: RoundTimes,
    ) -> Option<Said>
        ensures { IfSome result (SaysHeld seen.now None place job.now name.now true) }
    {
        let mut last = self.last.lock(&self.rt);
        let said = match &*last {
            Some(own) => own.again(seen, place, job.as_str(), name, times),
            None => None,
        };
        if said.is_none() {
            *last = None;
        }
        said
    }

    /// The list that the collector of this number was told last, on any connection. Where it is short, this one keeps it from now on.
    fn told_there(
        &self,
        seen: &Seen<N>,
        place: usize,
        job: &Text,
        name: &str,
        times: RoundTimes,
        id: CollectorId,
    ) -> Option<Said>
        ensures { IfSome result (SaysHeld seen.now None place job.now name.now true) }
    {
        let told = self.texts.told(&self.rt, id, place)?;
        let own = OwnList::of(self.alloc, told).ok()?;
        let said = own.again(seen, place, job.as_str(), name, times);
        if said.is_some() && own.is_short() {
            *self.last.lock(&self.rt) = Some(own);
        }
        said
    }

    /// Keeps what a collector was told, where there is memory, to tell it again.
    pub(crate) fn note_told(
        &self,
        seen: &Seen<N>,
        place: usize,
        job: &Text,
        name: &str,
        said: &Said,
    )
        requires { SaysHeld seen.now (arc_value self.now.pages).acknowledge place job.now name.now true said.now }
    {
        if let None = &self.pages.acknowledge {
            let _ = self.keep_told(seen, place, job, name, said);
        }
    }

    fn keep_told(
        &self,
        seen: &Seen<N>,
        place: usize,
        job: &Text,
        name: &str,
        said: &Said,
    ) -> Result<(), AllocError>
        requires { SaysHeld seen.now None place job.now name.now true said.now }
    {
        match ToldList::of(self.alloc, seen, place, job, name, said)? {
            Some(told) if self.state.is_ordered() => {
                let head = told.head();
                let told = Arc::new(self.alloc, told)?;
                self.texts
                    .keep_told(&self.rt, head.allocation, head.collector, place, told)
            }
            _ => Ok(()),
        }
    }
}
