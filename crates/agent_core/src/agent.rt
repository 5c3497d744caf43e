//! What an agent holds of the allocator, what it serves its Prometheus, and what it reports.
ghost use Rattle.std.specs.Prelude.{◌≡◌, ℕ, IfOk, OnErr, OnOk};
ghost use Rattle.agent_core.specs.Agents.{Asked, Cut, Gone, Over, Shown, Taken, Unknown, is_same, may_report, next, nobody, reported, serving_of, with_lists, with_round};

use crate::choosing::choose_all;
use crate::memory::Memory;
use crate::report::{Head, Report};
use crate::said::Said;
use crate::serving::{
    Serving, Standing, is_expired, is_nobody, keep_listed, places, shown_standing,
};
use crate::sharing::Lasts;
use crate::target::Listed;
use indexmap::IndexSet;
use std::alloc::{AllocError, Global};
use std::marker::Model;

/// The lists of all jobs, of one answer.
#[derive(Drop)]
pub struct Lists {
    pub head: Head,
    /// The time up to which the round is open for certain.
    pub until: u64,
    pub targets: IndexSet<Listed>,
}

/// An agent. Contracts see its state.
#[derive(Drop)]
pub struct Agent {
    alloc: Global,
    memory: Memory,
    standing: Standing,
    head: Head,
    until: u64,
    targets: IndexSet<Listed>,
    served: Vec<usize>,
    known: bool,
    heard: u64,
    lease: Option<u64>,
}

impl Model for Agent {
    ghost use Rattle.agent_core.specs.Agents.{State};

    ghost Value = { State };

    ghost view = { λ a. record { told = a.memory; standing = a.standing; head = a.head; until = a.until; targets = a.targets.keys; served = a.served.items; known = a.known; heard = a.heard; lease = a.lease } };
}

impl Agent {
    /// An agent that knows of no list. With a lease it lets go of its lists once nothing was heard of the allocator for so long. It takes no
    /// memory.
    pub fn new(alloc: Global, memory: Memory, lease: Option<u64>) -> Agent
        ensures { result ≡ nobody memory lease }
    {
        Agent {
            alloc,
            memory,
            standing: Standing::Nobody,
            head: Head {
                collector: 0,
                epoch: 0,
                number: 0,
                round: 0,
            },
            until: 0,
            targets: IndexSet::new(alloc),
            served: Vec::new(alloc),
            known: false,
            heard: 0,
            lease,
        }
    }

    /// What is to be written down before a report is posted.
    pub fn memory(&self) -> &Memory
        ensures { result.now ≡ self.now.told }
    {
        &self.memory
    }

    /// What the agent is to the allocator.
    pub fn standing(&self) -> Standing
        ensures { result ≡ self.now.standing }
    {
        self.standing
    }

    /// The head of the list that it holds, with the last round that it was told.
    pub fn head(&self) -> Head
        ensures { result ≡ self.now.head }
    {
        self.head
    }

    /// The targets of the list that was taken last.
    pub fn targets(&self) -> &[Listed]
        ensures { result.now ≡ self.now.targets }
    {
        self.targets.as_slice()
    }

    /// The indices of those among them that are served.
    pub fn served(&self) -> &[usize]
        ensures { result.now ≡ self.now.served }
    {
        self.served.as_slice()
    }

    /// What is served at a time.
    pub fn serving(&self, now: u64) -> Serving
        ensures { result ≡ serving_of self.now now }
    {
        if !self.known {
            return Serving::Unknown;
        }
        if is_expired(self.lease, self.heard, now) {
            return Serving::Nothing;
        }
        Serving::Served
    }

    /// A list was taken at a time: it is held and served. Without memory nothing changes.
    pub fn taken(&mut self, at: u64, lists: Lists) -> Result<(), AllocError>
        ensures ok { OnOk result (self.new ≡ next self.old (Taken at lists.head lists.until lists.targets.keys)) }
        ensures err { OnErr result (self.new ≡ self.old) }
    {
        let served = places(self.alloc, lists.targets.len())?;
        self.memory.carry(at, lists.targets.as_slice())?;
        self.served = served;
        self.hold(at, lists);
        Ok(())
    }

    /// The allocator showed the current lists at a time, and gave none: what they no longer have is served no more.
    pub fn shown(&mut self, at: u64, lists: &Lists)
        ensures { self.new ≡ next self.old (Shown at lists.now.head lists.now.until lists.now.targets.keys) }
    {
        let same = self.is_same(lists);
        self.standing = shown_standing(self.standing, same, at);
        self.heard = at;
        self.follow_round(lists);
        let targets = self.targets.as_slice();
        keep_listed(&mut self.served, targets, &lists.targets);
    }

    /// The allocator said at a time that the agent's collector holds nothing: nothing is served.
    pub fn gone(&mut self, at: u64)
        ensures { self.new ≡ next self.old (Gone at) }
    {
        self.standing = Standing::Nobody;
        self.until = 0;
        self.targets = IndexSet::new(self.alloc);
        self.served = Vec::new(self.alloc);
        self.known = true;
        self.heard = at;
    }

    /// The allocator said at a time that it does not know the agent's collector: what is served stays.
    pub fn unknown(&mut self, at: u64)
        ensures { self.new ≡ next self.old (Unknown at) }
    {
        self.standing = Standing::Nobody;
        self.until = 0;
        self.heard = at;
    }

    /// A report was refused, since its round or its list is over: nothing is reported until the allocator shows or gives a list.
    pub fn over(&mut self)
        ensures { self.new ≡ next self.old Over }
    {
        self.until = 0;
    }

    /// Chooses reports of what Prometheus said, as it is asked at a time. Each is noted in the memory, which is to be written down before the
    /// first is posted. Without memory none is given, and those that were chosen before it ended are lost.
    pub fn choose(
        &mut self,
        now: u64,
        said: &Said,
        lasts: &Lasts,
    ) -> Result<Vec<Report>, AllocError>
        ensures reports { IfOk result (λ v. v.items ≡ reported self.old (Asked now said.now.entries lasts.now.entries)) }
        ensures state { OnOk result (self.new ≡ next self.old (Asked now said.now.entries lasts.now.entries)) }
        ensures err { OnErr result ((count : ℕ) × ((more : ℕ) × (self.new ≡ next self.old (Cut now said.now.entries lasts.now.entries count more)))) }
    {
        if !self.may_report(now) {
            return Ok(Vec::new(self.alloc));
        }
        let targets = self.targets.as_slice();
        choose_all(
            self.alloc,
            &mut self.memory,
            self.head,
            targets,
            said,
            lasts,
        )
    }
}

impl Agent {
    /// Whether it holds a list, and its round is open for certain.
    fn may_report(&self, now: u64) -> bool
        ensures { result ≡ may_report self.now now }
    {
        !is_nobody(self.standing) && now < self.until
    }

    fn hold(&mut self, at: u64, lists: Lists)
        ensures { self.new ≡ with_lists self.old at lists.head lists.until lists.targets.keys }
    {
        let Lists {
            head,
            until,
            targets,
        } = lists;
        self.standing = Standing::Holding;
        self.head = head;
        self.until = until;
        self.targets = targets;
        self.known = true;
        self.heard = at;
    }

    /// The round that is open in the epoch of the list that it holds. Of another epoch none is.
    fn follow_round(&mut self, lists: &Lists)
        ensures { self.new ≡ with_round self.old lists.now.head lists.now.until }
    {
        if self.head.epoch == lists.head.epoch {
            self.head.round = lists.head.round;
            self.until = lists.until;
        } else {
            self.until = 0;
        }
    }

    /// Whether lists are those that it holds.
    fn is_same(&self, lists: &Lists) -> bool
        ensures { result ≡ is_same self.now lists.now.head lists.now.targets.keys }
    {
        self.head.epoch == lists.head.epoch
            && self.head.number == lists.head.number
            && self.targets.as_slice() == lists.targets.as_slice()
    }
}
