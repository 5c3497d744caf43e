//! What is read under the lock, each from one state.
ghost use Rattle.std.specs.Prelude.{◌≡◌, IfOk, drop, take};
ghost use Rattle.std.specs.Fn.{FnOnceReturnsAt};
ghost use Rattle.fleet.specs.Fleet.{id_named};
ghost use Rattle.allocation_core.specs.State.{instance_at};
ghost use Rattle.alloc_desk.specs.Changed.{changed_in};
ghost use Rattle.alloc_desk.specs.Idle.{IsIdleAt};
ghost use Rattle.alloc_desk.specs.Reached.{Reached};
ghost use Rattle.alloc_desk.specs.Views.{numbered_of, shares_of, target_of, view_of};

use crate::desk::Desk;
use crate::entries::entries;
use crate::idle::idle;
use crate::name::DeskName;
use crate::pass::Pass;
use crate::record::Record;
use crate::view::{View, numbered, shares, shown, target};
use allocation_core::{Answer, CollectorId, Event, TargetId};
use journal_entries::Entry;
use label_sets::Target;
use lists::List;
use price_certificate::{Instance, Plan};
use std::alloc::{AllocError, Global};
use std::sync::Wait;
use std::sync::ledger::Ledger;
use target_shares::{NumberedTarget, Share};

impl<L: Ledger, B: Ledger, N: DeskName> Desk<L, B, N> {
    /// Reads one state and its journal, while nobody else submits.
    pub fn read<T, F: FnOnce(&Record) -> T>(
        &self,
        rt: &impl Wait,
        pass: &mut Pass<L, B, N>,
        reader: F,
    ) -> T
        requires { F.IsAlwaysCallable reader }
        ensures read { Reached N.opening pass.old (λ h. FnOnceReturnsAt F.FnOnce reader h result) }
        ensures same { pass.new ≡ pass.old }
    {
        let mut locked = self.locked.lock(rt);
        locked.confirm(pass);
        reader(locked.record())
    }

    /// What the desk shows.
    pub fn view(
        &self,
        rt: &impl Wait,
        alloc: Global,
        pass: &mut Pass<L, B, N>,
    ) -> Result<View, AllocError>
        ensures read { IfOk result (λ v. Reached N.opening pass.old (λ h. v ≡ view_of h.state)) }
        ensures same { pass.new ≡ pass.old }
    {
        self.read(rt, pass, |record| shown(alloc, record.core()))
    }

    /// The assignment problem of the moment.
    pub fn instance(&self, rt: &impl Wait, pass: &mut Pass<L, B, N>) -> Result<Instance, AllocError>
        ensures read { IfOk result (λ i. Reached N.opening pass.old (λ h. i ≡ instance_at h.state)) }
        ensures same { pass.new ≡ pass.old }
    {
        self.read(rt, pass, |record| record.core().instance())
    }

    /// The instance and the plan of the last allocation that was published, both empty before the first.
    pub fn certificate(
        &self,
        rt: &impl Wait,
        pass: &mut Pass<L, B, N>,
    ) -> Result<(Instance, Plan), AllocError>
        ensures read { IfOk result (λ c. Reached N.opening pass.old (λ h. (c.0 ≡ h.state.problem) × (c.1 ≡ h.state.plan))) }
        ensures same { pass.new ≡ pass.old }
    {
        self.read(rt, pass, |record| record.core().certificate())
    }

    /// The number of the live collector of a name.
    pub fn named(&self, rt: &impl Wait, pass: &mut Pass<L, B, N>, name: &str) -> Option<CollectorId>
        ensures read { Reached N.opening pass.old (λ h. result ≡ id_named h.state.fleet.collectors name.now) }
        ensures same { pass.new ≡ pass.old }
    {
        self.read(rt, pass, |record| record.core().named(name))
    }

    /// The place of a known target's job in the configuration, and the target.
    pub fn target(
        &self,
        rt: &impl Wait,
        pass: &mut Pass<L, B, N>,
        number: TargetId,
    ) -> Result<Option<(usize, Target)>, AllocError>
        ensures read { IfOk result (λ t. Reached N.opening pass.old (λ h. t ≡ target_of h.state number)) }
        ensures same { pass.new ≡ pass.old }
    {
        self.read(rt, pass, |record| target(record.core(), number))
    }

    /// The targets of the job at a place in the configuration among those of these numbers, in their order.
    pub fn numbered(
        &self,
        rt: &impl Wait,
        alloc: Global,
        pass: &mut Pass<L, B, N>,
        job: usize,
        numbers: &[TargetId],
    ) -> Result<List<NumberedTarget>, AllocError>
        ensures read { IfOk result (λ l. Reached N.opening pass.old (λ h. l ≡ numbered_of h.state job numbers.now)) }
        ensures same { pass.new ≡ pass.old }
    {
        self.read(rt, pass, |record| {
            numbered(alloc, record.core(), job, numbers)
        })
    }

    /// What each live collector holds of the job at a place in the configuration, in order of the collectors' numbers.
    pub fn shares(
        &self,
        rt: &impl Wait,
        alloc: Global,
        pass: &mut Pass<L, B, N>,
        job: usize,
    ) -> Result<List<Share>, AllocError>
        ensures read { IfOk result (λ l. Reached N.opening pass.old (λ h. l ≡ shares_of h.state job)) }
        ensures same { pass.new ≡ pass.old }
    {
        self.read(rt, pass, |record| shares(alloc, record.core(), job))
    }

    /// Copies of the journal's entries from a position on, in order, at most so many.
    pub fn entries(
        &self,
        rt: &impl Wait,
        alloc: Global,
        pass: &mut Pass<L, B, N>,
        from: usize,
        most: usize,
    ) -> Result<List<Entry>, AllocError>
        ensures read { IfOk result (λ l. Reached N.opening pass.old (λ h. l ≡ take most (drop from h.journal))) }
        ensures same { pass.new ≡ pass.old }
    {
        self.read(rt, pass, |record| {
            entries(alloc, record.journal(), from, most)
        })
    }

    /// Whether live targets, collectors, drainings or limits changed since the last reallocation of the journal; true where there
    /// is none. No search is made.
    pub fn is_changed(&self, rt: &impl Wait, pass: &mut Pass<L, B, N>) -> bool
        ensures read { Reached N.opening pass.old (λ h. result ≡ changed_in h.journal) }
        ensures same { pass.new ≡ pass.old }
    {
        self.read(rt, pass, |record| record.is_changed())
    }

    /// What an event is answered that would change nothing now, behind how many entries of the journal. There is none where it may change
    /// something.
    pub fn unchanged(
        &self,
        rt: &impl Wait,
        pass: &mut Pass<L, B, N>,
        event: &Event,
    ) -> Result<Option<(u64, Answer)>, AllocError>
        ensures read { IfOk result (λ o. Reached N.opening pass.old (λ h. IsIdleAt event.now h o)) }
        ensures same { pass.new ≡ pass.old }
    {
        self.read(rt, pass, |record| idle(record, event))
    }
}
