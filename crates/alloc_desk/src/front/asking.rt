//! What is asked through a front: each answer is of the journal that the front has then seen, which begins with all that it had seen before.
ghost use Rattle.std.specs.Prelude.{◌≡◌, ◌+◌, length, Some, Err, IfOk, OnErr, drop, slice_get, take};
ghost use Rattle.std.specs.Fn.{FnOnceReturnsAt};
ghost use mathlib.Core.List.{IsPrefix};
ghost use Rattle.fleet.specs.Fleet.{id_named};
ghost use Rattle.allocation_core.specs.State.{instance_at};
ghost use Rattle.allocation_core.specs.Steps.{gained};
ghost use Rattle.journal_entries.specs.Legal.{IsLegal};
ghost use Rattle.alloc_desk.specs.Changed.{changed_in};
ghost use Rattle.alloc_desk.specs.History.{end_of, history_of};
ghost use Rattle.alloc_desk.specs.Idle.{IsIdleAt};
ghost use Rattle.alloc_desk.specs.Seen.{HasDone, IsAdded, entry_of};
ghost use Rattle.alloc_desk.specs.Views.{numbered_of, shares_of, target_of, view_of};
ghost use Rattle.alloc_desk.specs.declared.limits.TheConstants.{MOST_ENTRIES};

use crate::desk::Desk;
use crate::entries::entries;
use crate::front::Front;
use crate::idle::idle;
use crate::name::DeskName;
use crate::pass::Pass;
use crate::receipt::Receipt;
use crate::record::{EnterError, Record};
use crate::view::{View, numbered, shares, shown, target};
use allocation_core::{Answer, CollectorId, Event, TargetId};
use journal_entries::Entry;
use label_sets::Target;
use lists::List;
use price_certificate::{Instance, Plan};
use std::alloc::{AllocError, Global};
use std::sync::Wait;
use std::sync::ledger::Ledger;
use target_shares::{NumberedTarget, Share};

impl<N: DeskName> Front<N> {
    /// Enters an event for a pass, behind all that was seen. Its entry is then the last that was seen. What is refused is in the journal too; where the journal is full
    /// or memory is wanted, nothing happened.
    pub fn submit<L: Ledger, B: Ledger>(
        &mut self,
        rt: &impl Wait,
        desk: &Desk<L, B, N>,
        pass: &mut Pass<L, B, N>,
        event: Event,
    ) -> Result<Receipt, EnterError>
        ensures entered { IfOk result (λ r. IsAdded N.opening event pass.old r self.old self.new) }
        ensures stands { IfOk result (λ r. slice_get self.new r.position ≡ Some (entry_of event r)) }
        ensures seen { IsPrefix self.old self.new }
        ensures legal { IsLegal N.opening self.new (end_of N.opening self.new) }
        ensures counts { IfOk result (λ r. pass.new ≡ record { seat = pass.old.seat; calls = pass.old.calls + 1; booked = pass.old.booked + gained event r.answer }) }
        ensures full { result ≡ Err EnterError.JournalFull → length self.new ≡ MOST_ENTRIES }
        ensures err { OnErr result (pass.new ≡ pass.old) }
    {
        let mut locked = desk.locked_past(rt, self);
        let result = locked.submit(rt, pass, event);
        *self = locked.front().again();
        result
    }

    /// Reads one state and its journal, while nobody else submits.
    pub fn read<T, F: FnOnce(&Record) -> T, L: Ledger, B: Ledger>(
        &mut self,
        rt: &impl Wait,
        desk: &Desk<L, B, N>,
        pass: &mut Pass<L, B, N>,
        reader: F,
    ) -> T
        requires { F.IsAlwaysCallable reader }
        ensures read { FnOnceReturnsAt F.FnOnce reader (history_of N.opening self.new) result }
        ensures seen { IsPrefix self.old self.new }
        ensures done { HasDone N.opening pass.old self.new }
        ensures same { pass.new ≡ pass.old }
    {
        let mut locked = desk.locked_past(rt, self);
        locked.confirm(pass);
        *self = locked.front().again();
        reader(locked.record())
    }

    /// What the desk shows.
    pub fn view<L: Ledger, B: Ledger>(
        &mut self,
        rt: &impl Wait,
        desk: &Desk<L, B, N>,
        pass: &mut Pass<L, B, N>,
        alloc: Global,
    ) -> Result<View, AllocError>
        ensures read { IfOk result (λ v. v ≡ view_of (end_of N.opening self.new)) }
        ensures seen { IsPrefix self.old self.new }
        ensures done { HasDone N.opening pass.old self.new }
        ensures same { pass.new ≡ pass.old }
    {
        self.read(rt, desk, pass, |record| shown(alloc, record.core()))
    }

    /// The assignment problem of the moment.
    pub fn instance<L: Ledger, B: Ledger>(
        &mut self,
        rt: &impl Wait,
        desk: &Desk<L, B, N>,
        pass: &mut Pass<L, B, N>,
    ) -> Result<Instance, AllocError>
        ensures read { IfOk result (λ i. i ≡ instance_at (end_of N.opening self.new)) }
        ensures seen { IsPrefix self.old self.new }
        ensures done { HasDone N.opening pass.old self.new }
        ensures same { pass.new ≡ pass.old }
    {
        self.read(rt, desk, pass, |record| record.core().instance())
    }

    /// The instance and the plan of the last allocation that was published, both empty before the first.
    pub fn certificate<L: Ledger, B: Ledger>(
        &mut self,
        rt: &impl Wait,
        desk: &Desk<L, B, N>,
        pass: &mut Pass<L, B, N>,
    ) -> Result<(Instance, Plan), AllocError>
        ensures read { IfOk result (λ c. (c.0 ≡ (end_of N.opening self.new).problem) × (c.1 ≡ (end_of N.opening self.new).plan)) }
        ensures seen { IsPrefix self.old self.new }
        ensures done { HasDone N.opening pass.old self.new }
        ensures same { pass.new ≡ pass.old }
    {
        self.read(rt, desk, pass, |record| record.core().certificate())
    }

    /// The number of the live collector of a name.
    pub fn named<L: Ledger, B: Ledger>(
        &mut self,
        rt: &impl Wait,
        desk: &Desk<L, B, N>,
        pass: &mut Pass<L, B, N>,
        name: &str,
    ) -> Option<CollectorId>
        ensures read { result ≡ id_named (end_of N.opening self.new).fleet.collectors name.now }
        ensures seen { IsPrefix self.old self.new }
        ensures done { HasDone N.opening pass.old self.new }
        ensures same { pass.new ≡ pass.old }
    {
        self.read(rt, desk, pass, |record| record.core().named(name))
    }

    /// The place of a known target's job in the configuration, and the target.
    pub fn target<L: Ledger, B: Ledger>(
        &mut self,
        rt: &impl Wait,
        desk: &Desk<L, B, N>,
        pass: &mut Pass<L, B, N>,
        number: TargetId,
    ) -> Result<Option<(usize, Target)>, AllocError>
        ensures read { IfOk result (λ t. t ≡ target_of (end_of N.opening self.new) number) }
        ensures seen { IsPrefix self.old self.new }
        ensures done { HasDone N.opening pass.old self.new }
        ensures same { pass.new ≡ pass.old }
    {
        self.read(rt, desk, pass, |record| target(record.core(), number))
    }

    /// The targets of the job at a place in the configuration among those of these numbers, in their order.
    pub fn numbered<L: Ledger, B: Ledger>(
        &mut self,
        rt: &impl Wait,
        desk: &Desk<L, B, N>,
        pass: &mut Pass<L, B, N>,
        alloc: Global,
        job: usize,
        numbers: &[TargetId],
    ) -> Result<List<NumberedTarget>, AllocError>
        ensures read { IfOk result (λ l. l ≡ numbered_of (end_of N.opening self.new) job numbers.now) }
        ensures seen { IsPrefix self.old self.new }
        ensures done { HasDone N.opening pass.old self.new }
        ensures same { pass.new ≡ pass.old }
    {
        self.read(rt, desk, pass, |record| {
            numbered(alloc, record.core(), job, numbers)
        })
    }

    /// What each live collector holds of the job at a place in the configuration, in order of the collectors' numbers.
    pub fn shares<L: Ledger, B: Ledger>(
        &mut self,
        rt: &impl Wait,
        desk: &Desk<L, B, N>,
        pass: &mut Pass<L, B, N>,
        alloc: Global,
        job: usize,
    ) -> Result<List<Share>, AllocError>
        ensures read { IfOk result (λ l. l ≡ shares_of (end_of N.opening self.new) job) }
        ensures seen { IsPrefix self.old self.new }
        ensures done { HasDone N.opening pass.old self.new }
        ensures same { pass.new ≡ pass.old }
    {
        self.read(rt, desk, pass, |record| shares(alloc, record.core(), job))
    }

    /// Copies of the journal's entries from a position on, in order, at most so many.
    pub fn entries<L: Ledger, B: Ledger>(
        &mut self,
        rt: &impl Wait,
        desk: &Desk<L, B, N>,
        pass: &mut Pass<L, B, N>,
        alloc: Global,
        from: usize,
        most: usize,
    ) -> Result<List<Entry>, AllocError>
        ensures read { IfOk result (λ l. l ≡ take most (drop from self.new)) }
        ensures seen { IsPrefix self.old self.new }
        ensures done { HasDone N.opening pass.old self.new }
        ensures same { pass.new ≡ pass.old }
    {
        self.read(rt, desk, pass, |record| {
            entries(alloc, record.journal(), from, most)
        })
    }

    /// Whether live targets, collectors, drainings or limits changed since the last reallocation of the journal; true where there
    /// is none. No search is made.
    pub fn is_changed<L: Ledger, B: Ledger>(
        &mut self,
        rt: &impl Wait,
        desk: &Desk<L, B, N>,
        pass: &mut Pass<L, B, N>,
    ) -> bool
        ensures read { result ≡ changed_in self.new }
        ensures seen { IsPrefix self.old self.new }
        ensures done { HasDone N.opening pass.old self.new }
        ensures same { pass.new ≡ pass.old }
    {
        self.read(rt, desk, pass, |record| record.is_changed())
    }

    /// What an event is answered that would change nothing now, behind how many entries of the journal. There is none where it may change
    /// something.
    pub fn unchanged<L: Ledger, B: Ledger>(
        &mut self,
        rt: &impl Wait,
        desk: &Desk<L, B, N>,
        pass: &mut Pass<L, B, N>,
        event: &Event,
    ) -> Result<Option<(u64, Answer)>, AllocError>
        ensures read { IfOk result (IsIdleAt event.now (history_of N.opening self.new)) }
        ensures seen { IsPrefix self.old self.new }
        ensures done { HasDone N.opening pass.old self.new }
        ensures same { pass.new ≡ pass.old }
    {
        self.read(rt, desk, pass, |record| idle(record, event))
    }
}
