//! The collectors that the configuration names: what is entered of them as it changes.
use crate::differences::collector_named;
use crate::logging::{log_of_name, log_warning};
use crate::shared::Shared;
use alloc_desk::Pass;
use allocation_core::Core;
use fleet_events::{AllocationNumber, CollectorId, Event};
use kept_journal::JournalName;
use lists::{List, Plain};
use log::Level;
use reach_rules::{CollectorName, OwnLimits, Reach};
use service_settings::{Collector, JoiningPattern, ReachChanges, Settings};
use std::alloc::{AllocError, Global};
use std::sync::Wait;
use std::sync::ledger::Ledger;
use std::time::{Clock, Duration, Instant};

/// For how many rounds a collector that holds nothing any more may go without taking that before it leaves.
const PATIENCE: u32 = 2;

/// The collectors that the configuration names, and those that are emptied since it changed.
#[derive(Drop)]
pub(crate) struct Roster {
    /// As the configuration that is followed has them. None before the first.
    listed: List<Collector>,
    /// By which others join.
    patterns: List<JoiningPattern>,
    departures: Vec<Departure>,
}

/// A collector that is drained since the configuration changed, until it leaves.
#[derive(Drop)]
struct Departure {
    /// What it joins with where it joins again.
    collector: Collector,
    /// Whether it joins again once it has left, since it has another reach.
    returns: bool,
    /// The allocation in which it was first seen to hold nothing, and when that was.
    emptied: Option<(AllocationNumber, Instant)>,
    is_over: bool,
}

/// What a live collector is beside what the configuration says of it.
#[derive(Clone, Copy, Drop)]
struct Standing {
    id: CollectorId,
    draining: bool,
    has_reach: bool,
    has_limits: bool,
}

/// What a live collector holds.
#[derive(Clone, Copy, Drop)]
struct Holding {
    id: CollectorId,
    draining: bool,
    is_empty: bool,
    /// The number of the current allocation.
    current: AllocationNumber,
    /// The number of the allocation that it took last, 0 where it took none.
    taken: AllocationNumber,
    /// Whether lists that it was served still have targets.
    has_lists: bool,
}

impl Holding {
    /// Whether it was told that it holds nothing since an allocation in which that is so, or was never told of anything.
    fn is_told(&self, number: AllocationNumber) -> bool {
        !self.has_lists && (self.taken == 0 || self.taken >= number)
    }
}

impl Roster {
    pub(crate) fn new(alloc: Global) -> Roster {
        Roster {
            listed: List::new(alloc),
            patterns: List::new(alloc),
            departures: Vec::new(alloc),
        }
    }

    /// The collectors of the configuration that is followed.
    pub(crate) fn listed(&self) -> &[Collector] {
        self.listed.as_slice()
    }

    /// By which collectors join that the configuration does not name.
    pub(crate) fn patterns(&self) -> &[JoiningPattern] {
        self.patterns.as_slice()
    }

    /// Has the configuration that is followed name these.
    fn list(
        &mut self,
        alloc: Global,
        collectors: &[Collector],
        patterns: &[JoiningPattern],
    ) -> Result<(), AllocError> {
        let patterns = patterns_copied(alloc, patterns)?;
        drop(std::mem::replace(&mut self.patterns, patterns));
        let listed = all_copied(alloc, collectors)?;
        drop(std::mem::replace(&mut self.listed, listed));
        Ok(())
    }

    fn is_departing(&self, name: &str) -> bool {
        self.departures
            .iter()
            .any(|departure| departure.collector.name.as_str() == name)
    }

    /// A collector is drained from now on.
    fn begin_departure(&mut self, collector: Collector, returns: bool) -> Result<(), AllocError> {
        self.departures.push(Departure {
            collector,
            returns,
            emptied: None,
            is_over: false,
        })?;
        Ok(())
    }

    /// A collector of this name is not waited for any more.
    fn forget_departure(&mut self, name: &str) {
        self.departures
            .retain(|departure| departure.collector.name.as_str() != name);
    }

    /// Those that are drained join again where they are among these collectors, with what these say, and else leave for good.
    fn redirect(&mut self, collectors: &[Collector]) -> Result<(), AllocError> {
        for departure in &mut self.departures {
            match collector_named(collectors, departure.collector.name.as_str()) {
                Some(collector) => {
                    let next = copied(collector)?;
                    drop(std::mem::replace(&mut departure.collector, next));
                    departure.returns = true;
                }
                None => departure.returns = false,
            }
        }
        Ok(())
    }
}

impl Departure {
    /// Whether the collector may leave: it holds nothing, and took that, or never took a list, or did not ask for so long.
    fn may_leave(&mut self, holding: &Holding, now: Instant, patience: Duration) -> bool {
        if !holding.is_empty {
            self.emptied = None;
            return false;
        }
        let (number, since) = self.emptied.unwrap_or((holding.current, now));
        self.emptied = Some((number, since));
        holding.is_told(number) || now.saturating_duration_since(since) >= patience
    }
}

impl<R: Wait + Clock + Eprint + Copy, L: Ledger, B: Ledger, N: JournalName> Shared<R, L, B, N> {
    /// Enters what the settings change of the collectors that they name, beside those of the configuration before, or where there is
    /// none beside those that are live.
    pub(crate) fn follow_collectors(
        &self,
        pass: &mut Pass<L, B, N>,
        settings: &Settings,
        roster: &mut Roster,
    ) -> Result<(), AllocError> {
        let next = settings.collectors.as_slice();
        roster.redirect(next)?;
        self.drain_others(pass, roster, next)?;
        for collector in next {
            self.follow_collector(pass, settings.reach_changes, roster, collector)?;
        }
        roster.list(self.alloc, next, settings.join_by_asking.as_slice())
    }

    /// Drains those that the configuration named before and names no longer.
    fn drain_others(
        &self,
        pass: &mut Pass<L, B, N>,
        roster: &mut Roster,
        next: &[Collector],
    ) -> Result<(), AllocError> {
        let before = all_copied(self.alloc, roster.listed())?;
        let drained = self.drain_unlisted(pass, roster, before.as_slice(), next);
        drop(before);
        drained
    }

    /// Drains those of these collectors that the configuration does not name and that are not drained yet.
    fn drain_unlisted(
        &self,
        pass: &mut Pass<L, B, N>,
        roster: &mut Roster,
        before: &[Collector],
        next: &[Collector],
    ) -> Result<(), AllocError> {
        for collector in before {
            let name = collector.name.as_str();
            if collector_named(next, name).is_some() || roster.is_departing(name) {
                continue;
            }
            if let Some(standing) = self.standing(pass, collector) {
                self.log_unlisted(name);
                self.drain(pass, name, standing)?;
                roster.begin_departure(copied(collector)?, false)?;
            }
        }
        Ok(())
    }

    /// Enters what is to be changed of a collector that the configuration names.
    fn follow_collector(
        &self,
        pass: &mut Pass<L, B, N>,
        reach_changes: ReachChanges,
        roster: &mut Roster,
        collector: &Collector,
    ) -> Result<(), AllocError> {
        let name = collector.name.as_str();
        let Some(standing) = self.standing(pass, collector) else {
            roster.forget_departure(name);
            return self.enter_first(pass, name, joining(collector)?);
        };
        let before = collector_named(roster.listed(), name);
        let is_other_reach = !standing.has_reach && !has_same_reach(before, collector);
        let is_other_limits = !standing.has_limits && !has_same_limits(before, collector);
        if is_other_reach || roster.is_departing(name) {
            self.change_reach(pass, reach_changes, roster, collector, standing)
        } else if is_other_limits {
            self.enter_limits(pass, collector, standing.id)
        } else {
            Ok(())
        }
    }

    /// Has a collector join anew with another reach: at once, or once it is drained.
    fn change_reach(
        &self,
        pass: &mut Pass<L, B, N>,
        reach_changes: ReachChanges,
        roster: &mut Roster,
        collector: &Collector,
        standing: Standing,
    ) -> Result<(), AllocError> {
        let name = collector.name.as_str();
        match reach_changes {
            ReachChanges::Now => {
                self.log_rejoining(name);
                roster.forget_departure(name);
                self.enter_first(pass, name, Event::Leave(standing.id))?;
                self.enter_first(pass, name, joining(collector)?)
            }
            ReachChanges::Drained if roster.is_departing(name) => Ok(()),
            ReachChanges::Drained => {
                self.log_emptying(name);
                self.drain(pass, name, standing)?;
                roster.begin_departure(copied(collector)?, true)
            }
        }
    }

    fn enter_limits(
        &self,
        pass: &mut Pass<L, B, N>,
        collector: &Collector,
        id: CollectorId,
    ) -> Result<(), AllocError> {
        let event = Event::SetLimits {
            collector: id,
            limits: collector.limits.copy()?,
        };
        self.enter_first(pass, collector.name.as_str(), event)
    }

    /// Drains a collector, unless it drains already.
    fn drain(
        &self,
        pass: &mut Pass<L, B, N>,
        name: &str,
        standing: Standing,
    ) -> Result<(), AllocError> {
        if standing.draining {
            return Ok(());
        }
        self.enter_first(pass, name, Event::Drain(standing.id))
    }

    fn standing(&self, pass: &mut Pass<L, B, N>, collector: &Collector) -> Option<Standing> {
        self.desk.read(&self.rt, pass, |record| {
            standing_of(record.core(), collector)
        })
    }

    /// Has those leave that are drained, and join again that return. While changes wait for a reallocation that is not known of anybody.
    pub(crate) fn follow_departures(
        &self,
        pass: &mut Pass<L, B, N>,
        roster: &mut Roster,
        now: Instant,
    ) {
        if roster.departures.is_empty() || self.desk.is_changed(&self.rt, pass) {
            return;
        }
        for departure in &mut roster.departures {
            if self.follow_departure(pass, departure, now).is_err() {
                log_warning(&self.rt, "no memory to have a collector join, tried again");
            }
        }
        roster.departures.retain(|departure| !departure.is_over);
    }

    /// One that returns leaves though it holds something: nobody else may hold that.
    fn follow_departure(
        &self,
        pass: &mut Pass<L, B, N>,
        departure: &mut Departure,
        now: Instant,
    ) -> Result<(), AllocError> {
        let name = departure.collector.name.as_str();
        let holding = self
            .desk
            .read(&self.rt, pass, |record| holding_of(record.core(), name));
        let Some(holding) = holding else {
            return self.end_departure(pass, departure);
        };
        if !holding.draining {
            // It joined anew meanwhile.
            departure.is_over = true;
            return Ok(());
        }
        let patience = self.round.saturating_mul(PATIENCE);
        if !departure.returns && !departure.may_leave(&holding, now, patience) {
            return Ok(());
        }
        if self.enter_told(
            pass,
            departure.collector.name.as_str(),
            Event::Leave(holding.id),
        ) {
            return self.end_departure(pass, departure);
        }
        Ok(())
    }

    /// A collector has left: it joins again where it returns.
    fn end_departure(
        &self,
        pass: &mut Pass<L, B, N>,
        departure: &mut Departure,
    ) -> Result<(), AllocError> {
        departure.is_over = if departure.returns {
            let event = joining(&departure.collector)?;
            self.enter_told(pass, departure.collector.name.as_str(), event)
        } else {
            true
        };
        Ok(())
    }

    fn log_unlisted(&self, name: &str) {
        let line =
            "not in the configuration any more: it is drained, and leaves once it holds nothing";
        log_of_name(&self.rt, Level::Info, name, line);
    }

    fn log_emptying(&self, name: &str) {
        let line = "another reach: it is drained, leaves, and joins anew";
        log_of_name(&self.rt, Level::Info, name, line);
    }

    fn log_rejoining(&self, name: &str) {
        let line = "another reach: it leaves and joins anew at once";
        log_of_name(&self.rt, Level::Info, name, line);
    }
}

/// Whether the configuration before, where it named the collector, gave it the same reach.
fn has_same_reach(before: Option<&Collector>, collector: &Collector) -> bool {
    match before {
        Some(before) => before.reach.same(&collector.reach),
        None => false,
    }
}

/// Whether the configuration before, where it named the collector, gave it the same limits.
fn has_same_limits(before: Option<&Collector>, collector: &Collector) -> bool {
    match before {
        Some(before) => before.limits.same(&collector.limits),
        None => false,
    }
}

fn standing_of(core: &Core, collector: &Collector) -> Option<Standing> {
    for live in core.collectors() {
        if live.name.as_str() == collector.name.as_str() {
            return Some(Standing {
                id: live.id,
                draining: live.draining,
                has_reach: live.reach.same(&collector.reach),
                has_limits: live.limits.same(&collector.limits),
            });
        }
    }
    None
}

fn holding_of(core: &Core, name: &str) -> Option<Holding> {
    for live in core.collectors() {
        if live.name.as_str() == name {
            return Some(Holding {
                id: live.id,
                draining: live.draining,
                is_empty: core.allocation().iter().all(|pair| pair.1 != live.id),
                current: core.current(),
                taken: core.taken(live.id),
                has_lists: core.slots().contains(&live.id),
            });
        }
    }
    None
}

/// The join of a collector.
pub(crate) fn joining(collector: &Collector) -> Result<Event, AllocError> {
    let name = collector.name.copy()?;
    join_of(name, &collector.reach, &collector.limits)
}

/// The join of a collector of this name with copies of a reach and of limits.
pub(crate) fn join_of(
    name: CollectorName,
    reach: &Reach,
    limits: &OwnLimits,
) -> Result<Event, AllocError> {
    match both_copied(reach, limits) {
        Ok((reach, limits)) => Ok(Event::Join {
            name,
            reach,
            limits,
        }),
        Err(error) => {
            drop(name);
            Err(error)
        }
    }
}

fn copied(collector: &Collector) -> Result<Collector, AllocError> {
    let name = collector.name.copy()?;
    match both_copied(&collector.reach, &collector.limits) {
        Ok((reach, limits)) => Ok(Collector {
            name,
            reach,
            limits,
        }),
        Err(error) => {
            drop(name);
            Err(error)
        }
    }
}

fn both_copied(reach: &Reach, limits: &OwnLimits) -> Result<(Reach, OwnLimits), AllocError> {
    let reach = reach.copy()?;
    match limits.copy() {
        Ok(limits) => Ok((reach, limits)),
        Err(error) => {
            drop(reach);
            Err(error)
        }
    }
}

fn patterns_copied(
    alloc: Global,
    patterns: &[JoiningPattern],
) -> Result<List<JoiningPattern>, AllocError> {
    let mut copies = List::new(alloc);
    for pattern in patterns {
        copies.push(pattern.copy()?)?;
    }
    Ok(copies)
}

fn all_copied(alloc: Global, collectors: &[Collector]) -> Result<List<Collector>, AllocError> {
    let mut copies = List::new(alloc);
    for collector in collectors {
        copies.push(copied(collector)?)?;
    }
    Ok(copies)
}
