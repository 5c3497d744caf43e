//! Collectors that ask for nothing for long: their lists are let go, they are drained, and then they leave.
use crate::last_seen::LastSeen;
use crate::logging::{log_of_number, log_warning};
use crate::patience::Patience;
use crate::scheduling::Schedule;
use crate::shared::Shared;
use alloc_desk::Pass;
use allocation_core::Core;
use fleet_events::{Answer, CollectorId, Event};
use kept_journal::JournalName;
use lists::Text;
use log::Level;
use std::alloc::{AllocError, Global};
use std::sync::Wait;
use std::sync::ledger::Ledger;
use std::time::{Clock, Duration, Instant};

/// How many collectors that left are waited for at most. The one that left first is forgotten for a further one.
const MOST_LEFT: usize = 4_096;

/// When collectors were last seen.
#[derive(Drop)]
pub(crate) struct Attendance {
    /// Of the live ones, in order of their ids.
    live: Vec<LastSeen>,
    /// Of those that left: their lists may still have targets, and they may come back under another number.
    left: Vec<LastSeen>,
    /// Those that are drained since they were absent.
    drained: Vec<CollectorId>,
    /// Whether those were looked for that left before anybody looked.
    is_begun: bool,
}

/// What a desk says of its collectors.
#[derive(Drop)]
struct Present {
    /// In order of their ids.
    live: Vec<LiveCollector>,
    /// Those that left before anybody looked, and whose lists still have targets.
    left: Vec<CollectorId>,
    /// The live ones that were not seen yet, with their names.
    newcomers: Vec<(CollectorId, Text)>,
}

/// A live collector.
#[derive(Clone, Copy, Drop)]
struct LiveCollector {
    collector: CollectorId,
    draining: bool,
}

impl Attendance {
    /// With nobody seen yet.
    pub(crate) fn new(alloc: Global) -> Attendance {
        Attendance {
            live: Vec::new(alloc),
            left: Vec::new(alloc),
            drained: Vec::new(alloc),
            is_begun: false,
        }
    }

    /// Notes who is live, who left, who asked, and who joined anew: their numbers, each beside the number before. Where memory is wanted,
    /// who left is waited for no more.
    fn note(
        &mut self,
        alloc: Global,
        present: &Present,
        heirs: &[(CollectorId, CollectorId)],
        takers: &[CollectorId],
        now: Instant,
    ) -> Result<(), AllocError> {
        self.see_all(takers, now);
        let live = self.live_now(alloc, present, heirs, now)?;
        self.note_left(present, now);
        self.live = live;
        self.is_begun = true;
        self.see_all(takers, now);
        Ok(())
    }

    fn live_now(
        &self,
        alloc: Global,
        present: &Present,
        heirs: &[(CollectorId, CollectorId)],
        now: Instant,
    ) -> Result<Vec<LastSeen>, AllocError> {
        let mut live = Vec::with_capacity(alloc, present.live.len())?;
        for member in present.live.iter() {
            live.push(self.sighting_now(member.collector, heirs, now))?;
        }
        Ok(live)
    }

    /// When a live collector was last seen, which may be for the first time.
    fn sighting_now(
        &self,
        collector: CollectorId,
        heirs: &[(CollectorId, CollectorId)],
        now: Instant,
    ) -> LastSeen {
        if let Some(seen) = self.last_seen(collector) {
            return seen;
        }
        match self.sighting_before(collector, heirs) {
            Some(seen) => seen.of_heir(collector, now),
            None => LastSeen::first(collector, now),
        }
    }

    /// When the number was last seen that a collector had before.
    fn sighting_before(
        &self,
        collector: CollectorId,
        heirs: &[(CollectorId, CollectorId)],
    ) -> Option<LastSeen> {
        let (_, before) = heirs.iter().find(|(heir, _)| *heir == collector)?;
        let mut seen = self.live.iter().chain(self.left.iter());
        Some(*seen.find(|last_seen| last_seen.collector == *before)?)
    }

    /// Waits for those that are live no more.
    fn note_left(&mut self, present: &Present, now: Instant) {
        for last_seen in self.live.iter() {
            if !is_member(present.live.as_slice(), last_seen.collector) {
                let _ = self.left.push(*last_seen);
            }
        }
        for collector in present.left.iter() {
            let _ = self.left.push(LastSeen::first(*collector, now));
        }
        for _ in 0..self.left.len().saturating_sub(MOST_LEFT) {
            self.forget_first();
        }
    }

    /// Forgets the one that left first, where there are too many.
    fn forget_first(&mut self) {
        if self.left.len() > MOST_LEFT {
            self.left.remove(0);
        }
    }

    fn see_all(&mut self, takers: &[CollectorId], now: Instant) {
        for taker in takers {
            self.see(*taker, now);
        }
    }

    fn see(&mut self, collector: CollectorId, now: Instant) {
        match self.place_of(collector) {
            Some(place) => {
                if let Some(last_seen) = self.live.get_mut(place) {
                    last_seen.see(now);
                }
            }
            None => {
                for last_seen in &mut self.left {
                    if last_seen.collector == collector {
                        last_seen.see(now);
                    }
                }
            }
        }
    }

    /// A collector is drained, since it is absent.
    fn note_drained(&mut self, collector: CollectorId) {
        // Where there is no memory for it, it goes on draining when it asks again.
        let _ = self.drained.push(collector);
    }

    /// Whether it is, since this was asked: it asks again.
    fn forget_drained(&mut self, collector: CollectorId) -> bool {
        let before = self.drained.len();
        self.drained.retain(|one| *one != collector);
        self.drained.len() < before
    }

    fn last_seen(&self, collector: CollectorId) -> Option<LastSeen> {
        let place = self.place_of(collector)?;
        Some(*self.live.get(place)?)
    }

    fn place_of(&self, collector: CollectorId) -> Option<usize> {
        self.live
            .binary_search_by_key(&collector, |last_seen| last_seen.collector)
            .ok()
    }
}

fn is_member(members: &[LiveCollector], collector: CollectorId) -> bool {
    members
        .binary_search_by_key(&collector, |member| member.collector)
        .is_ok()
}

/// What a desk says of its collectors. Those that left are looked for once.
fn roll_of(alloc: Global, core: &Core, attendance: &Attendance) -> Result<Present, AllocError> {
    let live = live_of(alloc, core)?;
    let left = left_of(alloc, core, attendance)?;
    let newcomers = newcomers_of(alloc, core, attendance)?;
    Ok(Present {
        live,
        left,
        newcomers,
    })
}

fn live_of(alloc: Global, core: &Core) -> Result<Vec<LiveCollector>, AllocError> {
    let collectors = core.fleet().collectors();
    let mut live = Vec::with_capacity(alloc, collectors.len())?;
    for collector in collectors {
        live.push(LiveCollector {
            collector: collector.id,
            draining: collector.draining,
        })?;
    }
    Ok(live)
}

/// Those that left, where nobody looked for them yet.
fn left_of(
    alloc: Global,
    core: &Core,
    attendance: &Attendance,
) -> Result<Vec<CollectorId>, AllocError> {
    let mut left = Vec::new(alloc);
    if !attendance.is_begun {
        add_left(&mut left, core)?;
    }
    Ok(left)
}

/// The live collectors that were not seen yet, with their names.
fn newcomers_of(
    alloc: Global,
    core: &Core,
    attendance: &Attendance,
) -> Result<Vec<(CollectorId, Text)>, AllocError> {
    let mut newcomers = Vec::new(alloc);
    for collector in core.fleet().collectors() {
        if attendance.last_seen(collector.id).is_none() {
            let name = Text::from_str(alloc, collector.name.as_str())?;
            newcomers.push((collector.id, name))?;
        }
    }
    Ok(newcomers)
}

/// The collectors that are not live and whose lists still have targets, each once.
fn add_left(left: &mut Vec<CollectorId>, core: &Core) -> Result<(), AllocError> {
    for collector in core.slots() {
        if *collector != 0 && !left.contains(collector) && !core.fleet().is_joined(*collector) {
            left.push(*collector)?;
        }
    }
    Ok(())
}

/// What is entered of a collector that asked for nothing for so long.
fn due(member: LiveCollector, absent: Duration, limit: Duration) -> Option<Event> {
    if absent >= limit.saturating_mul(2) {
        return Some(Event::Leave(member.collector));
    }
    if absent >= limit && !member.draining {
        return Some(Event::Drain(member.collector));
    }
    None
}

/// Whether the lists of a collector are to be let go.
fn is_to_let_go(patience: Patience, last_seen: &LastSeen, now: Instant) -> bool {
    match patience.release(last_seen.gap) {
        Some(limit) => !last_seen.is_let_go && last_seen.absence(now) >= limit,
        None => false,
    }
}

impl<R: Wait + Clock + Eprint + Copy, L: Ledger, B: Ledger, N: JournalName> Shared<R, L, B, N> {
    /// Lets the lists go of collectors that asked for nothing for long, live ones and those that left; drains live ones that asked for
    /// nothing for as long as their timeout, and has those leave that asked for nothing for twice as long.
    pub(crate) fn dismiss_absent<C>(
        &self,
        pass: &mut Pass<L, B, N>,
        schedule: &mut Schedule<C>,
        now: Instant,
    ) {
        let attendance = &mut schedule.attendance;
        if self.call_roll(pass, attendance, now).is_err() {
            log_warning(&self.rt, "no memory to see which collectors are absent");
        }
    }

    fn call_roll(
        &self,
        pass: &mut Pass<L, B, N>,
        attendance: &mut Attendance,
        now: Instant,
    ) -> Result<(), AllocError> {
        let alloc = self.alloc;
        let seen = &*attendance;
        let present = self.desk.read(&self.rt, pass, |record| roll_of(alloc, record.core(), seen))?;
        let noted = self.note_roll(attendance, &present, now);
        if noted.is_ok() {
            self.let_go_of_absent(pass, attendance, now);
            self.tell_short_timeouts(attendance);
            for member in present.live.iter() {
                self.follow_member(pass, attendance, *member, now);
            }
        }
        drop(present);
        noted
    }

    fn note_roll(
        &self,
        attendance: &mut Attendance,
        present: &Present,
        now: Instant,
    ) -> Result<(), AllocError> {
        let heirs = self.heirs_of(present.newcomers.as_slice())?;
        let takers = self.state.take_takers(&self.rt);
        attendance.note(
            self.alloc,
            present,
            heirs.as_slice(),
            takers.as_slice(),
            now,
        )
    }

    fn let_go_of_absent(
        &self,
        pass: &mut Pass<L, B, N>,
        attendance: &mut Attendance,
        now: Instant,
    ) {
        for last_seen in &mut attendance.live {
            if is_to_let_go(self.patience, last_seen, now) {
                self.let_go(pass, last_seen);
            }
        }
        for last_seen in &mut attendance.left {
            if is_to_let_go(self.patience, last_seen, now) {
                self.let_go(pass, last_seen);
            }
        }
    }

    /// Those of the newcomers that joined anew, each beside the number that its name had before.
    fn heirs_of(
        &self,
        newcomers: &[(CollectorId, Text)],
    ) -> Result<Vec<(CollectorId, CollectorId)>, AllocError> {
        let mut heirs = Vec::new(self.alloc);
        for (collector, name) in newcomers {
            self.state.note_live(&self.rt, name.as_str(), *collector);
            if let Some(before) = self.state.earlier(&self.rt, name.as_str(), *collector) {
                heirs.push((*collector, before))?;
            }
        }
        Ok(heirs)
    }

    /// Lets the lists of an absent collector go, where they have targets.
    fn let_go(&self, pass: &mut Pass<L, B, N>, last_seen: &mut LastSeen) {
        let collector = last_seen.collector;
        last_seen.is_let_go = true;
        let has_targets = self.desk.read(
            &self.rt,
            pass,
            |record| record.core().slots().contains(&collector),
        );
        if has_targets {
            self.release(pass, collector);
        }
    }

    fn release(&self, pass: &mut Pass<L, B, N>, collector: CollectorId) {
        let job = None;
        if let Some(answer) = self.enter(pass, Event::Release { collector, job }) {
            let line = "a collector asked for nothing for long: its lists count as let go";
            log_of_number(&self.rt, Level::Warn, collector, line);
            self.log_of_number(collector, &answer);
            drop(answer);
        }
    }

    /// Warns of collectors whose timeout is shorter than two of their gaps between lists, once of each.
    fn tell_short_timeouts(&self, attendance: &mut Attendance) {
        for last_seen in &mut attendance.live {
            if !last_seen.is_told && self.patience.is_short(last_seen.gap) {
                last_seen.is_told = true;
                let line =
                    "collector_timeout is shorter than two refreshes of a collector: one that comes late is drained";
                log_of_number(&self.rt, Level::Warn, last_seen.collector, line);
            }
        }
    }

    /// What is due of a collector that took nothing for so long, or takes again.
    fn follow_member(
        &self,
        pass: &mut Pass<L, B, N>,
        attendance: &mut Attendance,
        member: LiveCollector,
        now: Instant,
    ) {
        let Some(last_seen) = attendance.last_seen(member.collector) else {
            return;
        };
        let Some(limit) = self.patience.timeout(last_seen.gap) else {
            return;
        };
        let absent = last_seen.absence(now);
        match due(member, absent, limit) {
            Some(event) => self.enter_dismissal(pass, attendance, member.collector, event),
            None if absent < limit && attendance.forget_drained(member.collector) => {
                self.take_back(pass, member.collector);
            }
            None => {}
        }
    }

    fn enter_dismissal(
        &self,
        pass: &mut Pass<L, B, N>,
        attendance: &mut Attendance,
        collector: CollectorId,
        event: Event,
    ) {
        if let Some(answer) = self.enter(pass, event) {
            if !matches!(&answer, Answer::Not(_)) {
                self.note_dismissal(attendance, collector, &answer);
                self.log_absence(collector);
                self.log_of_number(collector, &answer);
            }
            drop(answer);
        }
    }

    fn note_dismissal(&self, attendance: &mut Attendance, collector: CollectorId, answer: &Answer) {
        match answer {
            Answer::Draining => attendance.note_drained(collector),
            _ => {
                attendance.forget_drained(collector);
            }
        }
    }

    fn log_absence(&self, collector: CollectorId) {
        let line = "a collector took nothing for long";
        log_of_number(&self.rt, Level::Warn, collector, line);
    }
}
