//! The thread that opens rounds, reallocates, and reads the configuration again.
use crate::attendance::Attendance;
use crate::configuration::Configuration;
use crate::control::Ending;
use crate::failed_accepts::FailedAccepts;
use crate::handovers::Handovers;
use crate::logging::{log_error, log_info, log_warning};
use crate::reallocating::NotReallocated;
use crate::roster::Roster;
use crate::service::JobText;
use crate::shared::Shared;
use alloc_desk::{MOST_ENTRIES, Pass, Reallocated};
use fleet::MOST_KNOWN_TARGETS;
use fleet_events::{Answer, Event};
use kept_journal::JournalName;
use lists::List;
use log::{info, warn};
use logfmt::{Logfmt, Quoted};
use service_state::RoundStart;
use std::alloc::Global;
use std::sync::atomic::Ordering;
use std::sync::ledger::Ledger;
use std::sync::{Arc, Wait};
use std::time::{Clock, Duration, Instant};

/// How long the thread waits between two looks at the desk, in milliseconds.
const LOOK: u64 = 100;

/// How many entries a journal keeps free for those who are still asking when the desk is closed.
const SPARE_ENTRIES: usize = 65_536;

/// How many targets may become known while a desk is closed.
const SPARE_TARGETS: usize = 16_384;

/// How many targets the events of a journal may list before the desk is closed, since the journal keeps them all.
const MOST_LISTED: u64 = 1_048_576;

/// When the thread did what.
#[derive(Drop)]
pub struct Schedule<C> {
    /// When the open round was opened. A renewal opens another one, and leaves this as it is.
    pub(crate) start: RoundStart,
    /// Since when something is changed, or loads may be made more even.
    changed: Option<Instant>,
    /// Whether the last allocation made loads even with a bound on the moves, so that the next one may go on with it.
    is_evening: bool,
    pub(crate) attendance: Attendance,
    pub(crate) handovers: Handovers,
    pub(crate) configuration: C,
    /// Whether the configuration was read again, and is to be followed.
    pub(crate) is_read: bool,
    /// The jobs of the configuration that is followed.
    pub(crate) jobs: Arc<List<JobText>>,
    pub(crate) roster: Roster,
    /// Whether a write of the journal takes long.
    pub(crate) is_hanging: bool,
    /// Since when the journal is known to be broken.
    pub(crate) broken: Option<Instant>,
    pub(crate) failed_accepts: FailedAccepts,
    /// When it was looked at the process last.
    pub(crate) process_seen: Option<Instant>,
}

impl<C> Schedule<C> {
    /// Of a service with these jobs that begins, whose open round was opened then.
    pub(crate) fn new(
        alloc: Global,
        start: RoundStart,
        jobs: Arc<List<JobText>>,
        configuration: C,
    ) -> Schedule<C> {
        Schedule {
            start,
            changed: None,
            is_evening: false,
            attendance: Attendance::new(alloc),
            handovers: Handovers::new(alloc),
            configuration,
            is_read: false,
            jobs,
            roster: Roster::new(alloc),
            is_hanging: false,
            broken: None,
            failed_accepts: FailedAccepts::new(),
            process_seen: None,
        }
    }

    /// Whether loads may be made more even by now: once what moved for that last is handed over.
    fn goes_on(&self) -> bool {
        self.is_evening && !self.handovers.is_any()
    }
}

impl<R: Wait + Clock + Eprint + Copy, L: Ledger, B: Ledger, N: JournalName> Shared<R, L, B, N> {
    /// Opens rounds, reallocates, and reads the configuration again when it is asked to, until the desk is to be closed.
    pub fn keep_schedule<C: Configuration>(
        &self,
        pass: &mut Pass<L, B, N>,
        schedule: &mut Schedule<C>,
    ) {
        self.state.reloading().open(&self.rt);
        self.take_turns(pass, schedule);
        self.state.reloading().close(&self.rt);
        self.log_changes();
    }

    fn take_turns<C: Configuration>(&self, pass: &mut Pass<L, B, N>, schedule: &mut Schedule<C>) {
        self.remember_names(pass);
        schedule.handovers.look_anew();
        for _ in self.rt.forever() {
            if self
                .control
                .is_ended_within(&self.rt, Duration::from_millis(LOOK))
            {
                return;
            }
            self.log_changes();
            self.log_failed_accepts(schedule);
            self.watch_device(schedule);
            self.look_at_process(schedule);
            if self.state.is_quitting() {
                self.control.end(&self.rt, Ending::Quit);
            }
            if self.state.reloading().is_asked(&self.rt) {
                self.reload(pass, schedule);
            }
            if !self.is_broken() {
                self.take_turn(pass, schedule);
            }
        }
    }

    /// Does what is due.
    fn take_turn<C>(&self, pass: &mut Pass<L, B, N>, schedule: &mut Schedule<C>) {
        if let Ok(now) = Instant::now(&self.rt) {
            self.open_round_when_due(pass, schedule, now);
            self.let_rejoin(pass, &schedule.roster);
            self.dismiss_absent(pass, schedule, now);
            self.reallocate_when_settled(pass, schedule, now);
            self.watch_handovers(pass, schedule);
            self.follow_departures(pass, &mut schedule.roster, now);
        }
        self.close_when_full(pass);
    }

    fn open_round_when_due<C>(
        &self,
        pass: &mut Pass<L, B, N>,
        schedule: &mut Schedule<C>,
        now: Instant,
    ) {
        let open = schedule.start.age(now);
        if open < self.round {
            return;
        }
        let Some(answer) = self.enter(pass, Event::NextRound) else {
            return;
        };
        schedule.start = RoundStart::open_for(now, self.age_of_next(open));
        self.note_round(schedule);
        if let Answer::RoundOpen(round) = &answer {
            self.note_books(pass, round.saturating_sub(1));
        }
        if matches!(answer, Answer::Not(_)) {
            self.log_refused_round(&answer);
        }
        drop(answer);
    }

    /// For how long the round is open that follows one which is open for so long. Where rounds were missed it begins now.
    fn age_of_next(&self, open: Duration) -> Duration {
        let late = open.saturating_sub(self.round);
        if late < self.round {
            late
        } else {
            Duration::ZERO
        }
    }

    /// Tells those who ask when the open round was opened.
    pub(crate) fn note_round<C>(&self, schedule: &Schedule<C>) {
        self.state.note_round(&self.rt, schedule.start, self.round);
    }

    fn reallocate_when_settled<C>(
        &self,
        pass: &mut Pass<L, B, N>,
        schedule: &mut Schedule<C>,
        now: Instant,
    ) {
        if !self.desk.is_changed(&self.rt, pass) {
            self.state.settle();
            if !schedule.goes_on() {
                schedule.changed = None;
                return;
            }
        }
        let since = schedule.changed.unwrap_or(now);
        schedule.changed = Some(since);
        if now.saturating_duration_since(since) >= self.settle {
            schedule.changed = None;
            self.reallocate(pass, schedule);
        }
    }

    fn reallocate<C>(&self, pass: &mut Pass<L, B, N>, schedule: &mut Schedule<C>) {
        self.state.count_reallocation();
        let begun = Instant::now(&self.rt).ok();
        let found = self.search(pass);
        let milliseconds = self.milliseconds_since(begun);
        self.state.count_search(&self.rt, begun);
        self.note_loads(pass);
        match found {
            Ok(Reallocated::Published(number)) => {
                schedule.is_evening = self.bounds_moves();
                self.note_published(pass, number, milliseconds);
            }
            Ok(Reallocated::Unchanged(_)) => schedule.is_evening = false,
            Err(NotReallocated::Overtaken) => {
                log_info(
                    &self.rt,
                    "reallocation overtaken by other changes, tried again",
                );
            }
            Err(NotReallocated::JournalFull) => self.control.end(&self.rt, Ending::Full),
            Err(NotReallocated::NumbersSpent) => {
                log_error(&self.rt, "the last number of an allocation is given");
            }
            Err(NotReallocated::Memory) => {
                log_warning(&self.rt, "no memory for a reallocation");
            }
        }
    }

    /// Has the desk closed when its journal or the file of it is nearly full, or the list of the targets that were ever known.
    fn close_when_full(&self, pass: &mut Pass<L, B, N>) {
        let (entries, known) = self.desk.read(&self.rt, pass, |record| {
            (record.journal().len(), record.core().fleet().known().len())
        });
        if entries + SPARE_ENTRIES >= MOST_ENTRIES
            || known + SPARE_TARGETS >= MOST_KNOWN_TARGETS
            || self.listed.load(Ordering::SeqCst) >= MOST_LISTED
            || self.is_long.load(Ordering::SeqCst)
        {
            self.log_full(entries, known);
            self.control.end(&self.rt, Ending::Full);
        }
    }

    fn log_refused_round(&self, answer: &Answer) {
        if let Ok(line) = answer.line(self.alloc) {
            let answer = Quoted(line.as_str());
            warn!(Logfmt(self.rt); answer:% = answer; "the next round is refused");
        }
    }

    fn log_full(&self, entries: usize, known: usize) {
        info!(Logfmt(self.rt); entries, known; "nearly full: the allocator is renewed, and connections end once");
    }
}
