//! What a service says of itself beside its desk.
use crate::changes::{ChangeNote, Changes};
use crate::elapsed::{microseconds_since, seconds_now};
use crate::followed::{Followed, FollowedList};
use crate::kinds::EventKind;
use crate::names::Names;
use crate::notes::Notes;
use crate::open_round::{OpenRound, RoundStart, RoundTimes};
use crate::process_figures::ProcessFigures;
use crate::reloading::Reloading;
use crate::round_books::RoundBooks;
use crate::takers::Takers;
use fleet_events::{Answer, CollectorId, TargetId};
use lists::Text;
use sd_routes::Route;
use service_pages::{AllocationNote, LoadNote, SourceNote, Standing};
use service_settings::Lifecycle;
use std::alloc::{AllocError, Global};
use std::mem;
use std::sync::atomic::{AtomicBool, AtomicU64, Ordering};
use std::sync::{Arc, Mutex, Wait};
use std::time::{Clock, Duration, Instant};

/// What a service says of itself beside its desk. The threads of the service write it, and requests read it.
#[derive(Drop)]
pub struct ServiceState {
    /// What requests may do with the whole service.
    lifecycle: Lifecycle,
    /// The program's version. Empty where nobody told it.
    version: &'static str,
    /// Whether it is that of an instance that leads others.
    is_leading: bool,
    /// When it began, in seconds since 1970. 0 where nobody knows.
    started: u64,
    is_quitting: AtomicBool,
    reloading: Reloading,
    /// Whether the configuration that was read last is the one that is followed.
    is_reloaded: AtomicBool,
    /// When the one that is followed was read, in seconds since 1970. 0 where nobody knows.
    followed_since: AtomicU64,
    /// Whether what is submitted cannot be kept.
    is_broken: AtomicBool,
    /// Whether the device that keeps it does not come back.
    is_hanging: AtomicBool,
    /// Whether all that was found first was given out.
    has_begun: AtomicBool,
    /// Whether a list leaves out what another one still has.
    is_ordered: AtomicBool,
    untried: AtomicU64,
    refreshes: AtomicU64,
    failed_refreshes: AtomicU64,
    reallocations: AtomicU64,
    /// How many bytes of journals were written.
    written: AtomicU64,
    /// How many connections are served.
    connections: AtomicU64,
    /// How many may be at once.
    most_connections: AtomicU64,
    /// How many could not be taken.
    failed_accepts: AtomicU64,
    /// For how many there was no place.
    turned_away: AtomicU64,
    /// How many lines the log lost, where it may lose some.
    lost_lines: Option<Arc<AtomicU64>>,
    /// They are much, and who lets go of a state should not have them in hand.
    notes: Box<Mutex<Notes>>,
    changes: Mutex<Changes>,
    /// The names under which lists were asked for.
    names: Mutex<Names>,
    /// The live collectors that asked for a list.
    takers: Mutex<Takers>,
    /// The lists that are waited for until they are followed.
    followed: Mutex<Followed>,
    round: Mutex<OpenRound>,
    /// Since when the target is handed over that is so for longest, in seconds since 1970. 0 where none is.
    handing_over_since: AtomicU64,
}

impl ServiceState {
    /// The state of a service that has tried none of so many sources.
    pub fn new(
        alloc: Global,
        lifecycle: Lifecycle,
        sources: u64,
    ) -> Result<ServiceState, AllocError> {
        let notes = Box::new(alloc, Mutex::new(Notes::new(alloc)))?;
        Ok(ServiceState {
            lifecycle,
            version: "",
            is_leading: false,
            started: 0,
            is_quitting: AtomicBool::new(false),
            reloading: Reloading::new(alloc),
            is_reloaded: AtomicBool::new(true),
            followed_since: AtomicU64::new(0),
            is_broken: AtomicBool::new(false),
            is_hanging: AtomicBool::new(false),
            has_begun: AtomicBool::new(false),
            is_ordered: AtomicBool::new(false),
            untried: AtomicU64::new(sources),
            refreshes: AtomicU64::new(0),
            failed_refreshes: AtomicU64::new(0),
            reallocations: AtomicU64::new(0),
            written: AtomicU64::new(0),
            connections: AtomicU64::new(0),
            most_connections: AtomicU64::new(0),
            failed_accepts: AtomicU64::new(0),
            turned_away: AtomicU64::new(0),
            lost_lines: None,
            notes,
            changes: Mutex::new(Changes::new(alloc)),
            names: Mutex::new(Names::new(alloc)),
            takers: Mutex::new(Takers::new(alloc)),
            followed: Mutex::new(Followed::new(alloc)),
            round: Mutex::new(OpenRound::unknown()),
            handing_over_since: AtomicU64::new(0),
        })
    }

    /// Whether each source was tried once, what they list was given out, and what is submitted is kept in time.
    pub fn is_ready(&self) -> bool {
        self.has_begun.load(Ordering::SeqCst)
            && !self.is_broken()
            && !self.is_hanging.load(Ordering::SeqCst)
    }

    /// So many sources are to be tried by a service that has not begun.
    pub fn await_sources(&self, sources: u64) {
        self.untried.store(sources, Ordering::SeqCst);
    }

    /// Nothing is left to be given out. A service has begun where each source was tried by then.
    pub fn settle(&self) {
        if self.untried.load(Ordering::SeqCst) == 0 {
            self.has_begun.store(true, Ordering::SeqCst);
        }
    }

    /// The service is to end, where requests may say so. Says whether they may.
    pub fn quit(&self) -> bool {
        if self.lifecycle.quit {
            self.is_quitting.store(true, Ordering::SeqCst);
        }
        self.lifecycle.quit
    }

    /// Whether a request may have the service read its configuration again.
    pub fn may_reload(&self) -> bool {
        self.lifecycle.reload
    }

    /// How requests have the configuration read again.
    pub fn reloading(&self) -> &Reloading {
        &self.reloading
    }

    /// The configuration was read again, and is followed.
    pub fn set_reloaded(&self, rt: &impl Clock) {
        self.is_reloaded.store(true, Ordering::SeqCst);
        self.followed_since.store(seconds_now(rt), Ordering::SeqCst);
    }

    /// The configuration was read again, and is not followed.
    pub fn set_not_reloaded(&self) {
        self.is_reloaded.store(false, Ordering::SeqCst);
    }

    /// When the configuration was read that is followed, in seconds since 1970. 0 where nobody knows.
    pub(crate) fn followed_since(&self) -> u64 {
        self.followed_since.load(Ordering::SeqCst)
    }

    /// Whether the configuration that was read last is the one that is followed.
    pub(crate) fn is_reloaded(&self) -> bool {
        self.is_reloaded.load(Ordering::SeqCst)
    }

    /// Whether it is to end.
    pub fn is_quitting(&self) -> bool {
        self.is_quitting.load(Ordering::SeqCst)
    }

    /// What is submitted cannot be kept any more.
    pub fn break_down(&self) {
        self.is_broken.store(true, Ordering::SeqCst);
    }

    /// Whether what is submitted cannot be kept any more.
    pub fn is_broken(&self) -> bool {
        self.is_broken.load(Ordering::SeqCst)
    }

    /// The device that keeps what is submitted does not come back, or has come back.
    pub fn set_hanging(&self, is_hanging: bool) {
        self.is_hanging.store(is_hanging, Ordering::SeqCst);
    }

    /// Lists are served in order from now on, or are not.
    pub fn set_ordered(&self, is_ordered: bool) {
        self.is_ordered.store(is_ordered, Ordering::SeqCst);
    }

    /// Whether lists are served in order: each leaves out what another one still has.
    pub fn is_ordered(&self) -> bool {
        self.is_ordered.load(Ordering::SeqCst)
    }

    /// A source was tried for the first time, and what it lists was entered.
    pub fn count_tried(&self) {
        self.untried.fetch_sub(1, Ordering::SeqCst);
    }

    /// A source was asked once more.
    pub fn count_refresh(&self) {
        self.refreshes.fetch_add(1, Ordering::SeqCst);
    }

    pub(crate) fn refreshes(&self) -> u64 {
        self.refreshes.load(Ordering::SeqCst)
    }

    /// A source was asked in vain.
    pub fn count_failed_refresh(&self) {
        self.failed_refreshes.fetch_add(1, Ordering::SeqCst);
    }

    pub(crate) fn failed_refreshes(&self) -> u64 {
        self.failed_refreshes.load(Ordering::SeqCst)
    }

    /// A plan was searched.
    pub fn count_reallocation(&self) {
        self.reallocations.fetch_add(1, Ordering::SeqCst);
    }

    pub(crate) fn reallocations(&self) -> u64 {
        self.reallocations.load(Ordering::SeqCst)
    }

    /// So many bytes of a journal were written.
    pub fn count_written(&self, bytes: u64) {
        self.written.fetch_add(bytes, Ordering::SeqCst);
    }

    pub(crate) fn written(&self) -> u64 {
        self.written.load(Ordering::SeqCst)
    }

    /// So many connections are served, of so many that may be at once.
    pub fn set_connections(&self, number: usize, most: usize) {
        self.connections.store(number as u64, Ordering::SeqCst);
        self.most_connections.store(most as u64, Ordering::SeqCst);
    }

    pub(crate) fn most_connections(&self) -> u64 {
        self.most_connections.load(Ordering::SeqCst)
    }

    pub(crate) fn connections(&self) -> u64 {
        self.connections.load(Ordering::SeqCst)
    }

    /// A connection could not be taken.
    pub fn count_failed_accept(&self) {
        self.failed_accepts.fetch_add(1, Ordering::SeqCst);
    }

    /// How many connections could not be taken.
    pub fn failed_accepts(&self) -> u64 {
        self.failed_accepts.load(Ordering::SeqCst)
    }

    /// The live collector of this number has this name. What finds no memory is not noted.
    pub fn note_live(&self, rt: &impl Wait, name: &str, id: CollectorId) {
        let _ = self.names.lock(rt).note_live(name, id);
    }

    /// The live collector of this number asks for a list under this name. What finds no memory is not noted.
    pub fn note_asked<R: Wait + Clock>(&self, rt: &R, name: &str, id: CollectorId) {
        let at = seconds_now(rt);
        let _ = self.names.lock(rt).note_asked(name, id, at);
    }

    /// Somebody asks for a list under a name that asked before. Gives the last number that a live collector had it under.
    pub fn asked_again<R: Wait + Clock>(&self, rt: &R, name: &str) -> Option<CollectorId> {
        let at = seconds_now(rt);
        self.names.lock(rt).asked_again(name, at)
    }

    /// When the collector of this number asked for a list last, in seconds since 1970, if it did.
    pub fn last_asked(&self, rt: &impl Wait, id: CollectorId) -> Option<u64> {
        self.names.lock(rt).last_asked(id)
    }

    /// Somebody asks under a name that no live collector has. Gives the number that the last one had it under, where one had it.
    pub fn number_of(&self, rt: &impl Wait, name: &str) -> Option<CollectorId> {
        let mut names = self.names.lock(rt);
        let _ = names.note_absent(name);
        names.number_of(name)
    }

    /// The names that live collectors have or had, with their last numbers. The one that was live first stands first.
    pub fn names(
        &self,
        rt: &impl Wait,
        alloc: Global,
    ) -> Result<Vec<(Text, CollectorId)>, AllocError> {
        self.names.lock(rt).all(alloc)
    }

    /// Whether a live collector has this name, or had it.
    pub fn was_live(&self, rt: &impl Wait, name: &str) -> bool {
        self.names.lock(rt).was_live(name)
    }

    /// The number that a collector had before this one, where it joined anew under its name.
    pub fn earlier(&self, rt: &impl Wait, name: &str, id: CollectorId) -> Option<CollectorId> {
        self.names.lock(rt).earlier(name, id)
    }

    /// A live collector asks for a list. What finds no memory is not noted.
    pub fn note_taker(&self, rt: &impl Wait, id: CollectorId) {
        let _ = self.takers.lock(rt).note(id);
    }

    /// The live collectors that asked for a list, since this was asked.
    pub fn take_takers(&self, rt: &impl Wait) -> Vec<CollectorId> {
        self.takers.lock(rt).take()
    }

    /// A collector tells that it follows this list.
    pub fn note_followed(&self, rt: &impl Wait, list: FollowedList) {
        self.followed.lock(rt).note(list);
    }

    /// Whether a collector told that it follows a list of the job without these targets, which are in order of number. Where it did not, or
    /// there is no memory to know, it is given this one without them.
    pub fn is_followed_without(
        &self,
        rt: &impl Wait,
        list: FollowedList,
        targets: &[TargetId],
    ) -> bool {
        let mut followed = self.followed.lock(rt);
        followed.is_without(list, targets).unwrap_or(false)
    }

    /// A collector is given what it holds: no list of it of the job is waited for.
    pub fn forget_followed(&self, rt: &impl Wait, list: FollowedList) {
        self.followed.lock(rt).forget(list);
    }

    /// The round that was opened then is open, and is to be so for so long.
    pub fn note_round(&self, rt: &impl Wait, start: RoundStart, length: Duration) {
        *self.round.lock(rt) = OpenRound::of(start, length);
    }

    /// How long the open round is open, and how long it is to be.
    pub fn round_times<R: Wait + Clock>(&self, rt: &R) -> RoundTimes {
        self.round.lock(rt).times(rt)
    }

    /// Since then the target is handed over that is so for longest, in seconds since 1970; 0 where none is.
    pub fn note_handing_over(&self, since: u64) {
        self.handing_over_since.store(since, Ordering::SeqCst);
    }

    pub(crate) fn handing_over_since(&self) -> u64 {
        self.handing_over_since.load(Ordering::SeqCst)
    }

    /// The names under which somebody asked and that no live collector had, since this was asked.
    pub fn take_absent(&self, rt: &impl Wait) -> Vec<Text> {
        self.names.lock(rt).take_absent()
    }

    /// There was no place for a connection.
    pub fn count_turned_away(&self) {
        self.turned_away.fetch_add(1, Ordering::SeqCst);
    }

    pub(crate) fn turned_away(&self) -> u64 {
        self.turned_away.load(Ordering::SeqCst)
    }

    /// It began so many seconds after 1970, with the configuration that it follows.
    pub fn set_started(&mut self, seconds: u64) {
        self.started = seconds;
        self.followed_since.store(seconds, Ordering::SeqCst);
    }

    /// It is the program of this version.
    pub fn set_version(&mut self, version: &'static str) {
        self.version = version;
    }

    pub(crate) fn version(&self) -> &'static str {
        self.version
    }

    /// It is that of an instance that leads others.
    pub fn set_leading(&mut self) {
        self.is_leading = true;
    }

    pub(crate) fn is_leading(&self) -> bool {
        self.is_leading
    }

    pub(crate) fn started(&self) -> u64 {
        self.started
    }

    /// The log counts here the lines that it loses.
    pub fn set_log(&mut self, lost_lines: Arc<AtomicU64>) {
        self.lost_lines = Some(lost_lines);
    }

    pub(crate) fn lost_lines(&self) -> u64 {
        match &self.lost_lines {
            Some(lost_lines) => lost_lines.load(Ordering::SeqCst),
            None => 0,
        }
    }

    /// A request that began then is answered with this status code.
    pub fn count_request<R: Wait + Clock>(
        &self,
        rt: &R,
        route: Route,
        status: u16,
        begun: Option<Instant>,
    ) {
        let microseconds = microseconds_since(rt, begun);
        let mut notes = self.notes.lock(rt);
        notes.counts.count_request(route, status, microseconds);
    }

    /// An event is answered.
    pub fn count_event(&self, rt: &impl Wait, kind: EventKind, answer: &Answer) {
        self.notes.lock(rt).counts.count_event(kind, answer);
    }

    /// A source was refreshed. Its counts are added to what is known of it.
    pub fn note_refresh(&self, rt: &impl Wait, refresh: SourceNote) -> Result<(), AllocError> {
        self.notes.lock(rt).note_refresh(refresh)
    }

    /// An allocation was published.
    pub fn note_allocation(&self, rt: &impl Wait, note: AllocationNote) -> Result<(), AllocError> {
        self.notes.lock(rt).note_allocation(note)
    }

    /// The last search told this of the collectors' loads. Nothing where it did not make them even.
    pub fn note_loads(&self, rt: &impl Wait, loads: Vec<LoadNote>) {
        self.notes.lock(rt).loads = loads;
    }

    /// A round is over, in which this was booked.
    pub fn note_books(&self, rt: &impl Wait, books: RoundBooks) {
        drop(mem::replace(&mut self.notes.lock(rt).books, books));
    }

    /// A search for an allocation that began then is over.
    pub fn count_search<R: Wait + Clock>(&self, rt: &R, begun: Option<Instant>) {
        let microseconds = microseconds_since(rt, begun);
        self.notes.lock(rt).searches.observe(microseconds);
    }

    /// Writing to the journal, which began then, is over.
    pub fn count_write<R: Wait + Clock>(&self, rt: &R, begun: Option<Instant>) {
        let microseconds = microseconds_since(rt, begun);
        self.notes.lock(rt).writes.observe(microseconds);
    }

    /// The machine says this of the process.
    pub fn note_process(&self, rt: &impl Wait, figures: ProcessFigures) {
        self.notes.lock(rt).process = figures;
    }

    /// Other sources are refreshed from now on.
    pub fn forget_sources(&self, rt: &impl Wait) {
        self.notes.lock(rt).sources.clear();
    }

    /// Somebody asked something of the fleet over HTTP. Of many between two looks the last ones are only counted.
    pub fn note_change(&self, rt: &impl Wait, note: ChangeNote) {
        self.changes.lock(rt).note(note);
    }

    /// What was asked of the fleet over HTTP since the last look.
    pub fn take_changes(&self, rt: &impl Wait) -> Changes {
        self.changes.lock(rt).take()
    }

    /// What it notes, as it is now.
    pub fn notes(&self, rt: &impl Wait, alloc: Global) -> Result<Notes, AllocError> {
        let asked = self.names.lock(rt).asked(alloc)?;
        self.notes.lock(rt).copy_with(alloc, asked)
    }

    /// How it stands now, with a journal or without one.
    pub fn standing(&self, rt: &impl Clock, has_journal: bool) -> Standing {
        Standing {
            version: self.version,
            started: self.started,
            time: seconds_now(rt),
            is_followed: self.is_reloaded(),
            followed_since: self.followed_since(),
            has_journal,
            is_broken: self.is_broken(),
            is_hanging: self.is_hanging.load(Ordering::SeqCst),
            connections: self.connections(),
            most_connections: self.most_connections(),
            turned_away: self.turned_away(),
            refreshes: self.refreshes(),
            failed_refreshes: self.failed_refreshes(),
            reallocations: self.reallocations(),
        }
    }
}
