//! The thread that refreshes what discovery sources list.
use crate::answers::{Came, Failure, fault_in, list_in_files, list_in_reply};
use crate::last_list::{LastList, targets_in};
use crate::logging::{log_warning, log_warning_of};
use crate::shared::Shared;
use crate::source::{Listed, Source};
use crate::sources::Sources;
use crate::told_source::ToldSource;
use alloc_desk::{Leftover, Pass};
use allocation_core::Forgotten;
use file_configs::{ReadFiles, patterns_of};
use fleet_events::Event;
use http_get::{Asker, Cause, FetchFault, FetchSeveral, Get, Listing, Next, Reply, get_of_source};
use kept_journal::JournalName;
use lists::{List, Plain, Text};
use log::warn;
use logfmt::{Logfmt, Quoted, QuotedUrl, timestamp};
use sd_documents::Job;
use service_state::{ListCounts, SourceNote};
use std::alloc::{AllocError, Global};
use std::io;
use std::sync::atomic::Ordering;
use std::sync::ledger::Ledger;
use std::sync::{Arc, Wait};
use std::time::{Clock, Duration};

/// How long it is waited at most for answers before it is looked whether the desk is to be closed.
const LOOK_MILLIS: u64 = 10;

/// How long no source is asked where none can be.
const PAUSE_MILLIS: u64 = 1_000;

/// How a source is asked.
#[derive(Drop)]
enum Wanted {
    /// Over HTTP.
    Get(Get),
    /// These files are read.
    Files(List<Text>),
}

/// The sources of a service, and the device that asks them over HTTP and reads their files.
#[derive(Drop)]
pub struct Watch<S> {
    pub(crate) device: S,
    /// The jobs of the configuration.
    pub(crate) jobs: Arc<List<Job>>,
    pub(crate) sources: Sources,
    /// What is left of the desk before, and of its fleet, if that was renewed.
    pub(crate) left: Option<Leftover>,
    pub(crate) forgotten: Option<Forgotten>,
}

impl<S> Watch<S> {
    /// Takes what is left of a desk, which goes once the sources are asked for the next one: nobody waits for them.
    pub fn leave(&mut self, left: Leftover) {
        drop(std::mem::replace(&mut self.left, Some(left)));
    }

    /// Takes what a renewal forgot, which goes likewise.
    pub(crate) fn leave_fleet(&mut self, forgotten: Forgotten) {
        drop(std::mem::replace(&mut self.forgotten, Some(forgotten)));
    }
}

/// Who asks the sources, over one desk.
#[derive(Drop)]
struct Refresher<'a, R, L: Ledger, B: Ledger, N: JournalName, D> {
    shared: &'a Shared<R, L, B, N>,
    pass: &'a mut Pass<L, B, N>,
    files: &'a D,
    jobs: &'a List<Job>,
    sources: Sources,
}

impl<R, L, B, N, D> Asker for Refresher<'_, R, L, B, N, D>
where
    R: Wait + Clock + Eprint + Copy,
    L: Ledger,
    B: Ledger,
    N: JournalName,
    D: ReadFiles,
{
    /// The source that is due for longest is asked next. It is waited for answers, or, where none is to come, until a source is due.
    fn next(&mut self) -> Next {
        match self.sources.begin_due(&self.shared.rt) {
            Ok(place) => self.ask(place),
            Err(wait) => self.wait(wait),
        }
    }

    fn hear(&mut self, mark: usize, fetched: Result<Reply, Cause>) {
        match fetched {
            Ok(reply) => self.end(mark, Came::Reply(reply)),
            Err(cause) => self.end(mark, Came::Nothing(cause)),
        }
    }
}

impl<R, L, B, N, D> Refresher<'_, R, L, B, N, D>
where
    R: Wait + Clock + Eprint + Copy,
    L: Ledger,
    B: Ledger,
    N: JournalName,
    D: ReadFiles,
{
    /// Asks the source at a place, or reads its files at once. Where it cannot be asked, that is what it comes to.
    fn ask(&mut self, place: usize) -> Next {
        match self.wanted_at(place) {
            Some(Wanted::Get(get)) => Next::Ask { mark: place, get },
            Some(Wanted::Files(patterns)) => {
                self.read(place, patterns.as_slice());
                drop(patterns);
                Next::Wait(Duration::ZERO)
            }
            None => {
                self.end(place, Came::Nothing(Cause::Memory));
                Next::Wait(Duration::ZERO)
            }
        }
    }

    /// How the source at a place is asked. None where there is no memory to say so.
    fn wanted_at(&self, place: usize) -> Option<Wanted> {
        let settings = self.sources.at(place)?.settings;
        let job = self.jobs.as_slice().get(settings.job)?;
        match patterns_of(self.shared.alloc, url_of(job, settings.number)) {
            Ok(Some(patterns)) => Some(Wanted::Files(patterns)),
            Ok(None) => wanted_over_http(self.shared.alloc, job, settings.number),
            Err(AllocError) => None,
        }
    }

    /// Reads the files of the source at a place.
    fn read(&mut self, place: usize, patterns: &[Text]) {
        let files = self.files.read_files(patterns);
        self.end(place, Came::Files(files));
    }

    /// The refresh of the source at a place came to this.
    fn end(&mut self, place: usize, came: Came) {
        let Some(source) = self.sources.ended(place) else {
            drop(came);
            return;
        };
        match self.jobs.as_slice().get(source.settings.job) {
            Some(job) => self.shared.refresh(self.pass, job, source, came),
            None => drop(came),
        }
        if source.end() {
            self.shared.state.count_tried();
        }
    }

    /// Waits until the desk is to be closed, but no longer than this, and no longer than a look where answers are to come.
    fn wait(&self, time: Duration) -> Next {
        let (here, there) = if self.sources.is_any_asked() {
            (Duration::ZERO, Duration::from_millis(LOOK_MILLIS))
        } else {
            (time, Duration::ZERO)
        };
        if self.shared.control.is_ended_within(&self.shared.rt, here) {
            return Next::End;
        }
        Next::Wait(there)
    }
}

impl<R: Wait + Clock + Eprint + Copy, L: Ledger, B: Ledger, N: JournalName> Shared<R, L, B, N> {
    /// Refreshes sources until the desk is to be closed, each when it is due, whatever others do. A refresh that is under way then is given
    /// up: it is due over the next desk.
    pub fn refresh_sources<S: FetchSeveral + ReadFiles>(
        &self,
        pass: &mut Pass<L, B, N>,
        watch: &mut Watch<S>,
    ) {
        drop((watch.left.take(), watch.forgotten.take()));
        for _ in self.rt.forever() {
            match self.refresh_by(pass, watch) {
                Ok(()) => return,
                Err(error) => log_warning_of(&self.rt, "discovery sources cannot be asked", &error),
            }
            let pause = Duration::from_millis(PAUSE_MILLIS);
            if self.control.is_ended_within(&self.rt, pause) {
                return;
            }
        }
    }

    /// Refreshes sources until the desk is to be closed, or the device fails.
    fn refresh_by<S: FetchSeveral + ReadFiles>(
        &self,
        pass: &mut Pass<L, B, N>,
        watch: &mut Watch<S>,
    ) -> io::Result<()> {
        let none = Sources::new(Vec::new(self.alloc));
        let sources = std::mem::replace(&mut watch.sources, none);
        let (mut sources, asked) = self.asked_by(&watch.device, pass, &watch.jobs, sources);
        sources.give_up();
        drop(std::mem::replace(&mut watch.sources, sources));
        asked
    }

    /// Has the device ask these sources of jobs, and gives them back.
    fn asked_by<S: FetchSeveral + ReadFiles>(
        &self,
        device: &S,
        pass: &mut Pass<L, B, N>,
        jobs: &List<Job>,
        sources: Sources,
    ) -> (Sources, io::Result<()>) {
        let mut refresher = Refresher {
            shared: self,
            pass,
            files: device,
            jobs,
            sources,
        };
        let asked = device.fetch_for(&mut refresher);
        (refresher.sources, asked)
    }

    fn refresh(&self, pass: &mut Pass<L, B, N>, job: &Job, source: &mut Source, came: Came) {
        self.state.count_refresh();
        match came {
            Came::Reply(reply) => self.refresh_by_reply(pass, job, source, reply),
            Came::Files(files) => {
                let list = list_in_files(self.alloc, job, source.settings.number, files);
                self.follow_list(pass, job, source, list);
            }
            Came::Nothing(cause) => {
                self.follow_list(pass, job, source, Err(Failure::Nothing(cause)));
            }
        }
    }

    /// An answer that is that of before lists what stands already.
    fn refresh_by_reply(
        &self,
        pass: &mut Pass<L, B, N>,
        job: &Job,
        source: &mut Source,
        reply: Reply,
    ) {
        let number = source.settings.number;
        if let Some(counts) = source.listed.counts_again(&reply) {
            self.tell_again(job, number, counts);
            drop(reply);
            return;
        }
        let fetched: Result<Reply, FetchFault> = Ok(reply);
        let list = list_in_reply(self.alloc, job, number, &fetched);
        let counts = counts_in(&list);
        let stands = self.follow_list(pass, job, source, list);
        match (fetched, counts) {
            (Ok(reply), Some(counts)) if stands => source.listed.answered(reply, counts),
            (unread, _) => drop(unread),
        }
    }

    /// Tells what a source lists, or why it does not, and submits it where it is news. Whether it is what was submitted last.
    fn follow_list(
        &self,
        pass: &mut Pass<L, B, N>,
        job: &Job,
        source: &mut Source,
        list: Result<Listing, Failure>,
    ) -> bool {
        let number = source.settings.number;
        self.tell(job, number, &list);
        match list {
            Ok(listing) => {
                let listed = &mut source.listed;
                self.submit_news(pass, told_source(job, number), listed, listing.event)
            }
            Err(told) => {
                drop(told);
                false
            }
        }
    }

    /// Tells that a refresh found what was listed before.
    fn tell_again(&self, job: &Job, number: u32, counts: ListCounts) {
        match Text::from_str(self.alloc, "") {
            Ok(no_fault) => self.note_refresh(job, number, Some(counts), no_fault),
            Err(_) => log_warning(&self.rt, "no memory to note a refresh"),
        }
    }

    /// Tells how a refresh ended those who look at the service, and in the log where it failed.
    fn tell(&self, job: &Job, number: u32, list: &Result<Listing, Failure>) {
        if list.is_err() {
            self.state.count_failed_refresh();
        }
        let Ok(fault) = fault_in(self.alloc, list) else {
            log_warning(&self.rt, "no memory to note a refresh");
            return;
        };
        if list.is_err() {
            self.log_failure(told_source(job, number), fault.as_str());
        }
        self.note_refresh(job, number, counts_in(list), fault);
    }

    fn log_failure(&self, source: ToldSource<'_>, fault: &str) {
        let job = Quoted(source.job);
        let url = QuotedUrl(source.url);
        let why = Quoted(fault);
        let number = source.number;
        warn!(Logfmt(self.rt); job:% = job, source = number, url:% = url, why:% = why; "refresh failed");
    }

    /// Notes for those who look at the service how a refresh ended.
    fn note_refresh(&self, job: &Job, number: u32, counts: Option<ListCounts>, fault: Text) {
        let Ok(note) = self.note_of(job, number, counts, fault) else {
            return;
        };
        if self.state.note_refresh(&self.rt, note).is_err() {
            log_warning(&self.rt, "no memory to note a refresh");
        }
    }

    fn note_of(
        &self,
        job: &Job,
        number: u32,
        counts: Option<ListCounts>,
        fault: Text,
    ) -> Result<SourceNote, AllocError> {
        let is_listed = counts.is_some();
        let job = job.name.copy()?;
        let at = timestamp(&self.rt, self.alloc).ok_or(AllocError)?;
        Ok(SourceNote {
            job,
            number,
            refreshes: 1,
            failures: u64::from(!is_listed),
            succeeded: if is_listed { self.seconds_now() } else { 0 },
            at: Text::from_string(at),
            fault,
            counts,
        })
    }

    /// The seconds since 1970. 0 where no clock tells them.
    fn seconds_now(&self) -> u64 {
        match self.rt.since_1970() {
            Ok(now) => now.as_secs(),
            Err(_) => 0,
        }
    }

    /// Submits a list that is another one than the last. Whether it is the one that was submitted last from then on.
    fn submit_news(
        &self,
        pass: &mut Pass<L, B, N>,
        source: ToldSource<'_>,
        listed: &mut Listed,
        event: Event,
    ) -> bool {
        let Ok(text) = event.to_json(self.alloc) else {
            drop(event);
            log_warning(&self.rt, "no memory for a list of targets");
            return false;
        };
        if !listed.is_news(text.as_str()) {
            drop((text, event));
            return true;
        }
        let count = targets_in(&event).len() as u64;
        self.listed.fetch_add(count, Ordering::SeqCst);
        let event = listed.shared_by(self.alloc, event);
        let list = LastList::of(self.alloc, text, &event);
        match self.enter_list(pass, source, event) {
            Some(is_refused) => {
                listed.submitted(list, is_refused);
                true
            }
            None => {
                drop(list);
                false
            }
        }
    }
}

/// How a job's source is asked over HTTP.
fn wanted_over_http(alloc: Global, job: &Job, number: u32) -> Option<Wanted> {
    match get_of_source(alloc, job, number) {
        Ok(Some(get)) => Some(Wanted::Get(get)),
        Ok(None) | Err(AllocError) => None,
    }
}

/// A job's source, as log lines name it.
fn told_source(job: &Job, number: u32) -> ToldSource<'_> {
    ToldSource {
        job: job.name.as_str(),
        number,
        url: url_of(job, number),
    }
}

/// The URL of a job's source.
fn url_of(job: &Job, number: u32) -> &str {
    let index = number.saturating_sub(1) as usize;
    match job.http_urls.as_slice().get(index) {
        Some(url) => url.as_str(),
        None => "",
    }
}

/// What a list has, where there is one.
fn counts_in(list: &Result<Listing, Failure>) -> Option<ListCounts> {
    match list {
        Ok(listing) => Some(ListCounts {
            targets: targets_in(&listing.event).len() as u64,
            dropped: listing.dropped as u64,
            without_address: listing.no_address as u64,
        }),
        Err(_) => None,
    }
}
