//! What the allocator says of an agent's lists.
use crate::asking::count;
use crate::edge::Edge;
use crate::told::{tell_refused, tell_unknown};
use agent_core::Head;
use agent_documents::read_list;
use agent_exchanges::{
    Gathering, Heads, JobLink, Saying, jobs_path, join_path, list_path, read_jobs, saying_of,
};
use agent_turns::Heard;
use scrape_client::{Answer, Method};
use std::alloc::{AllocError, AllocGlobal};
use std::net::Net;
use std::random::RandomSource;
use std::sync::Wait;
use std::sync::atomic::Ordering;
use std::time::Clock;

/// How often the lists are asked for at most until they are of one allocation and one round.
const MOST_TRIES: u32 = 4;

/// After so long it takes its lists again though they are the same, in milliseconds: the allocator misses who asks for none.
const LONGEST_UNTAKEN: u64 = 10_000;

/// What came of one list.
#[derive(Clone, Copy)]
enum Came {
    /// It is of the head of those before.
    Added,
    /// It is of another head.
    Other,
    Gone,
    Unknown,
    Nothing,
}

impl<R> Edge<'_, R>
where
    R: Wait + Clock + Net + RandomSource + AllocGlobal + Eprint + Copy,
{
    /// What the allocator says of the lists of all jobs, which are asked for at a time.
    pub(crate) fn hear(&self, at: u64, takes: bool) -> Heard {
        match self.links() {
            Some(links) => {
                let heard = self.hear_of(at, takes, links.as_slice());
                drop(links);
                heard
            }
            None => Heard::Nothing,
        }
    }

    fn hear_of(&self, at: u64, takes: bool, links: &[JobLink]) -> Heard {
        for _ in 0..MOST_TRIES {
            match self.hear_once(at, takes, links) {
                Some(heard) => return heard,
                None => {}
            }
        }
        Heard::Nothing
    }

    /// What the lists come to, where they are of one head.
    fn hear_once(&self, at: u64, takes: bool, links: &[JobLink]) -> Option<Heard> {
        let mut gathering = Gathering::new(self.alloc);
        match self.gather(&mut gathering, at, takes, links) {
            Came::Added => Some(lists_of(gathering)),
            other => {
                drop(gathering);
                without_lists(other)
            }
        }
    }

    /// Whether the lists were not taken for long, and are still of this head's allocation: that is looked at again, so that no others are taken
    /// before Prometheus follows.
    pub(crate) fn is_long_untaken(&self, head: Head, at: u64) -> bool {
        let passed = at.saturating_sub(self.taken.load(Ordering::SeqCst));
        if passed < LONGEST_UNTAKEN {
            return false;
        }
        match self.hear(at, false) {
            Heard::Lists(lists) => {
                let is_same = lists.head.epoch == head.epoch && lists.head.number == head.number;
                drop(lists);
                is_same
            }
            Heard::Gone | Heard::Unknown | Heard::Nothing => false,
        }
    }

    /// Which jobs there are, and where their lists are asked for.
    fn links(&self) -> Option<Vec<JobLink>> {
        let path = jobs_path(self.alloc, self.places.allocator.base.as_str()).ok()?;
        let answer = self.ask_allocator(
            &self.places.keys.allocator,
            Method::Get,
            path.as_str(),
            b"",
        )?;
        if answer.status != 200 {
            tell_refused(&self.rt, answer.status);
            drop(answer);
            return None;
        }
        let links = self.links_in(answer.body.as_slice());
        drop(answer);
        links
    }

    /// Reads which jobs there are, and notes their names: where the collector holds nothing, that is told of each of them.
    fn links_in(&self, body: &[u8]) -> Option<Vec<JobLink>> {
        let links = read_jobs(self.alloc, body).ok()?;
        match self.note_jobs(links.as_slice()) {
            Ok(()) => Some(links),
            Err(AllocError) => {
                drop(links);
                None
            }
        }
    }

    fn note_jobs(&self, links: &[JobLink]) -> Result<(), AllocError> {
        for link in links {
            let _index = self.jobs.index_of(&self.rt, link.job.as_str())?;
        }
        Ok(())
    }

    /// Gathers the lists, up to the first that is not of the head of those before.
    fn gather(&self, gathering: &mut Gathering, at: u64, takes: bool, links: &[JobLink]) -> Came {
        for link in links {
            match self.add_job(gathering, at, takes, link) {
                Came::Added => {}
                other => return other,
            }
        }
        Came::Added
    }

    /// Adds the list of a job.
    fn add_job(&self, gathering: &mut Gathering, at: u64, takes: bool, link: &JobLink) -> Came {
        let Some(answer) = self.list_answer(takes, link) else {
            return Came::Nothing;
        };
        let came = self.add_answer(gathering, at, link, &answer);
        drop(answer);
        came
    }

    fn add_answer(
        &self,
        gathering: &mut Gathering,
        at: u64,
        link: &JobLink,
        answer: &Answer,
    ) -> Came {
        let body = answer.body.as_slice();
        match saying_of(at, answer.status, heads_of(answer), body) {
            Saying::List(head, until) => {
                self.note_round(answer);
                self.add_list(gathering, link, head, until, body)
            }
            Saying::Gone => Came::Gone,
            Saying::Unknown => Came::Unknown,
            Saying::Other => {
                tell_refused(&self.rt, answer.status);
                Came::Nothing
            }
        }
    }

    fn list_answer(&self, takes: bool, link: &JobLink) -> Option<Answer> {
        let base = self.places.allocator.base.as_str();
        let name = self.places.settings.name.as_str();
        let path = list_path(self.alloc, base, link.link.as_str(), name, takes).ok()?;
        self.ask_allocator(&self.places.keys.allocator, Method::Get, path.as_str(), b"")
    }

    fn add_list(
        &self,
        gathering: &mut Gathering,
        link: &JobLink,
        head: Head,
        until: u64,
        body: &[u8],
    ) -> Came {
        let Ok(job) = self.jobs.index_of(&self.rt, link.job.as_str()) else {
            return Came::Nothing;
        };
        let Ok(targets) = read_list(self.alloc, job, body) else {
            return Came::Nothing;
        };
        match gathering.add(head, until, targets) {
            Ok(true) => Came::Added,
            Ok(false) => Came::Other,
            Err(_) => Came::Nothing,
        }
    }

    /// Notes how long a round is.
    fn note_round(&self, answer: &Answer) {
        if let Ok(length) = answer.header("x-scrape-round-length").parse::<u64>() {
            self.round.store(length, Ordering::SeqCst);
        }
    }

    /// The collector joins, where it may by itself.
    pub(crate) fn join(&self) {
        match &self.places.join {
            Some(body) => {
                self.post_join(body.as_str().as_bytes());
            }
            None => tell_unknown(&self.rt),
        }
    }

    fn post_join(&self, body: &[u8]) -> Option<()> {
        let path = join_path(self.alloc, self.places.allocator.base.as_str()).ok()?;
        let answer = self.ask_allocator(
            &self.places.keys.admin,
            Method::Post,
            path.as_str(),
            body,
        )?;
        if answer.status != 200 {
            tell_refused(&self.rt, answer.status);
        }
        drop(answer);
        Some(())
    }

    /// The lists were taken at a time, or what came of that.
    pub(crate) fn note_take(&self, at: u64, heard: &Heard) {
        match heard {
            Heard::Lists(_) => {
                self.taken.store(at, Ordering::SeqCst);
                count(&self.store.counts.takes, 1);
            }
            Heard::Gone | Heard::Unknown => self.join(),
            Heard::Nothing => {}
        }
    }
}

/// What it comes to where there are no lists of one head. None where they may be asked for again.
fn without_lists(came: Came) -> Option<Heard> {
    match came {
        Came::Added | Came::Other => None,
        Came::Gone => Some(Heard::Gone),
        Came::Unknown => Some(Heard::Unknown),
        Came::Nothing => Some(Heard::Nothing),
    }
}

/// What lists come to that are of one head.
fn lists_of(gathering: Gathering) -> Heard {
    match gathering.lists() {
        Ok(Some(lists)) => Heard::Lists(lists),
        Ok(None) | Err(_) => Heard::Nothing,
    }
}

/// The headers of a list.
fn heads_of(answer: &Answer) -> Heads<'_> {
    Heads {
        collector: answer.header("x-collector"),
        epoch: answer.header("x-allocator-epoch"),
        number: answer.header("x-allocation-number"),
        round: answer.header("x-scrape-round"),
        age: answer.header("x-scrape-round-age"),
        length: answer.header("x-scrape-round-length"),
    }
}
