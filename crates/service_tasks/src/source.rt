//! A discovery source as it is watched.
ghost use Rattle.std.specs.Prelude.{◌≡◌};

use crate::last_list::LastList;
use crate::service::SourceSettings;
use fleet_events::Event;
use http_get::Reply;
use service_state::ListCounts;
use std::alloc::Global;
use std::time::{Duration, Instant};

/// After how many refreshes a list that was refused is submitted again, as long as it is the same.
const REFUSED_AGAIN: u32 = 32;

/// A discovery source, with when it is due.
#[derive(Drop)]
pub(crate) struct Source {
    pub(crate) settings: SourceSettings,
    /// When its last refresh began.
    began: Option<Instant>,
    /// How long after its first refresh began the second one does.
    first_wait: Duration,
    /// How long after its last refresh began the next one does.
    wait: Duration,
    /// Whether a refresh is under way.
    is_asked: bool,
    /// Whether a refresh came to an end.
    is_tried: bool,
    /// What it listed last.
    pub(crate) listed: Listed,
}

/// What a source listed last.
#[derive(Drop)]
pub(crate) struct Listed {
    /// The list that was submitted last.
    last: Option<LastList>,
    /// How many refreshes from now on the same list is not submitted again, where it was refused.
    refused_for: Option<u32>,
    /// The answer that has this list, and what is counted of it.
    reply: Option<(Reply, ListCounts)>,
}

impl Source {
    /// A source that is not asked yet, at a turn from 1 on among so many. A service that begins is ready once it was tried. All are
    /// asked at once first, and from then on at times that are spread.
    pub(crate) fn new(settings: SourceSettings, turn: u32, count: u32) -> Source {
        Source {
            settings,
            began: None,
            first_wait: part_of(settings.every, turn, count),
            wait: settings.every,
            is_asked: false,
            is_tried: false,
            listed: Listed::nothing(),
        }
    }

    /// For how long it is due. None where it is not, or a refresh is under way.
    pub(crate) fn is_due_for(&self, now: Instant) -> Option<Duration> {
        if self.is_asked {
            return None;
        }
        match self.began {
            Some(began) => now.saturating_duration_since(began).checked_sub(self.wait),
            None => Some(Duration::MAX),
        }
    }

    /// How long from now it is due. Nothing where it is due by now, whether or not a refresh is under way.
    pub(crate) fn due_in(&self, now: Instant) -> Duration {
        match self.began {
            Some(began) => self
                .wait
                .saturating_sub(now.saturating_duration_since(began)),
            None => Duration::ZERO,
        }
    }

    /// A refresh begins.
    pub(crate) fn begin(&mut self, now: Instant) {
        self.wait = if self.is_tried {
            self.settings.every
        } else {
            self.first_wait
        };
        self.began = Some(now);
        self.is_asked = true;
    }

    /// The refresh that was under way came to an end. Whether it was the first that did.
    pub(crate) fn end(&mut self) -> bool {
        let is_first = !self.is_tried;
        self.is_asked = false;
        self.is_tried = true;
        is_first
    }

    /// The refresh that was under way is given up, and another one is due.
    pub(crate) fn give_up(&mut self) {
        if self.is_asked {
            self.is_asked = false;
            self.began = None;
        }
    }
}

impl Listed {
    fn nothing() -> Listed {
        Listed {
            last: None,
            refused_for: None,
            reply: None,
        }
    }

    /// What is counted of the list of this answer, where it is the answer of before, so that nothing is to be read or submitted.
    pub(crate) fn counts_again(&mut self, reply: &Reply) -> Option<ListCounts> {
        let counts = self.counts_of(reply)?;
        if self.is_due_again() {
            return None;
        }
        Some(counts)
    }

    fn counts_of(&self, reply: &Reply) -> Option<ListCounts> {
        match &self.reply {
            Some((last, counts)) if is_same(last, reply) => Some(*counts),
            _ => None,
        }
    }

    /// Whether a list of this text is to be submitted: it is another one than the last, or its refusal was long ago.
    pub(crate) fn is_news(&mut self, text: &str) -> bool {
        let is_last = match &self.last {
            Some(last) => last.is(text),
            None => false,
        };
        !is_last || self.is_due_again()
    }

    /// Whether the last list was refused, and so long ago that it is submitted again.
    fn is_due_again(&mut self) -> bool {
        match self.refused_for {
            Some(0) => true,
            Some(left) => {
                self.refused_for = Some(left.saturating_sub(1));
                false
            }
            None => false,
        }
    }

    /// The same event, with what it shares with the list that was submitted last.
    pub(crate) fn shared_by(&self, alloc: Global, event: Event) -> Event
        ensures { result ≡ event }
    {
        match &self.last {
            Some(last) => last.shared_by(alloc, event),
            None => event,
        }
    }

    /// This list was submitted.
    pub(crate) fn submitted(&mut self, list: LastList, is_refused: bool) {
        drop(std::mem::replace(&mut self.last, Some(list)));
        self.refused_for = is_refused.then_some(REFUSED_AGAIN);
        drop(std::mem::replace(&mut self.reply, None));
    }

    /// This answer has the list that was submitted last.
    pub(crate) fn answered(&mut self, reply: Reply, counts: ListCounts) {
        drop(std::mem::replace(&mut self.reply, Some((reply, counts))));
    }
}

/// Whether two answers list the same. The longest part is compared last.
fn is_same(reply: &Reply, other: &Reply) -> bool {
    reply.status == other.status
        && reply.media.as_str() == other.media.as_str()
        && reply.body.as_slice() == other.body.as_slice()
}

/// So many parts of a time that is cut into as many.
fn part_of(time: Duration, turn: u32, count: u32) -> Duration {
    match time.checked_div(count) {
        Some(part) => part.saturating_mul(turn),
        None => time,
    }
}
