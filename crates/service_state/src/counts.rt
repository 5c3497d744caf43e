//! What a service counts: requests by route and status, and how long they took, events by kind and answer.
use crate::kinds::{DONE_COUNT, DoneKind, EventKind, KIND_COUNT};
use exposition::Durations;
use fleet_events::{Answer, REFUSAL_COUNT, RefusalKind};
use sd_routes::{ROUTE_COUNT, Route};

/// How many status codes are told apart.
const STATUS_COUNT: usize = 16;

/// The status codes of responses, and 0 for any other.
pub(crate) const STATUSES: [u16; STATUS_COUNT] = [
    200, 304, 400, 401, 403, 404, 405, 409, 413, 415, 417, 500, 501, 503, 507, 0,
];

/// What is counted of the requests of a route.
#[derive(Clone, Copy)]
pub(crate) struct RequestCounts {
    /// At the places of their statuses.
    statuses: [u64; STATUS_COUNT],
    durations: Durations,
}

/// What is counted of the events of a kind.
#[derive(Clone, Copy)]
pub(crate) struct EventCounts {
    /// Of those that were done, by what they were answered.
    done: [u64; DONE_COUNT],
    /// Of those that were refused, by why.
    refused: [u64; REFUSAL_COUNT],
}

/// Counts since the service began.
#[derive(Clone, Copy)]
pub(crate) struct Counts {
    /// Of requests that were answered, by their routes.
    requests: [RequestCounts; ROUTE_COUNT],
    /// Of events, by their kinds.
    events: [EventCounts; KIND_COUNT],
}

impl RequestCounts {
    fn none() -> RequestCounts {
        RequestCounts {
            statuses: [0; STATUS_COUNT],
            durations: Durations::new(),
        }
    }

    /// One more that is answered with this status after so many microseconds.
    fn count(&mut self, status: u16, microseconds: u64) {
        let place = STATUSES.iter().position(|other| *other == status);
        count_one(&mut self.statuses[place.unwrap_or(STATUS_COUNT - 1)]);
        self.durations.observe(microseconds);
    }

    /// How many there are of each status.
    pub(crate) fn statuses(&self) -> &[u64] {
        &self.statuses
    }

    /// How long it took to answer them.
    pub(crate) fn durations(&self) -> &Durations {
        &self.durations
    }
}

impl EventCounts {
    fn none() -> EventCounts {
        EventCounts {
            done: [0; DONE_COUNT],
            refused: [0; REFUSAL_COUNT],
        }
    }

    /// One more that is answered so.
    fn count(&mut self, answer: &Answer) {
        match answer {
            Answer::Discovered { .. } => self.count_done(DoneKind::Discovered),
            Answer::Joined(_) => self.count_done(DoneKind::Joined),
            Answer::Left => self.count_done(DoneKind::Left),
            Answer::Draining => self.count_done(DoneKind::Draining),
            Answer::LimitsSet => self.count_done(DoneKind::LimitsSet),
            Answer::Published(_) => self.count_done(DoneKind::Published),
            Answer::RoundOpen(_) => self.count_done(DoneKind::RoundOpen),
            Answer::Taken { .. } => self.count_done(DoneKind::Taken),
            Answer::Served { .. } => self.count_done(DoneKind::Served),
            Answer::Released(_) => self.count_done(DoneKind::Released),
            Answer::Booked => self.count_done(DoneKind::Booked),
            Answer::Not(refusal) => self.count_refused(RefusalKind::of(refusal)),
        }
    }

    fn count_done(&mut self, kind: DoneKind) {
        count_one(&mut self.done[kind as usize]);
    }

    fn count_refused(&mut self, kind: RefusalKind) {
        count_one(&mut self.refused[kind as usize]);
    }

    /// How many that were done are answered so.
    pub(crate) fn of_done(&self, kind: DoneKind) -> u64 {
        self.done[kind as usize]
    }

    /// How many were refused so.
    pub(crate) fn of_refusal(&self, kind: RefusalKind) -> u64 {
        self.refused[kind as usize]
    }

    /// How many were refused.
    pub(crate) fn all_refused(&self) -> u64 {
        let mut sum: u64 = 0;
        for number in &self.refused {
            sum = sum.saturating_add(*number);
        }
        sum
    }
}

impl Counts {
    pub(crate) fn new() -> Counts {
        Counts {
            requests: [RequestCounts::none(); ROUTE_COUNT],
            events: [EventCounts::none(); KIND_COUNT],
        }
    }

    /// One request more that is answered with this status after so many microseconds.
    pub(crate) fn count_request(&mut self, route: Route, status: u16, microseconds: u64) {
        self.requests[route as usize].count(status, microseconds);
    }

    /// One event more.
    pub(crate) fn count_event(&mut self, kind: EventKind, answer: &Answer) {
        self.events[kind as usize].count(answer);
    }

    /// What is counted of a route.
    pub(crate) fn of_route(&self, route: Route) -> &RequestCounts {
        &self.requests[route as usize]
    }

    /// What is counted of a kind of events.
    pub(crate) fn of_kind(&self, kind: EventKind) -> &EventCounts {
        &self.events[kind as usize]
    }
}

fn count_one(number: &mut u64) {
    *number = number.saturating_add(1);
}
