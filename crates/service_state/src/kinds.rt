//! What events are, and what they are answered, as they are counted.
use fleet_events::{Answer, Event};

/// What an event is.
#[derive(Clone, Copy)]
pub enum EventKind {
    Discover,
    Join,
    Leave,
    Drain,
    SetLimits,
    Install,
    Spread,
    NextRound,
    Take,
    Serve,
    Release,
    Report,
}

/// What an event that was done is answered.
#[derive(Clone, Copy)]
pub(crate) enum DoneKind {
    Discovered,
    Joined,
    Left,
    Draining,
    LimitsSet,
    Published,
    RoundOpen,
    Taken,
    Served,
    Released,
    Booked,
}

/// How many kinds of events there are.
pub(crate) const KIND_COUNT: usize = EventKind::Report as usize + 1;
/// How many answers there are to events that are done.
pub(crate) const DONE_COUNT: usize = DoneKind::Booked as usize + 1;
/// All kinds, in the order in which they are told.
pub(crate) const KINDS: [EventKind; KIND_COUNT] = [
    EventKind::Discover,
    EventKind::Join,
    EventKind::Leave,
    EventKind::Drain,
    EventKind::SetLimits,
    EventKind::Install,
    EventKind::Spread,
    EventKind::NextRound,
    EventKind::Take,
    EventKind::Serve,
    EventKind::Release,
    EventKind::Report,
];

/// All answers to events that are done, in the order in which they are told.
pub(crate) const DONE: [DoneKind; DONE_COUNT] = [
    DoneKind::Discovered,
    DoneKind::Joined,
    DoneKind::Left,
    DoneKind::Draining,
    DoneKind::LimitsSet,
    DoneKind::Published,
    DoneKind::RoundOpen,
    DoneKind::Taken,
    DoneKind::Served,
    DoneKind::Released,
    DoneKind::Booked,
];

impl EventKind {
    pub fn of(event: &Event) -> EventKind {
        match event {
            Event::Discover { .. } => EventKind::Discover,
            Event::Join { .. } => EventKind::Join,
            Event::Leave(_) => EventKind::Leave,
            Event::Drain(_) => EventKind::Drain,
            Event::SetLimits { .. } => EventKind::SetLimits,
            Event::Install(_) => EventKind::Install,
            Event::Spread(_) => EventKind::Spread,
            Event::NextRound => EventKind::NextRound,
            Event::Take(_) => EventKind::Take,
            Event::Serve { .. } => EventKind::Serve,
            Event::Release { .. } => EventKind::Release,
            Event::Report(_) => EventKind::Report,
        }
    }

    /// The name of the kind's JSON.
    pub fn name(self) -> &'static str {
        match self {
            EventKind::Discover => "discover",
            EventKind::Join => "join",
            EventKind::Leave => "leave",
            EventKind::Drain => "drain",
            EventKind::SetLimits => "limits",
            EventKind::Install => "install",
            EventKind::Spread => "spread",
            EventKind::NextRound => "round",
            EventKind::Take => "take",
            EventKind::Serve => "serve",
            EventKind::Release => "release",
            EventKind::Report => "report",
        }
    }
}

impl DoneKind {
    /// The name of the answer.
    pub(crate) fn name(self) -> &'static str {
        match self {
            DoneKind::Discovered => "Discovered",
            DoneKind::Joined => "Joined",
            DoneKind::Left => "Left",
            DoneKind::Draining => "Draining",
            DoneKind::LimitsSet => "LimitsSet",
            DoneKind::Published => "Published",
            DoneKind::RoundOpen => "RoundOpen",
            DoneKind::Taken => "Taken",
            DoneKind::Served => "Served",
            DoneKind::Released => "Released",
            DoneKind::Booked => "Booked",
        }
    }
}

/// Whether the line of an answer says that an event was done.
pub(crate) fn is_done(line: &str) -> bool {
    let name = line.split(' ').next().unwrap_or("");
    DONE.iter().any(|done| done.name() == name)
}
