//! What is to happen.
ghost use Rattle.std.specs.Prelude.{◌≡◌};
ghost use Rattle.sd_routes.specs.Changes.{change_event};

use fleet_events::{CollectorId, Event};
use lists::List;
use reach_rules::{CollectorName, OwnLimits};

/// What is to happen to a collector.
#[derive(Drop)]
pub enum Change {
    Leave,
    Drain,
    Release,
    /// Its own limits are replaced by these.
    SetLimits(OwnLimits),
}

impl Change {
    /// The event by which this happens to the collector of a number.
    pub fn event(self, collector: CollectorId) -> Event
        ensures { result ≡ change_event self collector }
    {
        match self {
            Change::Leave => Event::Leave(collector),
            Change::Drain => Event::Drain(collector),
            Change::Release => {
                let job = None;
                Event::Release { collector, job }
            }
            Change::SetLimits(limits) => Event::SetLimits { collector, limits },
        }
    }
}

/// What a request wants to happen.
#[derive(Drop)]
pub enum Wanted {
    /// This event.
    Event(Event),
    /// This, to the collector that has a name when it happens.
    OfNamed { name: CollectorName, change: Change },
    /// These reports, one after the other.
    Reports(List<Event>),
}
