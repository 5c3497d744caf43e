//! The samples that an event books, by its answer.
ghost use Rattle.std.specs.Prelude.{◌≡◌, if◌then◌else◌};
ghost use Rattle.alloc_desk.specs.Gains.{is_booked, offered};

use allocation_core::{Answer, Event};

/// The samples that an event books where it is booked.
pub(crate) fn offered(event: &Event) -> u32
    ensures { result ≡ offered event.now }
{
    match event {
        Event::Report(report) => report.outcome.samples(),
        _ => 0,
    }
}

/// What the event booked of the samples that it offered.
pub(crate) fn gained(offered: u32, answer: &Answer) -> u32
    ensures { result ≡ (if is_booked answer.now then offered else 0) }
{
    match answer {
        Answer::Booked => offered,
        _ => 0,
    }
}
