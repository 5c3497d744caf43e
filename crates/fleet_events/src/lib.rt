//! What the allocator is asked and what it answers: events, answers and refusals, the texts of answers, and events as
//! JSON objects.
//!
//! Contracts see an event and an answer as they are declared, and a text as its bytes. `read_event` gives exactly the event
//! that a text says, and `Event::to_json` writes each event in one form that reads back as the event.
#![tactic(auto)]

mod answer;
mod event;
mod ids;
mod members;
mod number_lists;
mod reading;
mod refusal;
mod report;
mod spreads;
mod target;
mod writing;

pub use answer::Answer;
pub use event::Event;
pub use ids::{AllocationNumber, CollectorId, Round, TargetId};
pub use reading::{read_event, read_outcome, read_report};
pub use refusal::{REFUSAL_COUNT, REFUSALS, Refusal, RefusalKind};
pub use report::Report;
pub use scrape_books::Outcome;
pub use target::read_target;
pub use writing::target_value;
