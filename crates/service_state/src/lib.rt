//! What the threads of a service share with those that answer requests: what it counts and notes while it runs, its metrics, what its page
//! for people shows, the pages of its configuration, how a request has it read its configuration again, and what was
//! asked of its fleet.
//!
//! Contracts say what the pages of a configuration are. They say nothing of figures: these are what the threads of a service wrote, and what a
//! desk showed.
#![tactic(auto)]

mod changes;
mod config_pages;
mod counts;
mod elapsed;
mod followed;
mod kinds;
mod metrics;
mod names;
mod notes;
mod open_round;
mod process_figures;
mod reloading;
mod round_books;
mod service_state;
mod takers;

pub use changes::{ChangeNote, Changes};
pub use config_pages::ConfigPages;
pub use followed::FollowedList;
pub use kinds::EventKind;
pub use metrics::metrics_page;
pub use notes::Notes;
pub use open_round::{RoundStart, RoundTimes};
pub use process_figures::ProcessFigures;
pub use reloading::{Reloading, unanswered};
pub use round_books::{JobSums, RoundBooks};
pub use service_pages::{
    AllocationNote, Figures, ListCounts, LoadNote, MoveNote, SourceNote, untold_moves,
};
pub use service_settings::Lifecycle;
pub use service_state::ServiceState;
