//! The pages for people of a service, of its jobs, collectors, targets and books, made of what the service shows of itself: no lock, no desk, no clock.
//!
//! Contracts say what is counted: how many targets have no collector, how many sources fail, how many collectors are behind, how many
//! things need attention, how many targets have no row, and how many that moved are told in no row. How a text from outside is shown is `hypertext`'s.
#![tactic(auto)]

mod allocations;
mod attention;
mod books_page;
mod cells;
mod collector_page;
mod collectors;
mod counted;
mod figures;
mod foot;
mod found_page;
mod frame;
mod job_page;
mod jobs;
mod links;
mod moment;
mod needs;
mod notes;
mod page;
mod search_form;
mod sources;
mod standing;
mod targets;

pub use books_page::{BookLine, Reporter, ShownBooks, books_document};
pub use collector_page::{ShownCollector, collector_document};
pub use counted::Counted;
pub use figures::{CollectorFigures, Figures, JobFigures, ShareFigures};
pub use found_page::{ShownFound, found_document};
pub use job_page::{JobShare, ShownJob, job_document};
pub use moment::Moment;
pub use needs::{Need, count_needs};
pub use notes::{AllocationNote, ListCounts, LoadNote, MoveNote, SourceNote, untold_moves};
pub use page::{Shown, status_page};
pub use standing::Standing;
pub use targets::{Coverage, MOST_ROWS, Rows, TargetRow};
