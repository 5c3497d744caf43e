//! The allocator shared by threads: under a lock, with a journal of what it was asked and answered, and with passes that count what
//! they did; and what calls both the engine and the machine: a plan for the moment is searched and installed.
//!
//! Contracts see a desk through its name, which has the opening state. What a pass is told is told of some history that is legal from
//! there and has at least what the pass did; a closed desk's journal is legal as it stands. What is asked through a
//! front is told of the one journal that comes out of the desk.
#![tactic(auto)]

mod attempt;
mod changed;
mod closed;
mod desk;
mod entries;
mod front;
mod gains;
mod idle;
mod laws;
mod leftover;
mod limits;
mod locked_record;
mod log;
mod name;
mod pass;
mod reallocation;
mod receipt;
mod record;
mod sharing;
mod spare;
mod spread_attempt;
mod view;

pub use attempt::{Lost, ReallocateError, Reallocated};
pub use closed::Closed;
pub use desk::{Desk, PassMissing};
pub use front::Front;
pub use laws::closed_desks_are_best_and_booked;
pub use leftover::Leftover;
pub use limits::{MOST_ENTRIES, MOST_PASSES};
pub use log::Log;
pub use name::DeskName;
pub use pass::Pass;
pub use reallocation::reallocate;
pub use receipt::Receipt;
pub use record::{EnterError, Record};
pub use sharing::shared_desk;
pub use spread_attempt::SpreadError;
pub use spread_engine::JobEvening;
pub use view::{CollectorView, View};
