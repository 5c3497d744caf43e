//! What a service does beside its server: it refreshes its sources, opens rounds, reallocates, has collectors leave that are absent, and
//! keeps its journal, on threads that share a desk; and what it goes on with from one desk to the next.
//!
//! Contracts say that the allocator to go on with is one that events and renewals of the machine lead to; of time and order they say nothing.
#![tactic(auto)]

mod answers;
mod attendance;
mod beginning;
mod booking;
mod changing;
mod configuration;
mod control;
mod desk_passes;
mod differences;
mod entering;
mod evenings;
mod evenness;
mod failed_accepts;
mod handovers;
mod journal;
mod journal_device;
mod keeping;
mod last_list;
mod last_seen;
mod letting_go;
mod logging;
mod moves;
mod patience;
mod process;
mod publishing;
mod reallocating;
mod refreshing;
mod rejoining;
mod reloading;
mod renewing;
mod roster;
mod scheduling;
mod service;
mod service_context;
mod shared;
mod source;
mod sources;
mod told_source;

pub use beginning::found_in_static_groups;
pub use configuration::Configuration;
pub use control::Ending;
pub use desk_passes::DeskPasses;
pub use journal::{Journal, kept_of};
pub use refreshing::Watch;
pub use renewing::continued;
pub use scheduling::Schedule;
pub use service::{Service, ServiceError};
pub use service_context::ServiceContext;
pub use shared::Shared;
