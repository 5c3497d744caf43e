//! What an HTTP request asks for, the event that its body spells, and how its answer is written. No connection, thread or time is
//! needed here.
//!
//! `route` decides by method and target, over the table of paths of `Routes`; `event_of` reads the body; `answer` writes the response, the
//! bodies of pages being made by functions of their own.
#![tactic(auto)]

mod access;
mod acknowledgement;
mod acknowledging;
mod allocation_row;
mod answers_text;
mod ask;
mod books_row;
mod change;
mod collector_row;
mod decimal;
mod event;
mod found_targets;
mod job_row;
mod join_members;
mod link;
mod list_head;
mod members;
mod misshapen;
mod notice;
mod pages;
mod place;
mod purpose;
mod query;
mod report_list;
mod request_error;
mod responding;
mod routes;
mod routing;
mod segment;
mod which_collector;
mod written_head;

pub use access::Access;
pub use acknowledgement::Acknowledgement;
pub use acknowledging::acknowledged_list;
pub use allocation_row::{AllocationRow, MoveRow, allocations_page};
pub use ask::{Ask, ROUTE_COUNT, ROUTES, Route};
pub use books_row::{BookCounts, BooksRow, CollectorBooks, JobBooks, books_page};
pub use change::{Change, Wanted};
pub use collector_row::{CollectorRow, collector_page, collectors_page};
pub use event::event_of;
pub use found_targets::{FoundTarget, found_page};
pub use job_row::{JobRow, SourceRow, job_row_page};
pub use join_members::{LONGEST_LABEL, LONGEST_VALUE};
pub use list_head::ListHead;
pub use misshapen::misshapen_member;
pub use notice::Notice;
pub use pages::{job_page, jobs_page, targets_page, uncovered_page};
pub use place::Place;
pub use report_list::MOST_REPORTS;
pub use request_error::RequestError;
pub use responding::{Said, answer};
pub use routes::Routes;
pub use routing::route;
pub use which_collector::WhichCollector;
pub use written_head::WrittenHead;
