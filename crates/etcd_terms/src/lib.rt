//! What one instance asks of etcd while it leads, without a socket: which request comes next, and what its answer makes of what the instance knows. A
//! request of which nothing is known is asked again as it was, and whoever is deposed asks nothing any more.
//!
//! Contracts see a seat as its fields. That what it asks is done once and in its order is a law over every list of answers, with those of `etcd_laws`.
#![tactic(auto)]

mod asking;
mod hearing;
mod laws;
mod reading;
mod seat;
mod verdicts;

pub use laws::{
    asks_a_script, asks_what_is_posted, counts_what_is_kept, others_change_nothing, over_is_silent,
    unknown_asks_again,
};
pub use reading::{Looked, Reading, leader_in};
pub use seat::{Ahead, Seat, Wish};
pub use verdicts::leads_verdict;
