//! Laws of a journal in etcd: what holds of a store over every list of requests of anybody, in any order, late ones and copies too, of ends of leases and
//! of claims.
#![tactic(auto)]

mod laws;

pub use laws::{
    answers_stay, blocks_stay, deposed_changes_nothing, deposed_for_good, each_is_done_once,
    epochs_rise, over_is_over, removals_are_once, requests_are_transactions, the_leader_alone,
};
