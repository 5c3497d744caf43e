//! An instance that stands by while another leads: it reads along what that keeps in etcd, and answers requests by sending them to who leads.
#![tactic(auto)]

mod answering;
mod board;
mod following;
mod metrics;
mod reply;
mod service;
mod serving;
mod standing;

pub use following::{Followed, advertised, follow};
pub use serving::serve_standing;
pub use standing::Standing;
