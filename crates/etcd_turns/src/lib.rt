//! How an instance asks etcd, over whatever posts for it: the very same request again until its answer is known, or it leads no more. It claims, reads what
//! stands, appends, begins another epoch, and asks whether it still leads.
//!
//! It has no handle: what lies outside is a trait. Contracts see which bodies were posted and what was heard of them.
#![tactic(auto)]

mod appending;
mod asking;
mod beginning;
mod claiming;
mod looking;
mod outside;
mod reply;
mod settling;

pub use appending::append;
pub use beginning::{begin, cut, forget};
pub use claiming::claim;
pub use looking::{Sight, is_ours, look, read_all};
pub use outside::Etcd;
pub use reply::Reply;
