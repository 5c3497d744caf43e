//! The requests of an allocator's journal in etcd, as the bodies that are posted to etcd's JSON gateway, without a socket: a lease, a claim, a look, blocks
//! that are written and removed, and the next epoch.
//!
//! Contracts see a body as its bytes. What a request compares and does is a transaction of `specs/Requests.antt`, and laws of such are in `etcd_laws`.
#![tactic(auto)]

mod bodies;
mod compares;
mod encoded;
mod key;
mod operations;
mod paths;
mod transaction;
mod values;

pub use bodies::{
    claim_body, forget_body, get_body, grant_body, lease_body, look_body, remove_body, switch_body,
    term_text, write_body,
};
pub use key::Key;
pub use paths::{GET_PATH, GRANT_PATH, KEEP_PATH, REVOKE_PATH, TRANSACTION_PATH};
