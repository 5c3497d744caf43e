//! What etcd's JSON gateway answers to the requests of an allocator's journal, read exactly: a request is kept, its sender is deposed, or neither is known;
//! a lease goes on or ended; which keys a look found.
//!
//! Contracts see an answer as its status and the bytes of its body. What is not 200, or no document of the form, is not known: never kept, never deposed.
#![tactic(auto)]

mod answer;
mod found;
mod laws;
mod leases;
mod numbers;
mod response;
mod verdict;

pub use answer::{Answer, Told, read_answer};
pub use found::Found;
pub use laws::{kept_is_there, never_both, others_say_nothing};
pub use leases::{Granted, Lease, read_granted, read_lease};
pub use response::Response;
pub use verdict::{
    Verdict, claim_verdict, forget_verdict, has_value, remove_verdict, switch_verdict,
    write_verdict,
};
