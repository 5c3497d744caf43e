//! A journal in etcd, as a device that keeps bytes, over whatever posts to etcd. It is opened by a claim: then it is read whole, its torn end is cut, and what is
//! written to it is appended in blocks, as long as the claim's term leads.
#![tactic(auto)]

mod journal;
mod leading;
mod opening;

pub use journal::EtcdJournal;
pub use leading::Leads;
pub use opening::{Opened, open};
