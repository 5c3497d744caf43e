//! The command `allocd serve`: the service on this machine's files and sockets, or over a journal in etcd.
#![tactic(auto)]

mod command;
mod end;
mod in_etcd;
mod instance;
mod leading;
mod running;
mod standing_by;

pub use command::serve;
