//! etcd over HTTP/1.1: one request after the other at the endpoints in turn, each over a connection of its own and with a limit of time; and a lease that
//! is kept alive.
#![tactic(auto)]

mod client;
mod keeping;
mod leases;
mod limits;
mod watch;

pub use client::EtcdClient;
pub use etcd_login::Login;
pub use keeping::keep_lease;
pub use leases::{grant, keep_once, revoke};
pub use limits::limit_millis;
pub use watch::Watch;
