//! A lease that is kept alive.
use crate::leases::keep_once;
use crate::watch::Watch;
use etcd_answers::Lease;
use etcd_turns::Etcd;
use std::alloc::AllocGlobal;
use std::sync::Wait;
use std::thread;
use std::time::{Clock, Duration, Instant};

/// How long is waited between two looks at whether the instance ends, in milliseconds.
const LOOK: u64 = 50;

/// How many leases long nothing may be known of the lease before it counts as ended.
const LEASES_UNKNOWN: u64 = 2;

/// Keeps a lease of so many seconds alive, each third of it, until the instance leads no more. It does not where etcd says that the lease ended, or
/// nothing is known of it for two leases.
pub fn keep_lease<R, E>(rt: &R, etcd: &mut E, lease: u64, seconds: u64, watch: &Watch)
where
    R: Wait + Clock + AllocGlobal,
    E: Etcd,
{
    let mut good = Instant::now(rt).ok();
    for _ in rt.forever() {
        if watch.is_over() {
            return;
        }
        let asked = Instant::now(rt).ok();
        match keep_once(rt.alloc(), etcd, lease) {
            Ok(Lease::GoesOn(_)) => {
                good = asked;
                sleep_while(rt, seconds.saturating_mul(1_000) / 3, watch);
            }
            Ok(Lease::Ended) => watch.end(),
            Ok(Lease::Unknown) | Err(_) => {
                if is_long(rt, good, seconds.saturating_mul(LEASES_UNKNOWN)) {
                    watch.end();
                }
                thread::sleep(rt, Duration::from_millis(LOOK));
            }
        }
    }
    unreachable!()
}

/// Sleeps so many milliseconds, or until the instance leads no more.
fn sleep_while<R: Wait + Clock>(rt: &R, millis: u64, watch: &Watch) {
    for _ in 0..millis / LOOK {
        if watch.is_over() {
            return;
        }
        thread::sleep(rt, Duration::from_millis(LOOK));
    }
}

/// Whether so many seconds went by since then, or no clock tells.
fn is_long<R: Clock>(rt: &R, since: Option<Instant>, seconds: u64) -> bool {
    match (since, Instant::now(rt)) {
        (Some(since), Ok(now)) => {
            now.saturating_duration_since(since) >= Duration::from_secs(seconds)
        }
        _ => true,
    }
}
