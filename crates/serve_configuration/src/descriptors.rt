//! How many descriptors the service may have open.
use crate::kernel_texts::text_of;
use command_faults::Fault;
use log::warn;
use logfmt::Logfmt;
use std::alloc::{AllocError, Global};
use std::fs::File;
use std::rt::Files;
use std::time::Clock;

/// How many descriptors a service keeps: 48 for its files and loops, and 7 for each of 16 sources that are asked at once.
const KEPT: u64 = 160;

/// How many descriptors a service needs, so that it serves some connections at once, one for each.
const NEEDED: u64 = 224;

/// What the kernel says of the limits of this process.
const LIMITS: &str = "/proc/self/limits";

/// How many connections there may be at once with the descriptors that may be open. Where those are too few it is refused to serve; what
/// cannot be read is no limit.
pub fn most_connections<R: Files<File = File>>(rt: &R, alloc: Global) -> Result<u32, Fault> {
    match most_descriptors(rt, alloc) {
        Some(most) if most < NEEDED => Err(too_few(alloc, most)),
        Some(most) => Ok(u32::try_from(most.saturating_sub(KEPT)).unwrap_or(u32::MAX)),
        None => Ok(u32::MAX),
    }
}

/// Tells where fewer connections are served at once than the configuration asks for.
pub fn warn_of_fewer<R: Eprint + Clock + Copy>(rt: &R, connections: u32, most: u32) {
    if most < connections {
        warn!(Logfmt(*rt); connections:% = most, wanted:% = connections; "there are descriptors for fewer connections than allocator.connections: raise the limit (ulimit -n, or LimitNOFILE in a systemd unit)");
    }
}

/// How many descriptors may be open. None where that cannot be read, or nothing limits it.
pub(crate) fn most_descriptors<R: Files<File = File>>(rt: &R, alloc: Global) -> Option<u64> {
    match text_of(rt, alloc, LIMITS) {
        Ok(limits) => most_open(limits.as_str()),
        Err(_) => None,
    }
}

/// The number of descriptors that may be open, where these limits say one.
fn most_open(limits: &str) -> Option<u64> {
    limits
        .lines()
        .find_map(|line| line.strip_prefix("Max open files"))?
        .split_whitespace()
        .next()?
        .parse()
        .ok()
}

fn too_few(alloc: Global, most: u64) -> Fault {
    let line: Result<String, AllocError> = format!(in alloc;
        "allocd serve: {most} descriptors may be open, and {NEEDED} are needed: raise the limit (ulimit -n {NEEDED}, or LimitNOFILE={NEEDED} in a systemd unit)"
    );
    match line {
        Ok(line) => Fault::Told(line),
        Err(error) => error.into(),
    }
}
