//! What is told of whom an agent asks: that he is not heard, once, and that he is again.
use http_get::Cause;
use log::{info, warn};
use logfmt::Logfmt;
use std::sync::atomic::{AtomicBool, Ordering};
use std::time::Clock;

/// The allocator was heard.
pub(crate) fn tell_allocator_heard<R: Clock + Eprint + Copy>(rt: &R, is_away: &AtomicBool) {
    if is_away.swap(false, Ordering::SeqCst) {
        info!(Logfmt(*rt); "the allocator is heard again");
    }
}

/// The allocator was not heard.
pub(crate) fn tell_allocator_away<R: Clock + Eprint + Copy>(
    rt: &R,
    is_away: &AtomicBool,
    cause: Cause,
) {
    if !is_away.swap(true, Ordering::SeqCst) {
        let why = cause.text();
        warn!(Logfmt(*rt); "the allocator is not heard: {why}");
    }
}

/// Prometheus was heard.
pub(crate) fn tell_prometheus_heard<R: Clock + Eprint + Copy>(rt: &R, is_away: &AtomicBool) {
    if is_away.swap(false, Ordering::SeqCst) {
        info!(Logfmt(*rt); "Prometheus is heard again");
    }
}

/// Prometheus was not heard.
pub(crate) fn tell_prometheus_away<R: Clock + Eprint + Copy>(
    rt: &R,
    is_away: &AtomicBool,
    cause: Cause,
) {
    if !is_away.swap(true, Ordering::SeqCst) {
        let why = cause.text();
        warn!(Logfmt(*rt); "Prometheus is not heard, and nothing is reported meanwhile: {why}");
    }
}

/// An answer of the allocator was of no use.
pub(crate) fn tell_refused<R: Clock + Eprint + Copy>(rt: &R, status: u16) {
    warn!(Logfmt(*rt); status:% = status; "the allocator refuses a list: look at the tokens, and at its log");
}

/// Nobody has the agent's name, and it may not join by itself.
pub(crate) fn tell_unknown<R: Clock + Eprint + Copy>(rt: &R) {
    warn!(Logfmt(*rt); "the allocator does not know this collector: join it, or let the configuration say join");
}
