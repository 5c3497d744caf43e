//! Log lines that have no pairs, or say whose they are.
use fleet_events::CollectorId;
use log::{Level, error, info, log, warn};
use logfmt::{Logfmt, Quoted};
use std::fmt::Display;
use std::time::Clock;

pub(crate) fn log_info<R: Clock + Eprint + Copy>(rt: &R, line: &str) {
    info!(Logfmt(*rt); "{line}");
}

pub(crate) fn log_warning<R: Clock + Eprint + Copy>(rt: &R, line: &str) {
    warn!(Logfmt(*rt); "{line}");
}

pub(crate) fn log_error<R: Clock + Eprint + Copy>(rt: &R, line: &str) {
    error!(Logfmt(*rt); "{line}");
}

/// A warning with its cause.
pub(crate) fn log_warning_of<R: Clock + Eprint + Copy, E: Display>(rt: &R, line: &str, why: &E) {
    warn!(Logfmt(*rt); "{line}: {why}");
}

/// An error with its cause.
pub(crate) fn log_error_of<R: Clock + Eprint + Copy, E: Display>(rt: &R, line: &str, why: &E) {
    error!(Logfmt(*rt); "{line}: {why}");
}

/// A refusal is a warning.
pub(crate) fn level_of(is_refused: bool) -> Level {
    if is_refused { Level::Warn } else { Level::Info }
}

/// A line on the collector of a name.
pub(crate) fn log_of_name<R: Clock + Eprint + Copy>(rt: &R, level: Level, name: &str, line: &str) {
    let collector = Quoted(name);
    log!(Logfmt(*rt); level, collector:% = collector; "{line}");
}

/// A line on the collector of a number.
pub(crate) fn log_of_number<R: Clock + Eprint + Copy>(
    rt: &R,
    level: Level,
    collector: CollectorId,
    line: &str,
) {
    log!(Logfmt(*rt); level, collector; "{line}");
}
