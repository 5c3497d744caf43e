//! What is told of a fault, and the exit status.
use crate::fault::Fault;
use log::error;
use logfmt::Logfmt;
use std::io;
use std::process::ExitCode;
use std::time::Clock;

/// The status where a command is not told what to do.
const UNREADABLE: u8 = 2;

/// The status where the machine failed it.
const MACHINE: u8 = 3;

/// Tells a fault on standard error: the line as it is, or a line of the log that names who ended.
pub fn tell<R: Eprint + Clock + Copy>(rt: &R, who: &str, fault: &Fault) {
    match fault {
        Fault::Told(line) => {
            // Nobody can be told that a line was not written.
            let _ = rt.eprintln(line.as_str());
        }
        Fault::Machine(error) => log_failure(rt, who, error),
    }
}

fn log_failure<R: Eprint + Clock + Copy>(rt: &R, who: &str, error: &io::Error) {
    error!(Logfmt(*rt); "the {who} ended: {error}");
}

/// The exit status of a fault.
pub fn status_of(fault: &Fault) -> ExitCode {
    match fault {
        Fault::Told(_) => ExitCode::from(UNREADABLE),
        Fault::Machine(_) => ExitCode::from(MACHINE),
    }
}
