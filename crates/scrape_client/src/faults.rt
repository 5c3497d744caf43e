//! Faults of the layers below, as causes.
use http_get::Cause;
use std::io;

pub(crate) fn io_cause(error: &io::Error) -> Cause {
    match error.kind() {
        io::ErrorKind::OutOfMemory => Cause::Memory,
        io::ErrorKind::ConnectionRefused => Cause::Refused,
        io::ErrorKind::TimedOut => Cause::TimedOut,
        _ => Cause::Broken,
    }
}

pub(crate) fn hyper_cause(error: &hyper::Error) -> Cause {
    if error.is_out_of_memory() {
        Cause::Memory
    } else {
        Cause::Broken
    }
}

pub(crate) fn http_cause(error: &http::Error) -> Cause {
    match error {
        http::Error::OutOfMemory => Cause::Memory,
        _ => Cause::Broken,
    }
}
