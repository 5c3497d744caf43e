//! Why there is no answer, for whoever reads a log.
ghost use Rattle.std.specs.Prelude.{◌≡◌};
ghost use Rattle.http_get.specs.Causes.{fault_of};

use crate::reply::FetchFault;

/// Why there is no answer, as closely as a device tells.
#[derive(Clone, Copy, PartialEq, Eq)]
pub enum Cause {
    /// The address is none that can be reached.
    NoAddress,
    /// The name is none that has an address.
    NoName,
    /// Nobody listens at the address.
    Refused,
    /// The answer was not there in time.
    TimedOut,
    /// The connection cannot be made or broke, or what came is no HTTP.
    Broken,
    /// The body is encoded, as a compressed one is.
    Encoded,
    /// The body is longer than the device takes.
    TooLong,
    Memory,
}

impl Cause {
    /// What a fetch that ends for this cause comes to.
    pub fn fault(self) -> FetchFault
        ensures { result ≡ fault_of self }
    {
        match self {
            Cause::NoAddress
            | Cause::NoName
            | Cause::Refused
            | Cause::TimedOut
            | Cause::Broken
            | Cause::Encoded => FetchFault::Device,
            Cause::TooLong => FetchFault::TooLong,
            Cause::Memory => FetchFault::Memory,
        }
    }

    /// The cause in words.
    pub fn text(self) -> &'static str {
        match self {
            Cause::NoAddress => "no address that can be reached",
            Cause::NoName => "no such name",
            Cause::Refused => "connection refused",
            Cause::TimedOut => "no answer in time",
            Cause::Broken => "the connection failed",
            Cause::Encoded => "the answer is encoded",
            Cause::TooLong => "the answer is too long",
            Cause::Memory => "no memory",
        }
    }
}
