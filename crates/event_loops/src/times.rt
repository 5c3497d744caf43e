//! The limits of time of a server.

/// The limits of time of a connection, in milliseconds.
#[derive(Clone, Copy, PartialEq, Eq)]
pub struct Times {
    /// How long a connection may be idle.
    pub idle: u64,
    /// How long a connection for which few places were left may be silent before its exchange.
    pub pressed: u64,
    /// How long an exchange may take, from the first byte of its head to the last byte of its answer.
    pub request: u64,
    /// How long an exchange may go on once the server is to end.
    pub last: u64,
    /// For how long what a peer still sends is thrown away once it has its last answer.
    pub linger: u64,
}

impl Times {
    /// 90 seconds, 2, 25, 5 and 1.
    pub const DEFAULT: Times = Times {
        idle: 90_000,
        pressed: 2_000,
        request: 25_000,
        last: 5_000,
        linger: 1_000,
    };
}
