//! What is answered.
use lists::{List, Text};

/// An answer.
#[derive(Drop)]
pub struct Reply {
    /// The status code (RFC 9110, section 15).
    pub status: u16,
    /// The field `content-type`, empty where there is none or it is no text.
    pub media: Text,
    pub body: List<u8>,
}

/// Why there is no answer.
#[derive(Clone, Copy, PartialEq, Eq)]
pub enum FetchFault {
    /// The address is none, or the connection or the exchange failed.
    Device,
    /// The body is longer than the device takes.
    TooLong,
    Memory,
}
