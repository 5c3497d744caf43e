//! Any request, and its answer.
use http::HeaderMap;
use lists::List;
use std::time::Duration;

/// The method of a request.
#[derive(Clone, Copy, Debug, PartialEq, Eq)]
pub enum Method {
    Get,
    Post,
}

/// A request.
#[derive(Clone, Copy)]
pub struct Ask<'a> {
    pub method: Method,
    /// The host to connect to, with its port where one is named.
    pub address: &'a str,
    /// The path, with its query where there is one.
    pub path: &'a str,
    /// Names and values of headers beside the host and the length of the body.
    pub headers: &'a [(&'a str, &'a str)],
    pub body: &'a [u8],
    /// The most bytes of the answer's body.
    pub longest: usize,
    /// How long it may take, from the looking up of a name to the end of the answer's body.
    pub limit: Duration,
}

/// An answer.
#[derive(Drop)]
pub struct Answer {
    pub status: u16,
    pub(crate) headers: HeaderMap,
    pub body: List<u8>,
}

impl Answer {
    /// The text of a header, empty where there is none or it is no text.
    pub fn header(&self, name: &str) -> &str {
        match self.headers.get(name) {
            Some(value) => value.to_str().unwrap_or(""),
            None => "",
        }
    }
}
