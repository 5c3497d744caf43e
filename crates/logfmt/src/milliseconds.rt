//! Lengths of time in milliseconds.
use std::fmt;
use std::fmt::{Display, Formatter};

/// Shows a length of time as `12ms`.
#[derive(Clone, Copy)]
pub struct Milliseconds(pub u64);

impl Display for Milliseconds {
    fn fmt<W: fmt::Write>(&self, f: &mut Formatter<W>) -> fmt::Result {
        let count = self.0;
        write!(f, "{count}ms")
    }
}
