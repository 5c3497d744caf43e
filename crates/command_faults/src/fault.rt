//! Why something ended or did not begin.
use std::alloc::AllocError;
use std::io;

/// Why something ended or did not begin.
#[derive(Debug, Drop)]
pub enum Fault {
    /// What it was told is not right, or its journal is not, as this line says.
    Told(String),
    /// The machine failed it.
    Machine(io::Error),
}

impl From<AllocError> for Fault {
    fn from(error: AllocError) -> Fault {
        Fault::Machine(error.into())
    }
}

impl From<io::Error> for Fault {
    fn from(error: io::Error) -> Fault {
        Fault::Machine(error)
    }
}
