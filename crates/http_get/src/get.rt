//! What is asked.
use lists::{Plain, Text};
use std::alloc::AllocError;

/// A request of the method GET.
#[derive(Debug, Drop)]
pub struct Get {
    /// The host to connect to, with its port where one is named.
    pub address: Text,
    /// The path, with its query where there is one.
    pub path: Text,
}

impl Plain for Get {
    fn copy(&self) -> Result<Get, AllocError> {
        let address = self.address.copy()?;
        let path = self.path.copy()?;
        Ok(Get { address, path })
    }

    fn same(&self, other: &Get) -> bool {
        self.address.same(&other.address) && self.path.same(&other.path)
    }
}
