//! The plain program that the spans are compared with.
use lists::List;
use std::alloc::{AllocError, Global};

/// The plain program: all allocations as they came.
#[derive(Drop)]
pub(super) struct WholeLists {
    published: Vec<List<(u32, u32)>>,
}

impl WholeLists {
    pub(super) fn open(alloc: Global) -> WholeLists {
        WholeLists {
            published: Vec::new(alloc),
        }
    }

    pub(super) fn publish(
        &mut self,
        pairs: Result<List<(u32, u32)>, AllocError>,
    ) -> Result<(), AllocError> {
        match pairs {
            Ok(pairs) => Ok(self.published.push(pairs)?),
            Err(error) => Err(error),
        }
    }

    pub(super) fn holder(&self, number: u32, target: u32) -> Option<u32> {
        for pair in self.allocation(number) {
            if pair.0 == target {
                return Some(pair.1);
            }
        }
        None
    }

    /// From which number on the holder of a number has a target at each.
    pub(super) fn held_since(&self, number: u32, target: u32) -> Option<u32> {
        let holder = self.holder(number, target)?;
        let mut since = number;
        for back in 1..number {
            if self.holder(number - back, target) != Some(holder) {
                return Some(since);
            }
            since = number - back;
        }
        Some(since)
    }

    pub(super) fn held(
        &self,
        alloc: Global,
        number: u32,
        collector: u32,
    ) -> Result<List<u32>, AllocError> {
        let mut held = List::new(alloc);
        for pair in self.allocation(number) {
            if pair.1 == collector {
                held.push(pair.0)?;
            }
        }
        Ok(held)
    }

    /// The allocation of a number, the empty one where there is none.
    fn allocation(&self, number: u32) -> &[(u32, u32)] {
        if number == 0 {
            return &[];
        }
        match self.published.as_slice().get(number as usize - 1) {
            Some(pairs) => pairs.as_slice(),
            None => &[],
        }
    }
}
