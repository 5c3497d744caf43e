//! The jobs that were heard of, each with an index of its own as long as the agent runs.
use lists::Text;
use std::alloc::{AllocError, Global};
use std::sync::{Mutex, Wait};

/// The names of the jobs, in order of their indices.
#[derive(Drop)]
pub(crate) struct Jobs {
    alloc: Global,
    names: Mutex<Vec<Text>>,
}

impl Jobs {
    /// None yet.
    pub(crate) fn new(alloc: Global) -> Jobs {
        Jobs {
            alloc,
            names: Mutex::new(Vec::new(alloc)),
        }
    }

    /// The index of a job, which gets one where it has none.
    pub(crate) fn index_of(&self, rt: &impl Wait, job: &str) -> Result<u32, AllocError> {
        let mut names = self.names.lock(rt);
        match place_of(names.as_slice(), job) {
            Some(place) => index_at(place),
            None => {
                names.push(Text::from_str(self.alloc, job)?)?;
                index_at(names.len().saturating_sub(1))
            }
        }
    }

    /// The names, in order of their indices.
    pub(crate) fn names(&self, rt: &impl Wait) -> Result<Vec<Text>, AllocError> {
        let names = self.names.lock(rt);
        copied(self.alloc, names.as_slice())
    }
}

fn place_of(names: &[Text], job: &str) -> Option<usize> {
    names.iter().position(|name| name.as_str() == job)
}

fn index_at(place: usize) -> Result<u32, AllocError> {
    match u32::try_from(place) {
        Ok(index) => Ok(index),
        Err(_) => Err(AllocError),
    }
}

fn copied(alloc: Global, names: &[Text]) -> Result<Vec<Text>, AllocError> {
    let mut copies = Vec::new(alloc);
    for name in names {
        copies.push(Text::from_str(alloc, name.as_str())?)?;
    }
    Ok(copies)
}
