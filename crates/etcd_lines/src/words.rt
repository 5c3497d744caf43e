//! What an instance is told on its command line.
use lists::Text;
use std::alloc::{AllocError, Global};

/// What an instance is told on its command line.
#[derive(Drop)]
pub(crate) struct Words {
    pub(crate) endpoints: Vec<Text>,
    pub(crate) prefix: Text,
    /// How long a lease is.
    pub(crate) seconds: u32,
    pub(crate) advertise: Text,
}

impl Words {
    /// A copy of the endpoints.
    pub(crate) fn endpoints(&self, alloc: Global) -> Result<Vec<Text>, AllocError> {
        let mut all = Vec::new(alloc);
        for endpoint in self.endpoints.as_slice() {
            all.push(Text::from_str(alloc, endpoint.as_str())?)?;
        }
        Ok(all)
    }
}

/// None where they are others than asked for.
pub(crate) fn read_words(alloc: Global, given: &[String]) -> Result<Option<Words>, AllocError> {
    match given {
        [endpoints, prefix, seconds, advertise] => {
            let endpoints = split(alloc, endpoints.as_str())?;
            let prefix = Text::from_str(alloc, prefix.as_str())?;
            let advertise = Text::from_str(alloc, advertise.as_str())?;
            let seconds = seconds.as_str().parse().unwrap_or(10);
            Ok(Some(Words {
                endpoints,
                prefix,
                seconds,
                advertise,
            }))
        }
        _ => Ok(None),
    }
}

fn split(alloc: Global, text: &str) -> Result<Vec<Text>, AllocError> {
    let mut parts = Vec::new(alloc);
    for part in text.split(',') {
        parts.push(Text::from_str(alloc, part)?)?;
    }
    Ok(parts)
}
