//! What the machine says of the process.

/// What the machine says of this process. None where it does not say it.
#[derive(Clone, Copy, PartialEq, Eq)]
pub struct ProcessFigures {
    /// How many bytes of memory it has.
    pub resident_bytes: Option<u64>,
    /// How many bytes its addresses span.
    pub virtual_bytes: Option<u64>,
    /// How long processors worked for it, in milliseconds.
    pub cpu_millis: Option<u64>,
    /// How many descriptors it has open.
    pub open_descriptors: Option<u64>,
    /// How many it may have open.
    pub most_descriptors: Option<u64>,
}

impl ProcessFigures {
    /// Nothing is known yet.
    pub(crate) fn unknown() -> ProcessFigures {
        ProcessFigures {
            resident_bytes: None,
            virtual_bytes: None,
            cpu_millis: None,
            open_descriptors: None,
            most_descriptors: None,
        }
    }
}
