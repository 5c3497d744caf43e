//! Of which kind a request is.

/// Of which kind a request is: who may ask for it, and whether it is only shown.
#[derive(Clone, Copy, PartialEq, Eq)]
pub enum Access {
    /// It is only shown, to whoever asks.
    Shown,
    /// It is shown to whoever asks, and that he did is noted.
    Noted,
    /// The list of a collector is only looked at.
    Looked,
    /// The list of a collector is taken by it.
    Taken,
    /// A collector reports.
    Reported,
    /// Something is changed.
    Changed,
}
