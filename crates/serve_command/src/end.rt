//! How a service ends that did not fail.

/// How a service ends that did not fail.
#[derive(Clone, Copy)]
pub(crate) enum End {
    /// It did what it was asked for, or was told to end.
    Done,
    /// Another instance leads, or may: nothing is kept by this one ever more.
    Deposed,
}
