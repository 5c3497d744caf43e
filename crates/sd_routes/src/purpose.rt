//! What a method is for.

/// What a method is for at a place.
#[derive(Clone, Copy, PartialEq, Eq)]
pub(crate) enum Purpose {
    /// What the place has is shown.
    Show,
    /// Only the head is shown of what the place has. It is looked at alone.
    ShowHead,
    /// Something is changed.
    Change,
}
